// What sessions that are open hold besides the rows is marked.
ghost use Rattle.std.specs.Prelude.{◌⊎◌, ◌<◌, ℕ, List, All, OnOk};
ghost use Rattle.zst_block.specs.Blocks.{IsBlock};
ghost use Rattle.zst_block.specs.IoStates.{IsHonest, blocks_of, disk_of, io_of};
ghost use Rattle.zst_block.specs.IoCalls.{Looks, stop_of};
ghost use Rattle.zst_marks.specs.Marks.{HasRoomFor, IsMarked, MarksMore};
ghost use Rattle.zst_objset.specs.Damage.{IfDamaged};
ghost use Rattle.zst_reach.specs.ReachedSets.{AllMarked, AreMarkedInSet};
ghost use Rattle.zst_tree.specs.Damage.{IsSeen};
ghost use Rattle.zst_tree.specs.Indices.{Delivers};
ghost use Rattle.zst_roots.specs.Held.{HeldReaches, IsHeldBy, IsOfBlock};
ghost use Rattle.zst_roots.specs.ReachedRows.{AreMarkedForSnapshots, IsReachedBySome};
ghost use Rattle.zst_roots.specs.RowDamage.{IsDamagedHeld, IsToldOfSome};
ghost use Rattle.zst_roots.specs.StandingRows.{HeldStands};

use crate::nearest::objects_at;
use zst_block::{BlockFault, Io, Ptr};
use zst_dir::Dir;
use zst_marks::Marks;
use zst_outside::Disk;
use zst_reach::{mark_block, mark_set};
use zst_tree::ObjSet;

/// What a session that is open holds besides the rows of the directory, none of which need have its set any more.
#[derive(Clone, Copy, Debug)]
pub struct HeldBlocks {
    /// The object set that it walks.
    pub set: ObjSet,
    /// Pointers to blocks that it has yet to read, or has in memory. Their sectors are held whatever their kind.
    pub blocks: [Option<Ptr>; 3],
}

// The objects of a snapshot that has the very same set, so that nothing of it is walked again, and none where no snapshot has it.
fn same_objects(dir: &Dir, set: &ObjSet) -> ObjSet
    ensures { (image marks : List ℕ) (end : ℕ) → AreMarkedForSnapshots image end marks dir.now.snapshots → AreMarkedInSet image end marks result }
{
    let rows = dir.snapshots();
    let place = rows.iter().position(|row| row.objects == *set);
    objects_at(rows, place)
}

// Marks the sectors before an end of the block that a pointer names, where it names one.
fn mark_named(marks: &mut Marks, end: u64, block: &Option<Ptr>)
    requires room { HasRoomFor marks.old end }
    ensures all { (sector : ℕ) → IsOfBlock block.now sector → sector < end → IsMarked marks.new sector }
    ensures only { (sector : ℕ) → IsMarked marks.new sector → IsMarked marks.old sector ⊎ IsOfBlock block.now sector }
    ensures more { MarksMore marks.old marks.new }
{
    if let Some(ptr) = block {
        mark_block(marks, end, ptr);
    }
}

// Marks those of the blocks that some pointers name.
fn mark_blocks(marks: &mut Marks, end: u64, blocks: &[Option<Ptr>])
    requires room { HasRoomFor marks.old end }
    ensures all { (sector : ℕ) → IsReachedBySome blocks.now IsOfBlock sector → sector < end → IsMarked marks.new sector }
    ensures only { (sector : ℕ) → IsMarked marks.new sector → IsMarked marks.old sector ⊎ IsReachedBySome blocks.now IsOfBlock sector }
    ensures more { MarksMore marks.old marks.new }
{
    for block in blocks {
        mark_named(marks, end, block);
    }
}

// Marks what one session holds. What all snapshots reach was marked before.
fn mark_one<D: Disk>(
    io: &mut Io<'_, D>,
    marks: &mut Marks,
    end: u64,
    dir: &Dir,
    one: &HeldBlocks,
) -> Result<(), BlockFault>
    requires room { HasRoomFor marks.old end }
    ensures all { IsHonest io.new → AreMarkedForSnapshots (disk_of io.old).seen end marks.old dir.now.snapshots → OnOk result (AllMarked (disk_of io.old).seen end marks.new (IsHeldBy (IsBlock (disk_of io.old).seen) one.now)) }
    ensures only { IsHonest io.new → (sector : ℕ) → IsMarked marks.new sector → IsMarked marks.old sector ⊎ IsHeldBy (IsBlock (disk_of io.old).seen) one.now sector }
    ensures more { MarksMore marks.old marks.new }
    ensures stands { IsHonest io.new → HeldStands (blocks_of io.old) one.now → Delivers (λ done. Unit {0}) result }
    ensures damaged { IsHonest io.new → IfDamaged result (IsDamagedHeld (IsSeen (disk_of io.old).seen) (disk_of io.old).size one.now) }
    ensures looks { Looks (io_of io.old) (io_of io.new) (stop_of result) }
{
    let known = same_objects(dir, &one.set);
    mark_set(io, marks, end, &one.set, &known)?;
    mark_blocks(marks, end, &one.blocks);
    Ok(())
}

// Marks what each session holds.
pub(crate) fn mark_held<D: Disk>(
    io: &mut Io<'_, D>,
    marks: &mut Marks,
    end: u64,
    dir: &Dir,
    held: &[HeldBlocks],
) -> Result<(), BlockFault>
    requires room { HasRoomFor marks.old end }
    ensures all { IsHonest io.new → AreMarkedForSnapshots (disk_of io.old).seen end marks.old dir.now.snapshots → OnOk result (AllMarked (disk_of io.old).seen end marks.new (HeldReaches (IsBlock (disk_of io.old).seen) held.now)) }
    ensures only { IsHonest io.new → (sector : ℕ) → IsMarked marks.new sector → IsMarked marks.old sector ⊎ HeldReaches (IsBlock (disk_of io.old).seen) held.now sector }
    ensures more { MarksMore marks.old marks.new }
    ensures stands { IsHonest io.new → All (HeldStands (blocks_of io.old)) held.now → Delivers (λ done. Unit {0}) result }
    ensures damaged { IsHonest io.new → IfDamaged result (IsToldOfSome held.now (IsDamagedHeld (IsSeen (disk_of io.old).seen) (disk_of io.old).size)) }
    ensures looks { Looks (io_of io.old) (io_of io.new) (stop_of result) }
{
    for one in held {
        mark_one(io, marks, end, dir, one)?;
    }
    Ok(())
}
