// The blocks of an object set are met, and its data read.
ghost use Rattle.std.specs.Prelude.{◌≡◌, ◌⊎◌, ◌+◌, ◌^◌, ◌<◌, ◌≤◌, ℕ, OnOk};
ghost use Rattle.zst_block.specs.Blocks.{IsBlock};
ghost use Rattle.zst_block.specs.IoStates.{IsHonest, blocks_of, disk_of, io_of};
ghost use Rattle.zst_block.specs.IoCalls.{Looks, stop_of};
ghost use Rattle.zst_marks.specs.Marks.{IsMarked};
ghost use Rattle.zst_model.specs.states.DatedState.{DatedState};
ghost use Rattle.zst_objset.specs.Damage.{IfDamaged};
ghost use Rattle.zst_objset.specs.Sets.{SetHolds};
ghost use Rattle.zst_tree.specs.Damage.{IsSeen};
ghost use Rattle.zst_tree.specs.Indices.{Delivers, span};
ghost use Rattle.zst_count.specs.CountedSets.{AreMetInSet, AreMetInTree, AreReadInSet, AreReadInTree, DataStandInSet, DataStandInTree, IsDamagedInSet, IsDamagedInTree, IsFirstInTree};
ghost use Rattle.zst_count.specs.FirstSectors.{IsFirstInSet};
ghost use Rattle.zst_count.specs.MetBlocks.{MetMore};

use crate::met_blocks::MetBlocks;
use crate::objects::count_leaf;
use crate::trees::count_below;
use std::mem;
use zst_block::{BlockFault, Io, Node, Ptr};
use zst_outside::Disk;
use zst_reach::{child_beside, load_beside, load_named};
use zst_tree::{ObjSet, TREE_INDEX_BOUND, child_at, span_of};

// Meets what is reached below a pointer of a set's tree whose first leaf has this index, beside one in the same place. The leaves past the
// bound are of no set: they are met, and not read.
fn count_leaves<D: Disk>(
    io: &mut Io<'_, D>,
    met: &mut MetBlocks,
    level: u8,
    ptr: Ptr,
    first: u64,
    known: (u8, Ptr),
) -> Result<(), BlockFault>
    requires level { level ≤ 7 }
    requires first { first + span level ≤ 2 ^ 49 }
    ensures all { IsHonest io.new → AreMetInTree (disk_of io.old).seen met.old.end met.old.marks known.0 known.1 first → OnOk result (AreMetInTree (disk_of io.old).seen met.new.end met.new.marks level ptr first) }
    ensures only { IsHonest io.new → (sector : ℕ) → IsMarked met.new.marks sector → IsMarked met.old.marks sector ⊎ (IsFirstInTree (IsBlock (disk_of io.old).seen) level ptr first sector × (sector < met.old.end)) }
    ensures more { MetMore met.old met.new }
    ensures read { IsHonest io.new → AreReadInTree (disk_of io.old).seen known.0 known.1 first → OnOk result (AreReadInTree (disk_of io.old).seen level ptr first) }
    ensures stands { IsHonest io.new → DataStandInTree (blocks_of io.old) level ptr first → Delivers (λ done. Unit {0}) result }
    ensures damaged { IsHonest io.new → IfDamaged result (IsDamagedInTree (IsSeen (disk_of io.old).seen) (disk_of io.old).size level ptr) }
    ensures shared { known.0 ≡ level → known.1 ≡ ptr → io.new ≡ io.old }
    ensures looks { Looks (io_of io.old) (io_of io.new) (stop_of result) }
{
    if first >= TREE_INDEX_BOUND {
        return count_below(io, met, level, ptr, None, known);
    }
    if ptr.is_flat() {
        return Ok(());
    }
    if known.0 == level && known.1 == ptr {
        return Ok(());
    }
    met.meet(&ptr);
    if level == 0 {
        return count_leaf(io, met, ptr, known);
    }
    load_named(io, level, ptr)?;
    let node = mem::replace(&mut io.node, Node::new());
    let beside = load_beside(io, level, known.0, known.1)?;
    for k in 0..128 {
        let under = child_beside(&beside, level, known.0, known.1, k);
        let start = first + k as u64 * span_of(level - 1);
        count_leaves(io, met, level - 1, child_at(&node, k), start, under)?;
    }
    Ok(())
}

/// Meets all blocks that a set reaches, and reads its data. What a set that was walked before has in the same place is passed by.
pub(crate) fn count_set<D: Disk>(
    io: &mut Io<'_, D>,
    met: &mut MetBlocks,
    set: &ObjSet,
    known: &ObjSet,
) -> Result<(), BlockFault>
    // Where all that the known set reaches was met, all that this one reaches is. Nothing else is met, and what was met stays so.
    ensures all { IsHonest io.new → AreMetInSet (disk_of io.old).seen met.old.end met.old.marks known.now → OnOk result (AreMetInSet (disk_of io.old).seen met.new.end met.new.marks set.now) }
    ensures only { IsHonest io.new → (sector : ℕ) → IsMarked met.new.marks sector → IsMarked met.old.marks sector ⊎ (IsFirstInSet (IsBlock (disk_of io.old).seen) set.now sector × (sector < met.old.end)) }
    ensures more { MetMore met.old met.new }

    // So it is with what is read: each block that the set reaches has the sums of its pointer, where that is so of the known set.
    ensures read { IsHonest io.new → AreReadInSet (disk_of io.old).seen known.now → OnOk result (AreReadInSet (disk_of io.old).seen set.now) }

    // A set whose blocks stand is walked, unless the disk fails, and so one that holds a state and has no block that is no state's. What is
    // damaged is a block of this set: of the known one nothing is told.
    ensures stands { IsHonest io.new → DataStandInSet (blocks_of io.old) set.now → Delivers (λ done. Unit {0}) result }
    ensures holds { (state : DatedState) → IsHonest io.new → SetHolds (blocks_of io.old) set.now state → Delivers (λ done. Unit {0}) result }
    ensures damaged { IsHonest io.new → IfDamaged result (IsDamagedInSet (IsSeen (disk_of io.old).seen) (disk_of io.old).size set.now) }

    // What is shared isn't read again.
    ensures shared { known.now ≡ set.now → io.new ≡ io.old }
    ensures looks { Looks (io_of io.old) (io_of io.new) (stop_of result) }
{
    if set.tree.levels > 7 {
        return Err(BlockFault::of_layout(&set.tree.root));
    }
    let beside = (known.tree.levels, known.tree.root);
    count_leaves(io, met, set.tree.levels, set.tree.root, 0, beside)
}
