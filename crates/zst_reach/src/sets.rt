// An object set is walked, beside one that was walked before.
ghost use Rattle.std.specs.Prelude.{◌≡◌, ◌⊎◌, ◌+◌, ◌-◌, ◌*◌, ◌^◌, ◌<◌, ◌≤◌, ℕ, OnOk};
ghost use Rattle.zst_block.specs.Blocks.{IsBlock};
ghost use Rattle.zst_block.specs.IoStates.{IsHonest, blocks_of, disk_of, io_of};
ghost use Rattle.zst_block.specs.IoCalls.{Looks, stop_of};
ghost use Rattle.zst_marks.specs.Marks.{HasRoomFor, IsMarked, MarksMore};
ghost use Rattle.zst_model.specs.sends.Inclusion.{Pairs};
ghost use Rattle.zst_model.specs.states.DatedState.{DatedState};
ghost use Rattle.zst_objset.specs.Damage.{IfDamaged, IsDamagedObject};
ghost use Rattle.zst_objset.specs.Sets.{SetHoldsBut};
ghost use Rattle.zst_tree.specs.Damage.{IsSeen, NamesNode};
ghost use Rattle.zst_tree.specs.Indices.{Delivers, span};
ghost use Rattle.zst_reach.specs.ReachedSets.{AreMarkedInSet, AreMarkedInTree, ReachesInSet, ReachesInTree};
ghost use Rattle.zst_reach.specs.SetDamage.{IsDamagedInTree};
ghost use Rattle.zst_reach.specs.StandingNodes.{SetStands};

use crate::blocks::mark_block;
use crate::leaves::mark_leaf;
use crate::nodes::{child_beside, load_beside, load_named};
use crate::trees::mark_below;
use std::mem;
use zst_block::{BlockFault, Io, Node, Ptr};
use zst_marks::Marks;
use zst_outside::Disk;
use zst_tree::{ObjSet, TREE_INDEX_BOUND, child_at, span_of};

// The first index below a child of a pointer whose first index is this one.
fn start_of(level: u8, first: u64, child: usize) -> u64
    requires level { level ≤ 7 }
    requires inner { 0 < level }
    requires child { child < 128 }
    requires first { first + span level ≤ 2 ^ 49 }
    ensures value { result ≡ first + child * span (level - 1) }
    ensures inside { result + span (level - 1) ≤ 2 ^ 49 }
{
    first + child as u64 * span_of(level - 1)
}

// Marks what is reached below a pointer of a set's tree whose first leaf has this index, beside one in
// the same place. The leaves past the bound are of no set: they are marked, and not read.
fn mark_leaves<D: Disk>(
    io: &mut Io<'_, D>,
    marks: &mut Marks,
    end: u64,
    level: u8,
    ptr: Ptr,
    first: u64,
    known: (u8, Ptr),
) -> Result<(), BlockFault>
    requires room { HasRoomFor marks.old end }
    requires level { level ≤ 7 }
    requires first { first + span level ≤ 2 ^ 49 }
    ensures all { IsHonest io.new → AreMarkedInTree (disk_of io.old).seen end marks.old known.0 known.1 first → OnOk result (AreMarkedInTree (disk_of io.old).seen end marks.new level ptr first) }
    ensures only { IsHonest io.new → (sector : ℕ) → IsMarked marks.new sector → IsMarked marks.old sector ⊎ ReachesInTree (IsBlock (disk_of io.old).seen) level ptr first sector }
    ensures more { MarksMore marks.old marks.new }
    ensures stands { IsHonest io.new → SetStands (blocks_of io.old) level ptr first → Delivers (λ done. Unit {0}) result }
    ensures damaged { IsHonest io.new → IfDamaged result (IsDamagedInTree (IsSeen (disk_of io.old).seen) (disk_of io.old).size level ptr) }
    ensures shared { known.0 ≡ level → known.1 ≡ ptr → io.new ≡ io.old }
    ensures looks { Looks (io_of io.old) (io_of io.new) (stop_of result) }
{
    if first >= TREE_INDEX_BOUND {
        return mark_below(io, marks, end, level, ptr, known.0, known.1);
    }
    if ptr.is_flat() {
        return Ok(());
    }
    if known.0 == level && known.1 == ptr {
        return Ok(());
    }
    mark_block(marks, end, &ptr);
    if level == 0 {
        return mark_leaf(io, marks, end, ptr, known.0, known.1);
    }
    load_named(io, level, ptr)?;
    let node = mem::replace(&mut io.node, Node::new());
    let beside = load_beside(io, level, known.0, known.1)?;
    for k in 0..128 {
        let under = child_beside(&beside, level, known.0, known.1, k);
        let start = start_of(level, first, k);
        mark_leaves(io, marks, end, level - 1, child_at(&node, k), start, under)?;
    }
    Ok(())
}

/// Marks the sectors of all that a set reaches, before an end: of its tree, and of the tree and the
/// spill of each object. What a set that was walked before has in the same place is passed by; where
/// there is none, the empty set stands for it.
pub fn mark_set<D: Disk>(
    io: &mut Io<'_, D>,
    marks: &mut Marks,
    end: u64,
    set: &ObjSet,
    known: &ObjSet,
) -> Result<(), BlockFault>
    requires room { HasRoomFor marks.old end }

    // Where all that the known set reaches was marked, all that this one reaches is. Nothing else is
    // marked, and what was marked stays so.
    ensures all { IsHonest io.new → AreMarkedInSet (disk_of io.old).seen end marks.old known.now → OnOk result (AreMarkedInSet (disk_of io.old).seen end marks.new set.now) }
    ensures only { IsHonest io.new → (sector : ℕ) → IsMarked marks.new sector → IsMarked marks.old sector ⊎ ReachesInSet (IsBlock (disk_of io.old).seen) set.now sector }
    ensures more { MarksMore marks.old marks.new }

    // A set that holds a state is walked, unless the disk fails, also where that is so but for the bytes of some pairs: the blocks
    // of these are marked, and not read. What is damaged is a block of this set: of the known one nothing is told.
    ensures there { (pairs : Pairs) (snap : DatedState) → IsHonest io.new → SetHoldsBut (blocks_of io.old) pairs set.now snap → Delivers (λ done. Unit {0}) result }
    ensures damaged { IsHonest io.new → IfDamaged result (IsDamagedObject (IsSeen (disk_of io.old).seen) (disk_of io.old).size NamesNode set.now) }

    // What is shared isn't read again.
    ensures shared { known.now ≡ set.now → io.new ≡ io.old }
    ensures looks { Looks (io_of io.old) (io_of io.new) (stop_of result) }
{
    if set.tree.levels > 7 {
        return Err(BlockFault::of_layout(&set.tree.root));
    }
    let beside = (known.tree.levels, known.tree.root);
    mark_leaves(io, marks, end, set.tree.levels, set.tree.root, 0, beside)
}
