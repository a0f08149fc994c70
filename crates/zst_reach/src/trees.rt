// A tree is walked, beside one that was walked before.
ghost use Rattle.std.specs.Prelude.{◌≡◌, ◌⊎◌, ◌-◌, ◌<◌, ℕ, OnOk};
ghost use Rattle.zst_block.specs.Blocks.{IsBlock};
ghost use Rattle.zst_block.specs.IoStates.{IsHonest, blocks_of, disk_of, io_of};
ghost use Rattle.zst_block.specs.IoCalls.{Looks, stop_of};
ghost use Rattle.zst_marks.specs.Marks.{HasRoomFor, IsMarked, MarksMore};
ghost use Rattle.zst_tree.specs.Damage.{IsSeen, NamesDamage, NamesNode};
ghost use Rattle.zst_tree.specs.Indices.{Delivers, Map, Subtree};
ghost use Rattle.zst_reach.specs.Reached.{AreMarked, ReachesSector};
ghost use Rattle.zst_reach.specs.StandingNodes.{NodesStand};

use crate::blocks::mark_block;
use crate::nodes::{child_beside, load_beside, load_named};
use std::mem;
use zst_block::{BlockFault, Io, Node, Ptr};
use zst_marks::Marks;
use zst_outside::Disk;
use zst_tree::child_at;

/// Marks the sectors of all blocks that are reached below a pointer at a level, before an end. What a
/// tree that was walked before has in the same place is passed by.
pub fn mark_below<D: Disk>(
    io: &mut Io<'_, D>,
    marks: &mut Marks,
    end: u64,
    level: u8,
    ptr: Ptr,
    known_level: u8,
    known: Ptr,
) -> Result<(), BlockFault>
    requires room { HasRoomFor marks.old end }

    // Where all below the known one was marked, all below this one is. Nothing else is marked than what
    // is reached, and what was marked stays so.
    ensures all { IsHonest io.new → AreMarked (disk_of io.old).seen end marks.old known_level known → OnOk result (AreMarked (disk_of io.old).seen end marks.new level ptr) }
    ensures only { IsHonest io.new → (sector : ℕ) → IsMarked marks.new sector → IsMarked marks.old sector ⊎ ReachesSector (IsBlock (disk_of io.old).seen) level ptr sector }
    ensures more { MarksMore marks.old marks.new }

    // A tree whose nodes stand is walked, unless the disk fails: that of a set or of an object, and that of
    // a text. What is damaged is a node of the tree.
    ensures there { (base : ℕ) (map : Map) → IsHonest io.new → Subtree (blocks_of io.old) level ptr base map → Delivers (λ done. Unit {0}) result }
    ensures stands { IsHonest io.new → NodesStand (blocks_of io.old) level ptr → Delivers (λ done. Unit {0}) result }
    ensures damaged { IsHonest io.new → NamesDamage (IsSeen (disk_of io.old).seen) (disk_of io.old).size NamesNode level ptr result }

    // What is shared isn't read again.
    ensures shared { known_level ≡ level → known ≡ ptr → io.new ≡ io.old }
    ensures looks { Looks (io_of io.old) (io_of io.new) (stop_of result) }
{
    if ptr.is_flat() {
        return Ok(());
    }
    if known_level == level && known == ptr {
        return Ok(());
    }
    mark_block(marks, end, &ptr);
    if level == 0 {
        return Ok(());
    }
    load_named(io, level, ptr)?;
    let node = mem::replace(&mut io.node, Node::new());
    let beside = load_beside(io, level, known_level, known)?;
    for k in 0..128 {
        let (lower, under) = child_beside(&beside, level, known_level, known, k);
        mark_below(io, marks, end, level - 1, child_at(&node, k), lower, under)?;
    }
    Ok(())
}
