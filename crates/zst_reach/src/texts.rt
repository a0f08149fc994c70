// The leaves of a text are walked.
ghost use Rattle.std.specs.Prelude.{◌⊎◌, ℕ, List, OnOk};
ghost use Rattle.zst_block.specs.Blocks.{IsBlock};
ghost use Rattle.zst_block.specs.IoStates.{IsHonest, blocks_of, disk_of, io_of};
ghost use Rattle.zst_block.specs.IoCalls.{Looks, stop_of};
ghost use Rattle.zst_marks.specs.Marks.{HasRoomFor, IsMarked, MarksMore};
ghost use Rattle.zst_leaves.specs.Leaves.{HasLeaves};
ghost use Rattle.zst_tree.specs.Damage.{IsSeen, NamesDamage, NamesNode};
ghost use Rattle.zst_tree.specs.Indices.{Delivers};
ghost use Rattle.zst_reach.specs.Reached.{AreMarked, ReachesSector};

use crate::trees::mark_below;
use zst_block::{BlockFault, Io, Ptr};
use zst_marks::Marks;
use zst_outside::Disk;

/// Marks the sectors of the leaves of a text, and of the nodes above them, before an end.
pub fn mark_text<D: Disk>(
    io: &mut Io<'_, D>,
    marks: &mut Marks,
    end: u64,
    levels: u8,
    root: Ptr,
) -> Result<(), BlockFault>
    requires room { HasRoomFor marks.old end }
    ensures all { IsHonest io.new → OnOk result (AreMarked (disk_of io.old).seen end marks.new levels root) }
    ensures only { IsHonest io.new → (sector : ℕ) → IsMarked marks.new sector → IsMarked marks.old sector ⊎ ReachesSector (IsBlock (disk_of io.old).seen) levels root sector }
    ensures more { MarksMore marks.old marks.new }

    // A text that is there is walked, unless the disk fails, and what is damaged is a node above its leaves.
    ensures there { (text : List ℕ) → IsHonest io.new → HasLeaves (blocks_of io.old) levels root text → Delivers (λ done. Unit {0}) result }
    ensures damaged { IsHonest io.new → NamesDamage (IsSeen (disk_of io.old).seen) (disk_of io.old).size NamesNode levels root result }
    ensures looks { Looks (io_of io.old) (io_of io.new) (stop_of result) }
{
    mark_below(io, marks, end, levels, root, 0, Ptr::hole(0))
}
