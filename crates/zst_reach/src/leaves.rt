// What the objects in a leaf of a set reach is marked.
ghost use Rattle.std.specs.Prelude.{◌≡◌, ◌⊎◌, ◌<◌, ℕ, false, OnOk};
ghost use Rattle.zst_block.specs.Blocks.{IsBlock};
ghost use Rattle.zst_block.specs.IoStates.{IsHonest, blocks_of, disk_of, io_of};
ghost use Rattle.zst_block.specs.IoCalls.{Looks, stop_of};
ghost use Rattle.zst_block.specs.Ptr.{is_flat};
ghost use Rattle.zst_marks.specs.Marks.{HasRoomFor, IsMarked, MarksMore};
ghost use Rattle.zst_objset.specs.Damage.{IfDamaged};
ghost use Rattle.zst_tree.specs.Damage.{IsSeen};
ghost use Rattle.zst_tree.specs.Indices.{Delivers};
ghost use Rattle.zst_reach.specs.ReachedSets.{AreMarkedBeside, AreMarkedInLeaf, ReachesInLeaf};
ghost use Rattle.zst_reach.specs.SetDamage.{IsDamagedInLeaf};
ghost use Rattle.zst_reach.specs.StandingNodes.{LeafStands};

use crate::nodes::load_beside;
use crate::objects::mark_slot;
use std::mem;
use zst_block::{BlockFault, Io, Node, Ptr, load};
use zst_dnode::Slot;
use zst_marks::Marks;
use zst_outside::Disk;

// Marks what the objects in the sixteen slots of a leaf reach, beside the leaf in the same place of a
// set that was walked before.
pub(crate) fn mark_leaf<D: Disk>(
    io: &mut Io<'_, D>,
    marks: &mut Marks,
    end: u64,
    ptr: Ptr,
    known_level: u8,
    known: Ptr,
) -> Result<(), BlockFault>
    requires room { HasRoomFor marks.old end }
    ensures all { IsHonest io.new → AreMarkedBeside (disk_of io.old).seen end marks.old known_level known → OnOk result (AreMarkedInLeaf (disk_of io.old).seen end marks.new ptr) }
    ensures only { IsHonest io.new → (sector : ℕ) → IsMarked marks.new sector → IsMarked marks.old sector ⊎ ReachesInLeaf (IsBlock (disk_of io.old).seen) ptr sector }
    ensures more { MarksMore marks.old marks.new }
    ensures stands { IsHonest io.new → LeafStands (blocks_of io.old) ptr → Delivers (λ done. Unit {0}) result }
    ensures damaged { IsHonest io.new → is_flat ptr ≡ false → IfDamaged result (IsDamagedInLeaf (IsSeen (disk_of io.old).seen) (disk_of io.old).size ptr) }
    ensures looks { Looks (io_of io.old) (io_of io.new) (stop_of result) }
{
    load(io, ptr)?;
    let leaf = mem::replace(&mut io.node, Node::new());
    let beside = load_beside(io, 0, known_level, known)?;
    for place in 0..16 {
        let Some(slot) = Slot::get(leaf.as_slice(), 512 * place) else {
            return Err(BlockFault::of_layout(&ptr));
        };
        mark_slot(io, marks, end, &slot, &beside, place)?;
    }
    Ok(())
}
