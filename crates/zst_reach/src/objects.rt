// What an object reaches is marked.
ghost use Rattle.std.specs.Prelude.{◌⊎◌, ◌<◌, ℕ, List, OnOk};
ghost use Rattle.zst_block.specs.Blocks.{IsBlock};
ghost use Rattle.zst_block.specs.IoStates.{IsHonest, blocks_of, disk_of, io_of};
ghost use Rattle.zst_block.specs.IoCalls.{Looks, stop_of};
ghost use Rattle.zst_block.specs.declared.ptr.Ptr.{Ptr};
ghost use Rattle.zst_marks.specs.Marks.{HasRoomFor, IsMarked, MarksMore};
ghost use Rattle.zst_objset.specs.Damage.{IfDamaged};
ghost use Rattle.zst_tree.specs.Damage.{IsSeen, NamesDamage, NamesNode};
ghost use Rattle.zst_tree.specs.Indices.{Delivers};
ghost use Rattle.zst_reach.specs.Reached.{IsBeside};
ghost use Rattle.zst_reach.specs.ReachedSets.{AreMarkedBeside, AreMarkedInDnode, AreMarkedInSlot, AreWalked, ReachesInDnode, ReachesInSlot};
ghost use Rattle.zst_reach.specs.SetDamage.{IsDamagedInSlot};
ghost use Rattle.zst_reach.specs.StandingNodes.{NodesStand, NodesStandInSlot};

use crate::trees::mark_below;
use zst_block::{BlockFault, Io, Node, Ptr};
use zst_dnode::{Dnode, Slot};
use zst_marks::Marks;
use zst_outside::Disk;

/// The tree and the spill of an object that was walked before, or holes.
#[derive(Clone, Copy, Debug)]
pub(crate) struct Walked {
    pub levels: u8,
    pub root: Ptr,
    pub spill: Ptr,
}

// What was walked before of the object in this place, where its leaf was.
fn object_beside(beside: &Option<Node>, place: usize) -> Walked
    requires { place < 16 }
    ensures { (image marks : List ℕ) (end level : ℕ) (known : Ptr) → IsBeside image 0 level known beside.now → AreMarkedBeside image end marks level known → AreWalked image end marks result }
{
    if let Some(node) = beside {
        if let Some(Slot::There(dnode)) = Slot::get(node.as_slice(), 512 * place) {
            return Walked {
                levels: dnode.levels,
                root: dnode.root,
                spill: dnode.spill,
            };
        }
    }
    let hole = Ptr::hole(0);
    Walked {
        levels: 0,
        root: hole,
        spill: hole,
    }
}

// Marks the sectors of an object's tree and of its spill.
fn mark_object<D: Disk>(
    io: &mut Io<'_, D>,
    marks: &mut Marks,
    end: u64,
    dnode: &Dnode,
    known: Walked,
) -> Result<(), BlockFault>
    requires room { HasRoomFor marks.old end }
    ensures all { IsHonest io.new → AreWalked (disk_of io.old).seen end marks.old known → OnOk result (AreMarkedInDnode (disk_of io.old).seen end marks.new dnode.now) }
    ensures only { IsHonest io.new → (sector : ℕ) → IsMarked marks.new sector → IsMarked marks.old sector ⊎ ReachesInDnode (IsBlock (disk_of io.old).seen) dnode.now sector }
    ensures more { MarksMore marks.old marks.new }
    ensures stands { IsHonest io.new → NodesStand (blocks_of io.old) dnode.now.levels dnode.now.root → Delivers (λ done. Unit {0}) result }
    ensures damaged { IsHonest io.new → NamesDamage (IsSeen (disk_of io.old).seen) (disk_of io.old).size NamesNode dnode.now.levels dnode.now.root result }
    ensures looks { Looks (io_of io.old) (io_of io.new) (stop_of result) }
{
    mark_below(
        io,
        marks,
        end,
        dnode.levels,
        dnode.root,
        known.levels,
        known.root,
    )?;
    mark_below(io, marks, end, 0, dnode.spill, 0, known.spill)
}

// Marks what the object of a slot reaches, beside the slot in the same place of a leaf that was walked
// before.
pub(crate) fn mark_slot<D: Disk>(
    io: &mut Io<'_, D>,
    marks: &mut Marks,
    end: u64,
    slot: &Slot,
    beside: &Option<Node>,
    place: usize,
) -> Result<(), BlockFault>
    requires room { HasRoomFor marks.old end }
    requires place { place < 16 }
    ensures all { (level : ℕ) (known : Ptr) → IsHonest io.new → IsBeside (disk_of io.old).seen 0 level known beside.now → AreMarkedBeside (disk_of io.old).seen end marks.old level known
        → OnOk result (AreMarkedInSlot (disk_of io.old).seen end marks.new slot.now) }
    ensures only { IsHonest io.new → (sector : ℕ) → IsMarked marks.new sector → IsMarked marks.old sector ⊎ ReachesInSlot (IsBlock (disk_of io.old).seen) slot.now sector }
    ensures more { MarksMore marks.old marks.new }
    ensures stands { IsHonest io.new → NodesStandInSlot (blocks_of io.old) slot.now → Delivers (λ done. Unit {0}) result }
    ensures damaged { IsHonest io.new → IfDamaged result (IsDamagedInSlot (IsSeen (disk_of io.old).seen) (disk_of io.old).size slot.now) }
    ensures looks { Looks (io_of io.old) (io_of io.new) (stop_of result) }
{
    match slot {
        Slot::Absent { .. } => Ok(()),
        Slot::There(dnode) => mark_object(io, marks, end, dnode, object_beside(beside, place)),
    }
}
