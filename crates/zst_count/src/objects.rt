// The blocks of the objects in a leaf of a set are met, and their data read.
ghost use Rattle.std.specs.Prelude.{◌≡◌, ◌⊎◌, ◌<◌, ℕ, false, IfSome, OnOk};
ghost use Rattle.zst_block.specs.Blocks.{IsBlock};
ghost use Rattle.zst_block.specs.IoStates.{IsHonest, blocks_of, disk_of, io_of};
ghost use Rattle.zst_block.specs.IoCalls.{Looks, stop_of};
ghost use Rattle.zst_block.specs.Ptr.{is_flat};
ghost use Rattle.zst_block.specs.declared.ptr.Ptr.{Ptr};
ghost use Rattle.zst_dnode.specs.Dnode.{DnodeFits};
ghost use Rattle.zst_dnode.specs.Slot.{SlotFits};
ghost use Rattle.zst_marks.specs.Marks.{IsMarked};
ghost use Rattle.zst_objset.specs.Damage.{IfDamaged};
ghost use Rattle.zst_reach.specs.Reached.{IsBeside};
ghost use Rattle.zst_tree.specs.Damage.{IsSeen};
ghost use Rattle.zst_tree.specs.Indices.{Delivers};
ghost use Rattle.zst_count.specs.DataDamage.{IsDamagedInDnode, IsDamagedInLeaf, IsDamagedInSlot};
ghost use Rattle.zst_count.specs.FirstSectors.{IsFirstInDnode, IsFirstInLeaf, IsFirstInSlot};
ghost use Rattle.zst_count.specs.MetBlocks.{AreMetBeside, AreMetInDnode, AreMetInLeaf, AreMetInSlot, AreReadBeside, AreReadInDnode, AreReadInLeaf, AreReadInSlot, MetMore};
ghost use Rattle.zst_count.specs.StandingData.{DataStandInDnode, DataStandInLeaf, DataStandInSlot};

use crate::beside::{object_beside, spill_beside, tree_beside};
use crate::met_blocks::MetBlocks;
use crate::trees::count_below;
use std::mem;
use zst_block::{BlockFault, Io, Node, Ptr, load};
use zst_dnode::{Dnode, Slot};
use zst_outside::Disk;
use zst_reach::load_beside;

// Meets the blocks of an object's tree, and its spill, and reads them.
fn count_object<D: Disk>(
    io: &mut Io<'_, D>,
    met: &mut MetBlocks,
    dnode: &Dnode,
    known: &Option<Dnode>,
) -> Result<(), BlockFault>
    requires fits { DnodeFits dnode.now }
    ensures all { IsHonest io.new → IfSome known.now (AreMetInDnode (disk_of io.old).seen met.old.end met.old.marks) → OnOk result (AreMetInDnode (disk_of io.old).seen met.new.end met.new.marks dnode.now) }
    ensures only { IsHonest io.new → (sector : ℕ) → IsMarked met.new.marks sector → IsMarked met.old.marks sector ⊎ (IsFirstInDnode (IsBlock (disk_of io.old).seen) dnode.now sector × (sector < met.old.end)) }
    ensures more { MetMore met.old met.new }
    ensures read { IsHonest io.new → IfSome known.now (AreReadInDnode (disk_of io.old).seen) → OnOk result (AreReadInDnode (disk_of io.old).seen dnode.now) }
    ensures stands { IsHonest io.new → DataStandInDnode (blocks_of io.old) dnode.now → Delivers (λ done. Unit {0}) result }
    ensures damaged { IsHonest io.new → IfDamaged result (IsDamagedInDnode (IsSeen (disk_of io.old).seen) (disk_of io.old).size dnode.now) }
    ensures looks { Looks (io_of io.old) (io_of io.new) (stop_of result) }
{
    let size = dnode.block_size;
    let tree = tree_beside(known, size);
    count_below(io, met, dnode.levels, dnode.root, Some(size), tree)?;
    let spill = (0, spill_beside(known));
    count_below(io, met, 0, dnode.spill, Some(dnode.spill.length), spill)
}

// Meets the blocks of a slot's object, beside the one in the same place of a leaf that was walked before.
fn count_slot<D: Disk>(
    io: &mut Io<'_, D>,
    met: &mut MetBlocks,
    slot: &Slot,
    beside: &Option<Node>,
    place: usize,
) -> Result<(), BlockFault>
    requires fits { SlotFits slot.now }
    requires place { place < 16 }
    ensures all { (level : ℕ) (known : Ptr) → IsHonest io.new → IsBeside (disk_of io.old).seen 0 level known beside.now → AreMetBeside (disk_of io.old).seen met.old.end met.old.marks level known
        → OnOk result (AreMetInSlot (disk_of io.old).seen met.new.end met.new.marks slot.now) }
    ensures only { IsHonest io.new → (sector : ℕ) → IsMarked met.new.marks sector → IsMarked met.old.marks sector ⊎ (IsFirstInSlot (IsBlock (disk_of io.old).seen) slot.now sector × (sector < met.old.end)) }
    ensures more { MetMore met.old met.new }
    ensures read { (level : ℕ) (known : Ptr) → IsHonest io.new → IsBeside (disk_of io.old).seen 0 level known beside.now → AreReadBeside (disk_of io.old).seen level known
        → OnOk result (AreReadInSlot (disk_of io.old).seen slot.now) }
    ensures stands { IsHonest io.new → DataStandInSlot (blocks_of io.old) slot.now → Delivers (λ done. Unit {0}) result }
    ensures damaged { IsHonest io.new → IfDamaged result (IsDamagedInSlot (IsSeen (disk_of io.old).seen) (disk_of io.old).size slot.now) }
    ensures looks { Looks (io_of io.old) (io_of io.new) (stop_of result) }
{
    match slot {
        Slot::Absent { .. } => Ok(()),
        Slot::There(dnode) => count_object(io, met, dnode, &object_beside(beside, place)),
    }
}

/// Meets the blocks of the objects in the sixteen slots of a leaf, beside the leaf in the same place of a set that was walked before.
/// The leaf's own block is read, and met by the caller.
pub(crate) fn count_leaf<D: Disk>(
    io: &mut Io<'_, D>,
    met: &mut MetBlocks,
    ptr: Ptr,
    known: (u8, Ptr),
) -> Result<(), BlockFault>
    ensures all { IsHonest io.new → AreMetBeside (disk_of io.old).seen met.old.end met.old.marks known.0 known.1 → OnOk result (AreMetInLeaf (disk_of io.old).seen met.new.end met.new.marks ptr) }
    ensures only { IsHonest io.new → (sector : ℕ) → IsMarked met.new.marks sector → IsMarked met.old.marks sector ⊎ (IsFirstInLeaf (IsBlock (disk_of io.old).seen) ptr sector × (sector < met.old.end)) }
    ensures more { MetMore met.old met.new }
    ensures read { IsHonest io.new → AreReadBeside (disk_of io.old).seen known.0 known.1 → OnOk result (AreReadInLeaf (disk_of io.old).seen ptr) }
    ensures stands { IsHonest io.new → DataStandInLeaf (blocks_of io.old) ptr → Delivers (λ done. Unit {0}) result }
    ensures damaged { IsHonest io.new → is_flat ptr ≡ false → IfDamaged result (IsDamagedInLeaf (IsSeen (disk_of io.old).seen) (disk_of io.old).size ptr) }
    ensures looks { Looks (io_of io.old) (io_of io.new) (stop_of result) }
{
    load(io, ptr)?;
    let leaf = mem::replace(&mut io.node, Node::new());
    let beside = load_beside(io, 0, known.0, known.1)?;
    for place in 0..16 {
        let Some(slot) = Slot::get(leaf.as_slice(), 512 * place) else {
            return Err(BlockFault::of_layout(&ptr));
        };
        count_slot(io, met, &slot, &beside, place)?;
    }
    Ok(())
}
