//! The calls that read a set.
ghost use Rattle.std.specs.Prelude.{◌≡◌, ◌+◌, ◌<◌, ◌^◌, false, IfErr, IfOk, IfSome, OnOk, List, ℕ, Some, length};
ghost use Rattle.zst_block.specs.Ptr.{is_flat};
ghost use Rattle.zst_block.specs.IoStates.{IsHonest, blocks_of, disk_of, io_of};
ghost use Rattle.zst_dnode.specs.Dnode.{DnodeFits};
ghost use Rattle.zst_dnode.specs.Slot.{SlotFits};
ghost use Rattle.zst_dnode.specs.declared.slot.Slot.TheVariants.{There};
ghost use Rattle.zst_model.specs.states.DatedState.{DatedState};
ghost use Rattle.zst_model.specs.declared.refusals.faults.Quantity.TheVariants as quantities;
ghost use Rattle.zst_model.specs.states.State.{Block, BlockFits, Object, index_bound};
ghost use Rattle.zst_tree.specs.Damage.{IsSeen};
ghost use Rattle.zst_tree.specs.Steps.{LooksAtMost};
ghost use Rattle.zst_objset.specs.Answers.{FindsObject, FindsSlot, FindsThere, IsOfBlock, LimitOnly, NotLimit, ReadsBlock, ReadsData, stop_of, NotRedacted};
ghost use Rattle.zst_objset.specs.Changes.{block_found, found_at};
ghost use Rattle.zst_objset.specs.Damage.{IfSetDamaged, IsDamagedBlock, IsDamagedData, IsDamagedSet, StandsIn};
ghost use Rattle.zst_objset.specs.Dnodes.{BlockIs};
ghost use Rattle.zst_objset.specs.Sets.{SetHolds};
ghost use Rattle.zst_objset.specs.TightSets.{IsTightSlot, SetIsTight};

use crate::fault::ObjFault;
use crate::slot_reads::{dnode_at, slot_at};
use crate::trees::{leaf_at, tree_of};
use zst_block::{BlockFault, Io, Ptr, read};
use zst_dnode::{Dnode, Slot};
use zst_model::limits::INDEX_BOUND;
use zst_model::{ApplyFault, Cell, Quantity};
use zst_outside::Disk;
use zst_tree::ObjSet;

/// What stands at a number: of an absent one its date.
pub(crate) fn slot<D: Disk>(set: &ObjSet, io: &mut Io<'_, D>, object: u64) -> Result<Slot, ObjFault>
    requires object { (0 < object) × (object < 2 ^ 48) }
    ensures found { (snap : DatedState) → IsHonest io.new → SetHolds (blocks_of io.old) set.now snap
        → FindsSlot (blocks_of io.new) snap object result }
    ensures ranges { IfOk result SlotFits }
    ensures known { IfErr result IsOfBlock }
    ensures damaged { IsHonest io.new → IfSetDamaged result (IsDamagedSet (IsSeen (disk_of io.old).seen) (disk_of io.old).size set.now) }
    ensures looks { LooksAtMost 8 (io_of io.old) (io_of io.new) (stop_of result) }
{
    match slot_at(set, io, object) {
        Ok(slot) => Ok(slot),
        Err(fault) => Err(ObjFault::Block(fault)),
    }
}

/// The dnode of an object.
pub(crate) fn attr<D: Disk>(
    set: &ObjSet,
    io: &mut Io<'_, D>,
    object: u64,
) -> Result<Option<Dnode>, ObjFault>
    requires object { 0 < object }
    ensures found { (snap : DatedState) → IsHonest io.new → SetHolds (blocks_of io.old) set.now snap
        → FindsObject (blocks_of io.new) snap object result }
    ensures ranges { IfOk result (λ found. IfSome found DnodeFits) }
    ensures known { IfErr result IsOfBlock }
    ensures damaged { IsHonest io.new → IfSetDamaged result (IsDamagedSet (IsSeen (disk_of io.old).seen) (disk_of io.old).size set.now) }
    ensures looks { LooksAtMost 8 (io_of io.old) (io_of io.new) (stop_of result) }
{
    match dnode_at(set, io, object) {
        Ok(found) => Ok(found),
        Err(fault) => Err(ObjFault::Block(fault)),
    }
}

/// The dnode of an object that has to be there.
pub(crate) fn object_there<D: Disk>(
    set: &ObjSet,
    io: &mut Io<'_, D>,
    object: u64,
) -> Result<Dnode, ObjFault>
    requires object { 0 < object }
    ensures found { (snap : DatedState) → IsHonest io.new → SetHolds (blocks_of io.old) set.now snap
        → FindsThere (blocks_of io.new) snap object result }
    ensures tight { (snap : DatedState) → IsHonest io.new → SetIsTight (blocks_of io.old) set.now snap
        → IfOk result (λ dnode. IsTightSlot snap object (There dnode)) }
    ensures ranges { IfOk result DnodeFits }
    ensures limits { IfErr result NotLimit }
    ensures unredacted { IfErr result NotRedacted }
    ensures bound { OnOk result (object < 2 ^ 48) }
    ensures stands { IsHonest io.new → IfOk result (StandsIn (IsSeen (disk_of io.old).seen) set.now) }
    ensures damaged { IsHonest io.new → IfSetDamaged result (IsDamagedSet (IsSeen (disk_of io.old).seen) (disk_of io.old).size set.now) }
    ensures looks { LooksAtMost 8 (io_of io.old) (io_of io.new) (stop_of result) }
{
    match dnode_at(set, io, object) {
        Ok(Some(dnode)) => Ok(dnode),
        Ok(None) => Err(ObjFault::CannotApply(ApplyFault::NoObject)),
        Err(fault) => Err(ObjFault::Block(fault)),
    }
}

// Reads the block that the pointer of an index stands for, which is as long as the buffer.
fn read_leaf<D: Disk>(
    io: &mut Io<'_, D>,
    ptr: Ptr,
    object: u64,
    index: u64,
    into: &mut [u8],
) -> Result<Cell, ObjFault>
    requires index { index < 2 ^ 43 }
    ensures read { (block : Block) → IsHonest io.new → BlockIs (blocks_of io.old) ptr block → BlockFits (length into.old) block
        → ReadsBlock (block_found object index block) into.new result }
    ensures limits { IfErr result NotLimit }
    ensures damaged { IsHonest io.new → IfSetDamaged result (IsDamagedData (IsSeen (disk_of io.old).seen) (disk_of io.old).size (length into.old) ptr) }
    ensures looks { LooksAtMost 1 (io_of io.old) (io_of io.new) (stop_of result) }
{
    match ptr.kind {
        0 => {
            into.fill(0);
            Ok(Cell::Hole)
        }
        1 => read_data(io, ptr, into),
        2 => Err(ObjFault::Redacted {
            object,
            block: index,
        }),
        _ => Err(ObjFault::Block(BlockFault::of_layout(&ptr))),
    }
}

// Reads a block of data as long as the buffer.
fn read_data<D: Disk>(io: &mut Io<'_, D>, ptr: Ptr, into: &mut [u8]) -> Result<Cell, ObjFault>
    ensures read { (bytes : List ℕ) → IsHonest io.new → blocks_of io.old ptr bytes → length bytes ≡ length into.old → ReadsData bytes into.new result }
    ensures limits { IfErr result NotLimit }
    ensures damaged { is_flat ptr ≡ false → IsHonest io.new → IfSetDamaged result (IsDamagedData (IsSeen (disk_of io.old).seen) (disk_of io.old).size (length into.old) ptr) }
    ensures looks { LooksAtMost 1 (io_of io.old) (io_of io.new) (stop_of result) }
{
    if ptr.length as usize != into.len() {
        return Err(ObjFault::Block(BlockFault::of_layout(&ptr)));
    }
    match read(io, ptr, into) {
        Ok(()) => Ok(Cell::Data),
        Err(fault) => Err(ObjFault::Block(fault)),
    }
}

/// Reads one index of an object, whose blocks are as long as the buffer.
#[tactic(auto, unfolding(zst_model::specs::states::State::index_bound))]
pub(crate) fn read_block<D: Disk>(
    set: &ObjSet,
    io: &mut Io<'_, D>,
    object: u64,
    index: u64,
    into: &mut [u8],
) -> Result<Cell, ObjFault>
    requires object { 0 < object }
    ensures read { (snap : DatedState) → IsHonest io.new → SetHolds (blocks_of io.old) set.now snap
        → ((there : Object) → snap.state object ≡ Some there → length into.old ≡ there.attr.block_size) → ReadsBlock (found_at object index snap) into.new result }
    ensures limits { IfErr result (LimitOnly quantities.Block index_bound (index + 1)) }
    ensures damaged { IsHonest io.new → IfSetDamaged result (IsDamagedBlock (IsSeen (disk_of io.old).seen) (disk_of io.old).size (length into.old) set.now) }
    ensures looks { LooksAtMost 16 (io_of io.old) (io_of io.new) (stop_of result) }
{
    let dnode = match object_there(set, io, object) {
        Ok(dnode) => dnode,
        Err(fault) => return Err(fault),
    };
    if index >= INDEX_BOUND {
        return Err(ObjFault::Limit {
            which: Quantity::Block,
            number: INDEX_BOUND,
        });
    }
    match leaf_at(&tree_of(&dnode), io, index) {
        Ok(ptr) => read_leaf(io, ptr, object, index, into),
        Err(fault) => Err(ObjFault::Block(fault)),
    }
}
