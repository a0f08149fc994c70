//! What stands at a number of a set.
ghost use Rattle.std.specs.Prelude.{◌<◌, ◌^◌, IfOk, IfSome};
ghost use Rattle.zst_block.specs.IoStates.{IsHonest, blocks_of, disk_of, io_of};
ghost use Rattle.zst_block.specs.IoCalls.{stop_of};
ghost use Rattle.zst_dnode.specs.Dnode.{DnodeFits};
ghost use Rattle.zst_dnode.specs.Slot.{SlotFits};
ghost use Rattle.zst_dnode.specs.declared.slot.Slot.TheVariants.{There};
ghost use Rattle.zst_model.specs.states.DatedState.{DatedState};
ghost use Rattle.zst_tree.specs.Damage.{IsSeen};
ghost use Rattle.zst_tree.specs.Indices.{Delivers};
ghost use Rattle.zst_tree.specs.Steps.{LooksAtMost};
ghost use Rattle.zst_objset.specs.Damage.{IfDamaged, IsDamagedSet, SlotStands, StandsIn};
ghost use Rattle.zst_objset.specs.Dnodes.{DnodeIs, SlotIs};
ghost use Rattle.zst_objset.specs.Sets.{SetHolds};
ghost use Rattle.zst_objset.specs.TightSets.{IsTightSlot, SetIsTight};

use crate::leaves::find_slots;
use zst_block::{BlockFault, Io};
use zst_dnode::{Dnode, Slot};
use zst_model::limits::NUMBER_BOUND;
use zst_outside::Disk;
use zst_tree::ObjSet;

/// The slot of a number.
pub fn slot_at<D: Disk>(set: &ObjSet, io: &mut Io<'_, D>, object: u64) -> Result<Slot, BlockFault>
    requires object { (0 < object) × (object < 2 ^ 48) }
    ensures found { (snap : DatedState) → IsHonest io.new → SetHolds (blocks_of io.old) set.now snap
        → Delivers (SlotIs (blocks_of io.new) snap object) result }
    ensures tight { (snap : DatedState) → IsHonest io.new → SetIsTight (blocks_of io.old) set.now snap
        → IfOk result (IsTightSlot snap object) }
    ensures ranges { IfOk result SlotFits }
    ensures stands { IsHonest io.new → IfOk result (SlotStands (IsSeen (disk_of io.old).seen) set.now) }
    ensures damaged { IsHonest io.new → IfDamaged result (IsDamagedSet (IsSeen (disk_of io.old).seen) (disk_of io.old).size set.now) }
    ensures looks { LooksAtMost 8 (io_of io.old) (io_of io.new) (stop_of result) }
{
    let was = find_slots(set, io, object / 16)?;
    let place = (object % 16) as usize;
    match Slot::get(io.node.as_slice(), 512 * place) {
        Some(slot) => Ok(slot),
        None => Err(BlockFault::of_layout(&was)),
    }
}

/// The dnode of the object with this number, where there is one.
pub(crate) fn dnode_at<D: Disk>(
    set: &ObjSet,
    io: &mut Io<'_, D>,
    object: u64,
) -> Result<Option<Dnode>, BlockFault>
    requires object { 0 < object }
    ensures found { (snap : DatedState) → IsHonest io.new → SetHolds (blocks_of io.old) set.now snap
        → Delivers (DnodeIs (blocks_of io.new) snap object) result }
    ensures tight { (snap : DatedState) → IsHonest io.new → SetIsTight (blocks_of io.old) set.now snap
        → IfOk result (λ found. IfSome found (λ dnode. IsTightSlot snap object (There dnode))) }
    ensures ranges { IfOk result (λ found. IfSome found DnodeFits) }
    ensures bound { IfOk result (λ found. IfSome found (λ dnode. object < 2 ^ 48)) }
    ensures stands { IsHonest io.new → IfOk result (λ found. IfSome found (StandsIn (IsSeen (disk_of io.old).seen) set.now)) }
    ensures damaged { IsHonest io.new → IfDamaged result (IsDamagedSet (IsSeen (disk_of io.old).seen) (disk_of io.old).size set.now) }
    ensures looks { LooksAtMost 8 (io_of io.old) (io_of io.new) (stop_of result) }
{
    if object >= NUMBER_BOUND {
        return Ok(None);
    }
    match slot_at(set, io, object)? {
        Slot::Absent { .. } => Ok(None),
        Slot::There(dnode) => Ok(Some(dnode)),
    }
}
