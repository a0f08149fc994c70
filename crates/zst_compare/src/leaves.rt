//! Two leaves of one index, compared slot by slot.
ghost use Rattle.std.specs.Prelude.{◌≡◌, ◌+◌, ◌*◌, ◌^◌, ◌<◌, ◌≤◌, ℕ, IfErr, IfOk};
ghost use Rattle.zst_fletcher.specs.WeightSum.{parts_of};
ghost use Rattle.zst_dnode.specs.declared.slot.Slot.{Slot};
ghost use Rattle.zst_block.specs.IoStates.{IsHonest, blocks_of, disk_of, io_of};
ghost use Rattle.zst_block.specs.IoCalls.{Looks, stop_of};
ghost use Rattle.zst_model.specs.states.State.{IsState};
ghost use Rattle.zst_model.specs.states.DatedState.{DatedState};
ghost use Rattle.zst_objset.specs.Damage.{HasSlot, IfDamaged, TellsLacking};
ghost use Rattle.zst_objset.specs.Sets.{LeafIs, Spells};
ghost use Rattle.zst_tree.specs.Damage.{IsSeen};
ghost use Rattle.zst_tree.specs.Indices.{Delivers};
ghost use Rattle.zst_compare.specs.Agreement.{ComparesLeaves};
ghost use Rattle.zst_compare.specs.Damage.{IsDamagedInLeaf, OfEither};

use crate::difference::Difference;
use crate::slots::compare_slots;
use std::mem;
use zst_block::{BlockFault, Io, Node, Ptr};
use zst_dnode::Slot;
use zst_objset::load_slots;
use zst_outside::Disk;

// The slot at a place of a leaf's block.
fn slot_in(node: &Node, place: usize, leaf: &Ptr) -> Result<Slot, BlockFault>
    requires place { place < 16 }
    ensures there { IfOk result (HasSlot node.now place) }
    ensures stands { (slots : ℕ → Slot) → Spells node.now slots → Delivers (λ slot. slot ≡ slots place) result }
    ensures damaged { IfDamaged result (TellsLacking node.now leaf.now) }
    ensures told { IfErr result (λ fault. fault ≡ BlockFault.Damaged leaf.now.sector (parts_of leaf.now.sum) (parts_of leaf.now.sum)) }
{
    match Slot::get(node.as_slice(), 512 * place) {
        Some(slot) => Ok(slot),
        None => Err(BlockFault::of_layout(leaf)),
    }
}

// The first place of the leaf of an index at which an object number stands.
fn first_place(leaf: u64) -> usize
    ensures most { result ≤ 1 }
    ensures first { leaf ≡ 0 → 0 < result }
    ensures others { 0 < result → leaf ≡ 0 }
{
    if leaf == 0 { 1 } else { 0 }
}

/// The first place in the sixteen numbers of an index that the later leaf dates at or below a number,
/// and that has another content or another date in the earlier one.
pub(crate) fn compare_leaves<D: Disk>(
    io: &mut Io<'_, D>,
    leaf: u64,
    later: Ptr,
    earlier: Ptr,
    number: u64,
) -> Result<Option<Difference>, BlockFault>
    requires leaf { leaf < 2 ^ 44 }
    ensures compared { (was now : DatedState) → IsHonest io.new → IsState was.state → IsState now.state → LeafIs (blocks_of io.old) now leaf later → LeafIs (blocks_of io.old) was leaf earlier
        → Delivers (ComparesLeaves number was now (16 * leaf) (16 * leaf + 16)) result }
    ensures damaged { IsHonest io.new → IfDamaged result (OfEither
        (IsDamagedInLeaf (IsSeen (disk_of io.old).seen) (disk_of io.old).size later)
        (IsDamagedInLeaf (IsSeen (disk_of io.old).seen) (disk_of io.old).size earlier)) }
    ensures looks { Looks (io_of io.old) (io_of io.new) (stop_of result) }
{
    load_slots(io, later, leaf)?;
    let now = mem::replace(&mut io.node, Node::new());
    load_slots(io, earlier, leaf)?;
    let was = mem::replace(&mut io.node, Node::new());
    for place in first_place(leaf)..16 {
        let slot = slot_in(&now, place, &later)?;
        let other = slot_in(&was, place, &earlier)?;
        if let Some(block) = compare_slots(io, &slot, &other, number)? {
            let object = 16 * leaf + place as u64;
            return Ok(Some(Difference { object, block }));
        }
    }
    Ok(None)
}
