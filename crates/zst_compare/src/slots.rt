//! Two slots of one number, compared.
ghost use Rattle.std.specs.Prelude.{◌≡◌, ◌<◌, ◌^◌, ◌↔◌, ◌≤◌, ℕ, List, Option, IsTrue, take};
ghost use Rattle.zst_space.specs.FreeSectors.{FreeSectors};
ghost use Rattle.zst_block.specs.Blocks.{Has};
ghost use Rattle.zst_block.specs.IoStates.{IsHonest, blocks_of, disk_of, io_of};
ghost use Rattle.zst_block.specs.IoCalls.{Looks, stop_of};
ghost use Rattle.zst_dnode.specs.Dnode.{DnodeFits};
ghost use Rattle.zst_dnode.specs.Slot.{SlotFits};
ghost use Rattle.zst_dnode.specs.declared.slot.Slot.TheVariants as slots;
ghost use Rattle.zst_model.specs.states.State.{IsState, attr_at};
ghost use Rattle.zst_model.specs.states.DatedState.{DatedState};
ghost use Rattle.zst_objset.specs.Damage.{IfDamaged};
ghost use Rattle.zst_objset.specs.Dnodes.{IsAbsent, IsThere, SlotIs};
ghost use Rattle.zst_tree.specs.Damage.{IsSeen};
ghost use Rattle.zst_tree.specs.Indices.{Delivers};
ghost use Rattle.zst_compare.specs.Agreement.{Compares, NumberKept, NumberOther};
ghost use Rattle.zst_compare.specs.Damage.{IsDamagedInSlot, IsDamagedSpill, OfEither};
ghost use Rattle.zst_compare.specs.Contents.{indices_at, indices_in};

use crate::blocks::same_spill;
use crate::trees::{Indices, compare_indices};
use zst_block::{BlockFault, Io, Ptr};
use zst_dnode::{Dnode, Slot};
use zst_model::limits::INDEX_BOUND;
use zst_objset::tree_of;
use zst_outside::Disk;
use zst_tree::Tree;

// The indices of an object.
fn indices_of(dnode: &Dnode) -> Indices
    ensures { result ≡ indices_in dnode.now }
{
    Indices {
        tree: tree_of(dnode),
        size: dnode.block_size,
    }
}

// What stands at the indices of a slot's number: of an absent one holes of its date.
fn slot_indices(slot: &Slot) -> Indices
    ensures { result ≡ indices_at slot.now }
{
    match slot {
        Slot::Absent { date } => Indices {
            tree: Tree {
                levels: 0,
                past: *date,
                root: Ptr::hole(*date),
            },
            size: 0,
        },
        Slot::There(dnode) => indices_of(dnode),
    }
}

// Whether two dnodes have the same types, block size and bonus.
fn same_head(later: &Dnode, earlier: &Dnode) -> bool
    requires later { later.now.bonus_len ≤ 320 }
    requires earlier { earlier.now.bonus_len ≤ 320 }
    ensures { IsTrue result ↔ ((earlier.now.type_ ≡ later.now.type_) × (earlier.now.bonus_type ≡ later.now.bonus_type) × (earlier.now.block_size ≡ later.now.block_size)
        × (take earlier.now.bonus_len earlier.now.bonus ≡ take later.now.bonus_len later.now.bonus)) }
{
    earlier.type_ == later.type_
        && earlier.bonus_type == later.bonus_type
        && earlier.block_size == later.block_size
        && earlier.bonus[..earlier.bonus_len as usize] == later.bonus[..later.bonus_len as usize]
}

// Whether two dnodes have the same attributes with their spill.
fn same_attributes<D: Disk>(
    io: &mut Io<'_, D>,
    later: &Dnode,
    earlier: &Dnode,
) -> Result<bool, BlockFault>
    requires later { DnodeFits later.now }
    requires earlier { DnodeFits earlier.now }
    ensures same { (now was : DatedState) (k : ℕ) → IsHonest io.new → IsThere (blocks_of io.old) now k later.now → IsThere (blocks_of io.old) was k earlier.now
        → Delivers (λ same. IsTrue same ↔ (attr_at (was.state k) ≡ attr_at (now.state k))) result }
    ensures damaged { IsHonest io.new → IfDamaged result (OfEither
        (IsDamagedSpill (IsSeen (disk_of io.old).seen) (disk_of io.old).size later.now.spill)
        (IsDamagedSpill (IsSeen (disk_of io.old).seen) (disk_of io.old).size earlier.now.spill)) }
    ensures looks { Looks (io_of io.old) (io_of io.new) (stop_of result) }
{
    if !same_head(later, earlier) {
        return Ok(false);
    }
    same_spill(io, &later.spill, &earlier.spill)
}

// Compares an object with what stands in the earlier slot: whether its number is kept.
fn number_kept<D: Disk>(
    io: &mut Io<'_, D>,
    later: &Dnode,
    earlier: &Slot,
    number: u64,
) -> Result<bool, BlockFault>
    requires later { DnodeFits later.now }
    requires earlier { SlotFits earlier.now }
    ensures kept { (was now : DatedState) (k : ℕ) → IsHonest io.new → IsThere (blocks_of io.old) now k later.now → SlotIs (blocks_of io.old) was k earlier.now
        → Delivers (λ kept. (IsTrue kept → NumberKept number was now k) × ((IsTrue kept → ⊥) → NumberOther number was now k)) result }
    ensures damaged { IsHonest io.new → IfDamaged result (OfEither
        (IsDamagedInSlot (IsSeen (disk_of io.old).seen) (disk_of io.old).size (slots.There later.now))
        (IsDamagedInSlot (IsSeen (disk_of io.old).seen) (disk_of io.old).size earlier.now)) }
    ensures looks { Looks (io_of io.old) (io_of io.new) (stop_of result) }
{
    if later.date > number {
        return Ok(true);
    }
    match earlier {
        Slot::Absent { .. } => Ok(false),
        Slot::There(was) => {
            if was.date != later.date {
                return Ok(false);
            }
            same_attributes(io, later, was)
        }
    }
}

// Compares an object with what stands in the earlier slot: its number, and then its indices.
fn compare_object<D: Disk>(
    io: &mut Io<'_, D>,
    later: &Dnode,
    earlier: &Slot,
    number: u64,
) -> Result<Option<u64>, BlockFault>
    requires later { DnodeFits later.now }
    requires earlier { SlotFits earlier.now }
    ensures compared { (was now : DatedState) (k : ℕ) → IsHonest io.new → IsState was.state → IsState now.state → IsThere (blocks_of io.old) now k later.now → SlotIs (blocks_of io.old) was k earlier.now
        → Delivers (Compares number was now k) result }
    ensures damaged { IsHonest io.new → IfDamaged result (OfEither
        (IsDamagedInSlot (IsSeen (disk_of io.old).seen) (disk_of io.old).size (slots.There later.now))
        (IsDamagedInSlot (IsSeen (disk_of io.old).seen) (disk_of io.old).size earlier.now)) }
    ensures looks { Looks (io_of io.old) (io_of io.new) (stop_of result) }
{
    if !number_kept(io, later, earlier, number)? {
        return Ok(Some(INDEX_BOUND));
    }
    compare_indices(io, &indices_of(later), &slot_indices(earlier), number)
}

// Compares an absent number of a date with what stands in the earlier slot.
#[tactic(auto, unfolding(zst_model::specs::states::State::index_bound))]
fn compare_absent(date: u64, earlier: &Slot, number: u64) -> Option<u64>
    ensures compared { (seen : List ℕ) (space : FreeSectors) (was now : DatedState) (k : ℕ) → IsAbsent now k date → SlotIs (Has seen space) was k earlier.now → Compares number was now k result }
{
    if date > number {
        return None;
    }
    match earlier {
        Slot::Absent { date: was } => {
            if *was == date {
                return None;
            }
            Some(INDEX_BOUND)
        }
        Slot::There(_) => Some(INDEX_BOUND),
    }
}

/// The first block of a number that its later slot dates at or below a number, and that has another
/// content or another date in the earlier one: 2^43 for the number itself, which goes first.
pub(crate) fn compare_slots<D: Disk>(
    io: &mut Io<'_, D>,
    later: &Slot,
    earlier: &Slot,
    number: u64,
) -> Result<Option<u64>, BlockFault>
    requires later { SlotFits later.now }
    requires earlier { SlotFits earlier.now }
    ensures compared { (was now : DatedState) (k : ℕ) → IsHonest io.new → IsState was.state → IsState now.state → SlotIs (blocks_of io.old) now k later.now → SlotIs (blocks_of io.old) was k earlier.now
        → Delivers (Compares number was now k) result }
    ensures damaged { IsHonest io.new → IfDamaged result (OfEither
        (IsDamagedInSlot (IsSeen (disk_of io.old).seen) (disk_of io.old).size later.now)
        (IsDamagedInSlot (IsSeen (disk_of io.old).seen) (disk_of io.old).size earlier.now)) }
    ensures looks { Looks (io_of io.old) (io_of io.new) (stop_of result) }
{
    match later {
        Slot::Absent { date } => Ok(compare_absent(*date, earlier, number)),
        Slot::There(dnode) => compare_object(io, dnode, earlier, number),
    }
}
