//! The call that frees a range of numbers.
ghost use Rattle.std.specs.Prelude.{◌+◌, ◌*◌, ◌/◌, ◌<◌, ◌≤◌, ◌^◌, IfOk, OnOk};
ghost use Rattle.zst_block.specs.IoStates.{IsHonest, blocks_of, disk_of, io_of, IsSparedBy};
ghost use Rattle.zst_block.specs.IoCalls.{Works, stop_of as block_stop_of};
ghost use Rattle.zst_model.specs.declared.refusals.faults.Quantity.TheVariants as quantities;
ghost use Rattle.zst_model.specs.pools.Soundness.{DatedUpTo};
ghost use Rattle.zst_model.specs.states.DatedState.{DatedState};
ghost use Rattle.zst_model.specs.states.State.{number_bound};
ghost use Rattle.zst_tree.specs.Indices.{Delivers};
ghost use Rattle.zst_tree.specs.Sets.{SetFits};
ghost use Rattle.zst_objset.specs.Answers.{Changes, LimitOnly};
ghost use Rattle.zst_objset.specs.Changes.{objects_freed};
ghost use Rattle.zst_objset.specs.Damage.{AreTreesWithin, IfDamaged, IsDamagedSet};
ghost use Rattle.zst_objset.specs.FreedNumbers.{freed};
ghost use Rattle.zst_objset.specs.Sets.{SetHolds};
ghost use Rattle.zst_objset.specs.TightSets.{SetIsTight};
ghost use Rattle.zst_objset.specs.SetChanges.{ChangesSet, MakesSet, SetHas};

use crate::fault::ObjFault;
use crate::slot_puts::{put_in_leaf, set_over};
use zst_block::{BlockFault, Io};
use zst_dnode::Slot;
use zst_model::Quantity;
use zst_model::limits::NUMBER_BOUND;
use zst_outside::Disk;
use zst_tree::ObjSet;

// Frees the numbers from one on and below another, all of one leaf.
fn free_in_leaf<D: Disk>(
    set: ObjSet,
    io: &mut Io<'_, D>,
    first: u64,
    below: u64,
    number: u64,
) -> Result<ObjSet, BlockFault>
    requires first { 0 < first }
    requires order { first ≤ below }
    requires bound { below ≤ 2 ^ 48 }
    requires leaf { below ≤ 16 * (first / 16) + 16 }
    ensures frees { (state : DatedState) → IsHonest io.new → SetHolds (blocks_of io.old) set state
        → Delivers (λ made. SetHolds (blocks_of io.new) made (freed number first below state)) result }
    ensures tight { (state : DatedState) → IsHonest io.new → SetIsTight (blocks_of io.old) set state → DatedUpTo number state
        → IfOk result (λ made. SetIsTight (blocks_of io.new) made (freed number first below state)) }
    ensures makes { MakesSet (λ dnode. ⊥) 240 (io_of io.old) (io_of io.new) set result }
    ensures levels { SetFits set → IfOk result SetFits }
{
    if first == below {
        return Ok(set);
    }
    put_in_leaf(set, io, first, below, &Slot::Absent { date: number })
}

// Frees all numbers of the leaves from one on and below another. The slot of number 0 stays as it
// began, so the first leaf is never whole. A set of more than 7 levels isn't of the layout.
fn free_leaves<D: Disk>(
    set: ObjSet,
    io: &mut Io<'_, D>,
    first: u64,
    below: u64,
    number: u64,
) -> Result<ObjSet, BlockFault>
    requires first { 0 < first }
    requires order { first ≤ below }
    requires bound { below ≤ 2 ^ 44 }
    ensures frees { (state : DatedState) → IsHonest io.new → SetHolds (blocks_of io.old) set state
        → Delivers (λ made. SetHolds (blocks_of io.new) made (freed number (16 * first) (16 * below) state)) result }
    ensures tight { (state : DatedState) → IsHonest io.new → SetIsTight (blocks_of io.old) set state → DatedUpTo number state
        → IfOk result (λ made. SetIsTight (blocks_of io.new) made (freed number (16 * first) (16 * below) state)) }
    ensures makes { MakesSet (λ dnode. ⊥) 320 (io_of io.old) (io_of io.new) set result }
    ensures levels { SetFits set → IfOk result SetFits }
{
    if first == below {
        return Ok(set);
    }
    if set.tree.levels > 7 {
        return Err(BlockFault::of_layout(&set.tree.root));
    }
    let mut tree = set.tree;
    tree.punch(io, first, below - first, number)?;
    Ok(set_over(tree))
}

// Frees the numbers from one on and below another: in one leaf, or up to the end of the first one's,
// then in whole leaves, and then in the last one's.
fn free_range<D: Disk>(
    set: ObjSet,
    io: &mut Io<'_, D>,
    first: u64,
    below: u64,
    number: u64,
) -> Result<ObjSet, BlockFault>
    requires first { 0 < first }
    requires order { first ≤ below }
    requires bound { below ≤ 2 ^ 48 }
    ensures frees { (state : DatedState) → IsHonest io.new → SetHolds (blocks_of io.old) set state
        → Delivers (λ made. SetHolds (blocks_of io.new) made (freed number first below state)) result }
    ensures tight { (state : DatedState) → IsHonest io.new → SetIsTight (blocks_of io.old) set state → DatedUpTo number state
        → IfOk result (λ made. SetIsTight (blocks_of io.new) made (freed number first below state)) }
    ensures damaged { IsHonest io.new → IfDamaged result (IsDamagedSet (IsSparedBy io.old) (disk_of io.old).size set) }
    ensures trees { IsHonest io.new → IfOk result (AreTreesWithin (IsSparedBy io.old) (disk_of io.old).size set (IsSparedBy io.new)) }
    ensures works { Works 800 16 (io_of io.old) (io_of io.new) (block_stop_of result) }
    ensures levels { SetFits set → IfOk result SetFits }
{
    let whole = first.div_ceil(16);
    let last = below / 16;
    if last < whole {
        return free_in_leaf(set, io, first, below, number);
    }
    let begun = free_in_leaf(set, io, first, 16 * whole, number)?;
    let made = free_leaves(begun, io, whole, last, number)?;
    free_in_leaf(made, io, 16 * last, below, number)
}

/// Makes `count` numbers absent.
#[tactic(auto, unfolding(zst_model::specs::states::State::number_bound))]
pub(crate) fn free_objects<D: Disk>(
    set: &mut ObjSet,
    io: &mut Io<'_, D>,
    first: u64,
    count: u64,
    number: u64,
) -> Result<(), ObjFault>
    requires first { 0 < first }
    ensures changes { ChangesSet SetHas (objects_freed number first count) (LimitOnly quantities.Object number_bound (first + count))
        (IsDamagedSet (IsSparedBy io.old) (disk_of io.old).size set.old) 1280 16 (io_of io.old) (io_of io.new) set.old set.new result }
    ensures tight { (state : DatedState) → IsHonest io.new → SetIsTight (blocks_of io.old) set.old state → DatedUpTo number state
        → Changes (SetIsTight (blocks_of io.new) set.new) (objects_freed number first count state) result }
    ensures trees { IsHonest io.new → OnOk result (AreTreesWithin (IsSparedBy io.old) (disk_of io.old).size set.old (IsSparedBy io.new) set.new) }
    ensures levels { SetFits set.old → SetFits set.new }
{
    if first.saturating_add(count) > NUMBER_BOUND {
        return Err(ObjFault::Limit {
            which: Quantity::Object,
            number: NUMBER_BOUND,
        });
    }
    match free_range(*set, io, first, first + count, number) {
        Ok(made) => {
            *set = made;
            Ok(())
        }
        Err(fault) => Err(ObjFault::Block(fault)),
    }
}
