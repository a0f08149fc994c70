//! The calls that change a range of an object's indices.
ghost use Rattle.std.specs.Prelude.{◌≡◌, ◌⊎◌, ◌+◌, ◌<◌, ◌≤◌, ◌^◌, ℕ, true, max, IfErr, IfOk, Ok, OnOk};
ghost use Rattle.zst_block.specs.IoStates.{IsHonest, blocks_of, disk_of, io_of, IsSparedBy};
ghost use Rattle.zst_block.specs.IoCalls.{Looks, Works, stop_of as block_stop};
ghost use Rattle.zst_dnode.specs.Dnode.{DnodeFits};
ghost use Rattle.zst_dnode.specs.declared.slot.Slot.TheVariants.{There};
ghost use Rattle.zst_model.specs.declared.refusals.faults.Quantity.TheVariants as quantities;
ghost use Rattle.zst_model.specs.declared.states.item.Item.TheVariants.{At};
ghost use Rattle.zst_model.specs.pools.Soundness.{DatedUpTo};
ghost use Rattle.zst_model.specs.states.AppliedItems.{within};
ghost use Rattle.zst_model.specs.states.DatedState.{DatedState};
ghost use Rattle.zst_model.specs.states.State.{Object, Hole, Redacted, IsState, end_of, index_bound, is_number};
ghost use Rattle.zst_tree.specs.Damage.{IsSeen, IsSummedBelow, NamesDamage, NamesNode, SumsUp};
ghost use Rattle.zst_tree.specs.Indices.{Delivers, Map};
ghost use Rattle.zst_tree.specs.Sets.{SetFits};
ghost use Rattle.zst_objset.specs.Answers.{LimitOnly, NotRedacted};
ghost use Rattle.zst_objset.specs.Changes.{changed, indices_changed};
ghost use Rattle.zst_objset.specs.Damage.{AreTreesWithin, IsDamagedObject};
ghost use Rattle.zst_objset.specs.Dnodes.{IsThere, ObjectIs};
ghost use Rattle.zst_objset.specs.SlotPuts.{MakesDnode};
ghost use Rattle.zst_objset.specs.Ranges.{IsRightNode, change_of, free_of, range_check, redact_of, redaction_check, with_range};
ghost use Rattle.zst_objset.specs.TightSets.{IsTightDnode, IsTightSlot};
ghost use Rattle.zst_objset.specs.declared.fault.ObjFault.TheVariants as faults;
ghost use Rattle.zst_objset.specs.SetChanges.{ChangesTightSet, SetHas, SetHasTight};

use crate::answers::object_there;
use crate::changes::{put_dnode, with_tree};
use crate::fault::ObjFault;
use crate::trees::tree_of;
use zst_block::{BlockFault, Io};
use zst_dnode::Dnode;
use zst_model::limits::INDEX_BOUND;
use zst_model::{ApplyFault, Quantity, is_user_data};
use zst_outside::Disk;
use zst_tree::ObjSet;

/// What becomes of a range of an object's indices.
#[derive(Clone, Copy, Debug)]
pub(crate) enum RangeChange {
    /// Holes.
    Punch,
    /// Redacted blocks.
    Redact,
}

// E23 where a range ends past the last index. The sum may be past 64 bits.
#[tactic(auto, unfolding(zst_model::specs::states::State::index_bound))]
fn check_range(first: u64, count: u64) -> Result<(), ObjFault>
    ensures inside { OnOk result (first + count ≤ index_bound) }
    ensures past { IfErr result (λ fault. (fault ≡ faults.Limit quantities.Block index_bound) × (index_bound < first + count)) }
    ensures unredacted { IfErr result NotRedacted }
{
    if first.saturating_add(count) > INDEX_BOUND {
        return Err(ObjFault::Limit {
            which: Quantity::Block,
            number: INDEX_BOUND,
        });
    }
    Ok(())
}

// Whether a range of an object's indices may be redacted.
fn check_redaction(dnode: &Dnode, first: u64, count: u64) -> Result<(), ApplyFault>
    ensures { result ≡ redaction_check dnode.now first count }
{
    if !is_user_data(dnode.type_) {
        return Err(ApplyFault::NotUserData);
    }
    if !dnode.block_size.is_power_of_two() && count > 0 && first.saturating_add(count) > 1 {
        return Err(ApplyFault::OddBlock);
    }
    Ok(())
}

// Whether a range of an object's indices may be changed so.
fn check_change(
    dnode: &Dnode,
    change: RangeChange,
    first: u64,
    count: u64,
) -> Result<(), ApplyFault>
    ensures { result ≡ range_check change dnode.now first count }
{
    match change {
        RangeChange::Punch => Ok(()),
        RangeChange::Redact => check_redaction(dnode, first, count),
    }
}

// How many indices of a tree are to be punched. Where the object's end, all that the tree has past
// them is punched too, so that it needs no nodes for them. An empty range dates nothing.
#[tactic(auto, unfolding(zst_model::specs::states::State::index_bound))]
fn count_in_tree(first: u64, count: u64) -> u64
    requires { first + count ≤ index_bound }
    ensures same { (i : ℕ) → i < index_bound → within first result i ≡ within first count i }
    ensures none { count ≡ 0 → result ≡ 0 }
    ensures range { first + result ≤ 2 ^ 44 }
{
    if count > 0 && first + count == INDEX_BOUND {
        zst_tree::TREE_INDEX_BOUND - first
    } else {
        count
    }
}

// The end of an object with holes in a range.
#[tactic(auto, unfolding(zst_model::specs::states::State::index_bound))]
fn end_punched<D: Disk>(
    io: &mut Io<'_, D>,
    dnode: &Dnode,
    first: u64,
    count: u64,
) -> Result<u64, BlockFault>
    requires levels { dnode.now.levels ≤ 7 }
    requires range { first + count ≤ index_bound }
    ensures end { (object : Object) (date : ℕ) (dates : ℕ → ℕ) (map : Map) → IsHonest io.new → ObjectIs (blocks_of io.old) dnode.now object date dates map
        → Delivers (λ end. end ≡ end_of (with_range first count Hole object)) result }
    ensures range { IfOk result (λ end. end ≤ dnode.now.end) }
    ensures damaged { IsHonest io.new → NamesDamage (IsSeen (disk_of io.old).seen) (disk_of io.old).size (SumsUp (IsSeen (disk_of io.old).seen)) dnode.now.levels dnode.now.root result }
    ensures looks { Looks (io_of io.old) (io_of io.new) (block_stop result) }
{
    if dnode.end <= first || first + count < dnode.end {
        return Ok(dnode.end);
    }
    match tree_of(dnode).last_below(io, first)? {
        Some(last) => Ok(last + 1),
        None => Ok(0),
    }
}

// The end of an object with redacted blocks in a range.
#[tactic(auto, unfolding(zst_model::specs::states::State::index_bound))]
fn end_redacted(end: u64, first: u64, count: u64) -> u64
    requires { first + count ≤ index_bound }
    ensures range { (result ≡ end) ⊎ ((0 < count) × (result ≡ max end (first + count))) }
    ensures end { (object : Object) → end ≡ end_of object → result ≡ end_of (with_range first count Redacted object) }
{
    if count == 0 {
        end
    } else {
        end.max(first + count)
    }
}

// The dnode of an object with holes in a range.
fn punched<D: Disk>(
    io: &mut Io<'_, D>,
    dnode: Dnode,
    first: u64,
    count: u64,
    number: u64,
) -> Result<Dnode, BlockFault>
    requires dnode { DnodeFits dnode }
    requires range { first + count ≤ index_bound }
    ensures made { (k : ℕ) (state : DatedState) → IsHonest io.new → is_number k ≡ true → IsState state.state → IsThere (blocks_of io.old) state k dnode
        → Delivers (MakesDnode (blocks_of io.new) number k (free_of first count (state.state k)) state) result }
    ensures tight { (k : ℕ) (state : DatedState) → IsHonest io.new → is_number k ≡ true → IsState state.state → IsThere (blocks_of io.old) state k dnode
        → DatedUpTo number state → IsTightSlot state k (There dnode) → IfOk result (IsTightDnode number k (free_of first count (state.state k)) state) }
    ensures fits { IfOk result DnodeFits }
    ensures damaged { IsHonest io.new → NamesDamage (IsSparedBy io.old) (disk_of io.old).size (SumsUp (IsSparedBy io.old)) dnode.levels dnode.root result }
    ensures trees { IsHonest io.new → IfOk result (λ made. IsSummedBelow (IsSparedBy io.old) (disk_of io.old).size dnode.levels dnode.root (IsSparedBy io.new) made.levels made.root) }
    ensures works { Works 320 16 (io_of io.old) (io_of io.new) (block_stop result) }
{
    let end = end_punched(io, &dnode, first, count)?;
    let mut tree = tree_of(&dnode);
    tree.punch(io, first, count_in_tree(first, count), number)?;
    Ok(with_tree(dnode, tree, end))
}

// The dnode of an object with redacted blocks in a range.
#[tactic(auto, unfolding(zst_model::specs::states::State::index_bound))]
fn redacted<D: Disk>(
    io: &mut Io<'_, D>,
    dnode: Dnode,
    first: u64,
    count: u64,
    number: u64,
) -> Result<Dnode, BlockFault>
    requires dnode { DnodeFits dnode }
    requires checked { redaction_check dnode first count ≡ Ok tt }
    requires range { first + count ≤ index_bound }
    ensures made { (k : ℕ) (state : DatedState) → IsHonest io.new → is_number k ≡ true → IsState state.state → IsThere (blocks_of io.old) state k dnode
        → Delivers (MakesDnode (blocks_of io.new) number k (redact_of first count (state.state k)) state) result }
    ensures tight { (k : ℕ) (state : DatedState) → IsHonest io.new → is_number k ≡ true → IsState state.state → IsThere (blocks_of io.old) state k dnode
        → DatedUpTo number state → IsTightSlot state k (There dnode) → IfOk result (IsTightDnode number k (redact_of first count (state.state k)) state) }
    ensures fits { IfOk result DnodeFits }
    ensures damaged { IsHonest io.new → NamesDamage (IsSparedBy io.old) (disk_of io.old).size NamesNode dnode.levels dnode.root result }
    ensures trees { IsHonest io.new → IfOk result (λ made. IsSummedBelow (IsSparedBy io.old) (disk_of io.old).size dnode.levels dnode.root (IsSparedBy io.new) made.levels made.root) }
    ensures works { Works 320 16 (io_of io.old) (io_of io.new) (block_stop result) }
{
    let mut tree = tree_of(&dnode);
    tree.redact(io, first, count, number)?;
    Ok(with_tree(dnode, tree, end_redacted(dnode.end, first, count)))
}

// The dnode of an object after a change of a range.
fn range_changed<D: Disk>(
    io: &mut Io<'_, D>,
    dnode: Dnode,
    change: RangeChange,
    first: u64,
    count: u64,
    number: u64,
) -> Result<Dnode, BlockFault>
    requires dnode { DnodeFits dnode }
    requires checked { range_check change dnode first count ≡ Ok tt }
    requires range { first + count ≤ index_bound }
    ensures made { (k : ℕ) (state : DatedState) → IsHonest io.new → is_number k ≡ true → IsState state.state → IsThere (blocks_of io.old) state k dnode
        → Delivers (MakesDnode (blocks_of io.new) number k (change_of change first count (state.state k)) state) result }
    ensures tight { (k : ℕ) (state : DatedState) → IsHonest io.new → is_number k ≡ true → IsState state.state → IsThere (blocks_of io.old) state k dnode
        → DatedUpTo number state → IsTightSlot state k (There dnode) → IfOk result (IsTightDnode number k (change_of change first count (state.state k)) state) }
    ensures fits { IfOk result DnodeFits }
    ensures damaged { IsHonest io.new → NamesDamage (IsSparedBy io.old) (disk_of io.old).size (IsRightNode change (IsSparedBy io.old)) dnode.levels dnode.root result }
    ensures trees { IsHonest io.new → IfOk result (λ made. IsSummedBelow (IsSparedBy io.old) (disk_of io.old).size dnode.levels dnode.root (IsSparedBy io.new) made.levels made.root) }
    ensures works { Works 320 16 (io_of io.old) (io_of io.new) (block_stop result) }
{
    match change {
        RangeChange::Punch => punched(io, dnode, first, count, number),
        RangeChange::Redact => redacted(io, dnode, first, count, number),
    }
}

/// Makes holes of `count` indices, or redacts them.
pub(crate) fn change_range<D: Disk>(
    set: &mut ObjSet,
    io: &mut Io<'_, D>,
    object: u64,
    change: RangeChange,
    first: u64,
    count: u64,
    number: u64,
) -> Result<(), ObjFault>
    requires object { 0 < object }
    ensures changes { ChangesTightSet SetHas SetHasTight SetFits number (λ state. indices_changed (first + count) (changed number (At object (change_of change first count (state.state object))) state)) (LimitOnly quantities.Block index_bound (first + count))
        (IsDamagedObject (IsSparedBy io.old) (disk_of io.old).size (IsRightNode change (IsSparedBy io.old)) set.old) 1280 16 (io_of io.old) (io_of io.new) set.old set.new result }
    ensures trees { IsHonest io.new → OnOk result (AreTreesWithin (IsSparedBy io.old) (disk_of io.old).size set.old (IsSparedBy io.new) set.new) }
{
    let dnode = object_there(set, io, object)?;
    check_change(&dnode, change, first, count)?;
    check_range(first, count)?;
    let made = range_changed(io, dnode, change, first, count, number)?;
    put_dnode(set, io, object, made)
}
