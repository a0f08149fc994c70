//! Which indices of a number each redaction snapshot dates after the snapshot.
ghost use Rattle.std.specs.Prelude.{◌≤◌, ◌<◌, ◌^◌, nat_lt, IfOk, IfSome};
ghost use Rattle.std.specs.List.{AllZip};
ghost use Rattle.zst_block.specs.IoStates.{IsHonest, blocks_of, disk_of, io_of};
ghost use Rattle.zst_block.specs.IoCalls.{Looks, stop_of};
ghost use Rattle.zst_model.specs.states.DatedState.{DatedState};
ghost use Rattle.zst_tree.specs.Damage.{IsSeen};
ghost use Rattle.zst_tree.specs.Indices.{Delivers};
ghost use Rattle.zst_objset.specs.Damage.{IfDamaged};
ghost use Rattle.zst_objset.specs.Sets.{SetHolds};
ghost use Rattle.zst_traverse.specs.Damage.{IsDamagedCell};
ghost use Rattle.zst_traverse.specs.Runs.{FindsIn};
ghost use Rattle.zst_redact.specs.Damage.{IsDamagedAmong};
ghost use Rattle.zst_redact.specs.Passes.{PassesTo, States, are_late, is_late};

use std::sync::ledger::Ledger;
use zst_block::{BlockFault, Io};
use zst_dnode::Slot;
use zst_model::limits::INDEX_BOUND;
use zst_objset::{slot_at, tree_of};
use zst_outside::Disk;
use zst_tree::{ObjSet, Steps};

// The first of indices that all have one date, where that is after a number.
fn first_of_all(date: u64, number: u64, from: u64) -> Option<u64>
    ensures found { FindsIn (λ i. nat_lt number date) from (2 ^ 43) result }
    ensures range { IfSome result (λ found. (from ≤ found) × (found < 2 ^ 43)) }
{
    if number < date && from < INDEX_BOUND {
        Some(from)
    } else {
        None
    }
}

// The least index of an object from one on that a set dates after a number. Where the object is
// absent, all of its indices have its date.
fn late_in<D: Disk, L: Ledger>(
    io: &mut Io<'_, D>,
    set: &ObjSet,
    number: u64,
    object: u64,
    from: u64,
    steps: &mut Steps<L>,
) -> Result<Option<u64>, BlockFault>
    requires object { (0 < object) × (object < 2 ^ 48) }
    ensures found { (kept : DatedState) → IsHonest io.new → SetHolds (blocks_of io.old) set.now kept → Delivers (FindsIn (is_late number kept object) from (2 ^ 43)) result }
    ensures range { IfOk result (λ found. IfSome found (λ first. (from ≤ first) × (first < 2 ^ 43))) }
    ensures damaged { IsHonest io.new → IfDamaged result (IsDamagedCell (IsSeen (disk_of io.old).seen) (disk_of io.old).size set.now) }
    ensures looks { Looks (io_of io.old) (io_of io.new) (stop_of result) }
{
    let slot = slot_at(set, io, object)?;
    match slot {
        Slot::Absent { date } => Ok(first_of_all(date, number, from)),
        Slot::There(dnode) => tree_of(&dnode).next_after(io, from, INDEX_BOUND, number, steps),
    }
}

/// Passes over indices of an object, from one on, that some set doesn't date after a number: each set
/// over those behind the ones before it.
pub(crate) fn late_from<D: Disk, L: Ledger>(
    io: &mut Io<'_, D>,
    redactions: &[ObjSet],
    number: u64,
    object: u64,
    from: u64,
    steps: &mut Steps<L>,
) -> Result<Option<u64>, BlockFault>
    requires object { (0 < object) × (object < 2 ^ 48) }
    ensures passes { (kept : States) → IsHonest io.new → AllZip (SetHolds (blocks_of io.old)) redactions.now kept → Delivers (PassesTo (are_late number kept object) from) result }
    ensures range { IfOk result (λ passed. IfSome passed (λ to. from ≤ to)) }
    ensures damaged { IsHonest io.new → IfDamaged result (IsDamagedAmong (IsSeen (disk_of io.old).seen) (disk_of io.old).size redactions.now) }
    ensures looks { Looks (io_of io.old) (io_of io.new) (stop_of result) }
{
    let Some((set, rest)) = redactions.split_first() else {
        return Ok(Some(from));
    };
    match late_in(io, set, number, object, from, steps)? {
        None => Ok(None),
        Some(late) => late_from(io, rest, number, object, late, steps),
    }
}
