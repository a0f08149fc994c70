//! Which numbers may have indices that each redaction snapshot dates after the snapshot: the walk by dates
//! passes over the others.
ghost use Rattle.std.specs.Prelude.{◌≡◌, ◌≤◌, ◌<◌, ◌^◌, [], Some, IfOk, IfSome};
ghost use Rattle.std.specs.List.{AllZip};
ghost use Rattle.zst_block.specs.IoStates.{IsHonest, blocks_of, disk_of, io_of};
ghost use Rattle.zst_block.specs.IoCalls.{Looks, stop_of};
ghost use Rattle.zst_model.specs.states.DatedState.{DatedState};
ghost use Rattle.zst_tree.specs.Damage.{IsSeen};
ghost use Rattle.zst_tree.specs.Indices.{Delivers};
ghost use Rattle.zst_objset.specs.Damage.{IfDamaged};
ghost use Rattle.zst_objset.specs.Sets.{SetHolds};
ghost use Rattle.zst_traverse.specs.Damage.{IsDamagedCell};
ghost use Rattle.zst_traverse.specs.ListedNumbers.{first_found};
ghost use Rattle.zst_redact.specs.Damage.{IsDamagedAmong};
ghost use Rattle.zst_redact.specs.Passes.{PassesNumbers, States, are_late, is_late};

use std::sync::ledger::Ledger;
use zst_block::{BlockFault, Io};
use zst_model::{List, Point};
use zst_outside::Disk;
use zst_traverse::{WalkEntry, next_cell};
use zst_tree::{ObjSet, Steps};

// The number at which what a walk found begins.
fn first_of(found: WalkEntry) -> u64
    ensures { result ≡ first_found (Some found) }
{
    match found {
        WalkEntry::Object { number, .. } => number,
        WalkEntry::Gone { first, .. } => first,
        WalkEntry::Pairs { object, .. } => object,
    }
}

// The least number from one on that a set dates after a number, itself or by one of its indices. The list
// of no pairs is one that the walk takes.
fn number_in<D: Disk, L: Ledger>(
    io: &mut Io<'_, D>,
    set: &ObjSet,
    number: u64,
    from: u64,
    none: &List,
    steps: &mut Steps<L>,
) -> Result<Option<u64>, BlockFault>
    requires none { none.now ≡ [] }
    ensures passes { (kept : DatedState) → IsHonest io.new → SetHolds (blocks_of io.old) set.now kept → Delivers (PassesNumbers (is_late number kept) from) result }
    ensures range { IfOk result (λ found. IfSome found (λ first. (from ≤ first) × (first < 2 ^ 48))) }
    ensures damaged { IsHonest io.new → IfDamaged result (IsDamagedCell (IsSeen (disk_of io.old).seen) (disk_of io.old).size set.now) }
    ensures looks { Looks (io_of io.old) (io_of io.new) (stop_of result) }
{
    let point = Point {
        object: from,
        offset: 0,
    };
    match next_cell(io, set, Some(number), none, none, point, true, steps)? {
        None => Ok(None),
        Some(found) => Ok(Some(first_of(found))),
    }
}

/// Passes over numbers, from one on, of which some set dates nothing after a number: each set over those
/// behind the ones before it.
pub(crate) fn number_from<D: Disk, L: Ledger>(
    io: &mut Io<'_, D>,
    redactions: &[ObjSet],
    number: u64,
    from: u64,
    none: &List,
    steps: &mut Steps<L>,
) -> Result<Option<u64>, BlockFault>
    requires none { none.now ≡ [] }
    ensures passes { (kept : States) → IsHonest io.new → AllZip (SetHolds (blocks_of io.old)) redactions.now kept → Delivers (PassesNumbers (are_late number kept) from) result }
    ensures range { IfOk result (λ passed. IfSome passed (λ to. from ≤ to)) }
    ensures damaged { IsHonest io.new → IfDamaged result (IsDamagedAmong (IsSeen (disk_of io.old).seen) (disk_of io.old).size redactions.now) }
    ensures looks { Looks (io_of io.old) (io_of io.new) (stop_of result) }
{
    let Some((set, rest)) = redactions.split_first() else {
        return Ok(Some(from));
    };
    match number_in(io, set, number, from, none, steps)? {
        None => Ok(None),
        Some(at) => number_from(io, rest, number, at, none, steps),
    }
}
