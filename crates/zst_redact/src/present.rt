//! Which numbers of a set have objects: the walk over all numbers passes over the others by their runs.
ghost use Rattle.std.specs.Prelude.{◌≡◌, ◌≤◌, ◌^◌, [], IfOk, IfSome};
ghost use Rattle.zst_block.specs.IoStates.{IsHonest, blocks_of, disk_of, io_of};
ghost use Rattle.zst_block.specs.IoCalls.{Looks, stop_of};
ghost use Rattle.zst_model.specs.pools.RedSet.{redacted_pairs};
ghost use Rattle.zst_model.specs.states.DatedState.{DatedState};
ghost use Rattle.zst_tree.specs.Damage.{IsSeen};
ghost use Rattle.zst_tree.specs.Indices.{Delivers};
ghost use Rattle.zst_objset.specs.Damage.{IfDamaged};
ghost use Rattle.zst_objset.specs.Sets.{SetHolds};
ghost use Rattle.zst_traverse.specs.Damage.{IsDamagedCell};
ghost use Rattle.zst_redact.specs.Passes.{PassesNumbers};
ghost use Rattle.zst_redact.specs.Wanted.{reached};

use std::sync::ledger::Ledger;
use zst_block::{BlockFault, Io};
use zst_model::{List, Point};
use zst_outside::Disk;
use zst_traverse::{WalkEntry, next_cell};
use zst_tree::{ObjSet, Steps};

// The number that a walk over all numbers has reached by what it found.
fn reached(found: WalkEntry) -> u64
    requires below { reached found ≤ 2 ^ 48 }
    ensures { result ≡ reached found }
{
    match found {
        WalkEntry::Object { number, .. } => number,
        WalkEntry::Gone { first, count } => first + count,
        WalkEntry::Pairs { object, .. } => object,
    }
}

/// Passes over numbers of a set, from one on, that have no object, and so no redacted index. The list of
/// no pairs is one that the walk takes.
pub(crate) fn present_from<D: Disk, L: Ledger>(
    io: &mut Io<'_, D>,
    set: &ObjSet,
    from: u64,
    none: &List,
    steps: &mut Steps<L>,
) -> Result<Option<u64>, BlockFault>
    requires none { none.now ≡ [] }
    ensures passes { (state : DatedState) → IsHonest io.new → SetHolds (blocks_of io.old) set.now state → Delivers (PassesNumbers (redacted_pairs state.state) from) result }
    ensures range { IfOk result (λ passed. IfSome passed (λ to. from ≤ to)) }
    ensures damaged { IsHonest io.new → IfDamaged result (IsDamagedCell (IsSeen (disk_of io.old).seen) (disk_of io.old).size set.now) }
    ensures looks { Looks (io_of io.old) (io_of io.new) (stop_of result) }
{
    let point = Point {
        object: from,
        offset: 0,
    };
    match next_cell(io, set, None, none, none, point, true, steps)? {
        None => Ok(None),
        Some(found) => Ok(Some(reached(found))),
    }
}
