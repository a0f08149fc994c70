//! The next wanted blocks of a snapshot.
ghost use Rattle.std.specs.Prelude.{◌≡◌, ◌≤◌, ◌<◌, ◌^◌, [], ◌∷◌, IfOk, IfSome};
ghost use Rattle.zst_block.specs.IoStates.{IsHonest, blocks_of, disk_of, io_of};
ghost use Rattle.zst_block.specs.IoCalls.{Looks, stop_of};
ghost use Rattle.zst_model.specs.pools.RedSet.{red_set};
ghost use Rattle.zst_model.specs.states.DatedState.{DatedState};
ghost use Rattle.zst_tree.specs.Damage.{IsSeen};
ghost use Rattle.zst_tree.specs.Indices.{Delivers};
ghost use Rattle.zst_objset.specs.Damage.{IfDamaged};
ghost use Rattle.zst_redact.specs.Damage.{IsDamagedAmong};
ghost use Rattle.zst_redact.specs.Passes.{FindsRun, HoldStates, PassesNumbers, RunFits, States};
ghost use Rattle.zst_redact.specs.Wanted.{sets_beside, wanted_pairs};

use crate::indices::run_in;
use crate::numbers::number_from;
use crate::present::present_from;
use crate::wanted::Wanted;
use std::sync::ledger::Ledger;
use zst_block::{BlockFault, Io};
use zst_model::limits::NUMBER_BOUND;
use zst_model::{List, Run};
use zst_outside::Disk;
use zst_tree::{ObjSet, Steps};

// Passes over numbers, from one on, that have no wanted pair.
fn later_number<D: Disk, L: Ledger>(
    io: &mut Io<'_, D>,
    snap: &ObjSet,
    wanted: Wanted<'_>,
    from: u64,
    none: &List,
    steps: &mut Steps<L>,
) -> Result<Option<u64>, BlockFault>
    requires none { none.now ≡ [] }
    ensures passes { (state : DatedState) (kept : States) → IsHonest io.new → HoldStates (blocks_of io.old) snap.now (sets_beside wanted.entry) state kept
        → Delivers (PassesNumbers (wanted_pairs wanted.entry state kept) from) result }
    ensures range { IfOk result (λ passed. IfSome passed (λ to. from ≤ to)) }
    ensures damaged { IsHonest io.new → IfDamaged result (IsDamagedAmong (IsSeen (disk_of io.old).seen) (disk_of io.old).size (snap.now ∷ sets_beside wanted.entry)) }
    ensures looks { Looks (io_of io.old) (io_of io.new) (stop_of result) }
{
    match wanted {
        Wanted::Unkept { number, redactions } => {
            number_from(io, redactions, number, from, none, steps)
        }
        Wanted::Redacted => present_from(io, snap, from, none, steps),
    }
}

/// A run of wanted pairs of a snapshot, from the least on, by object, then by index, that stands at or after
/// a pair.
pub(crate) fn next_run<D: Disk, L: Ledger>(
    io: &mut Io<'_, D>,
    snap: &ObjSet,
    wanted: Wanted<'_>,
    none: &List,
    start: (u64, u64),
    steps: &mut Steps<L>,
) -> Result<Option<Run>, BlockFault>
    requires none { none.now ≡ [] }
    requires object { 0 < start.0 }
    ensures found { (state : DatedState) (kept : States) → IsHonest io.new → HoldStates (blocks_of io.old) snap.now (sets_beside wanted.entry) state kept
        → Delivers (FindsRun (wanted_pairs wanted.entry state kept) start) result }
    ensures range { IfOk result (λ found. IfSome found (RunFits start)) }
    ensures damaged { IsHonest io.new → IfDamaged result (IsDamagedAmong (IsSeen (disk_of io.old).seen) (disk_of io.old).size (snap.now ∷ sets_beside wanted.entry)) }
    ensures looks { Looks (io_of io.old) (io_of io.new) (stop_of result) }
{
    let (mut object, mut index) = start;
    while object < NUMBER_BOUND {
        match run_in(io, snap, wanted, object, index, steps)? {
            Some((first, count)) => {
                return Ok(Some(Run {
                    object,
                    first,
                    count,
                }));
            }
            None => {}
        }
        match later_number(io, snap, wanted, object + 1, none, steps)? {
            None => return Ok(None),
            Some(to) => object = to,
        }
        index = 0;
    }
    Ok(None)
}

/// A run of the blocks of user data of a snapshot with a number that each of some redaction snapshots dates after that, from the least on,
/// by object, then by index, that stands at or after a pair. It takes no memory, however many there are.
pub fn next_unkept<D: Disk, L: Ledger>(
    io: &mut Io<'_, D>,
    snap: &ObjSet,
    number: u64,
    redactions: &[ObjSet],
    none: &List,
    start: (u64, u64),
    steps: &mut Steps<L>,
) -> Result<Option<Run>, BlockFault>
    requires none { none.now ≡ [] }
    requires object { 0 < start.0 }
    ensures found { (state : DatedState) (kept : States) → IsHonest io.new → HoldStates (blocks_of io.old) snap.now redactions.now state kept
        → Delivers (FindsRun (red_set state.state number kept) start) result }
    ensures range { IfOk result (λ found. IfSome found (RunFits start)) }
    ensures damaged { IsHonest io.new → IfDamaged result (IsDamagedAmong (IsSeen (disk_of io.old).seen) (disk_of io.old).size (snap.now ∷ redactions.now)) }
    ensures looks { Looks (io_of io.old) (io_of io.new) (stop_of result) }
{
    let wanted = Wanted::Unkept { number, redactions };
    next_run(io, snap, wanted, none, start, steps)
}
