// The first pair that is in a list and isn't wanted there, or is wanted and isn't in it.
ghost use Rattle.std.specs.Prelude.{◌≡◌, ℕ, ◌+◌, ◌^◌, ◌<◌, ◌≤◌, [], ◌∷◌, false, IfSome};
ghost use Rattle.zst_block.specs.IoCalls.{Looks, stop_of};
ghost use Rattle.zst_block.specs.IoStates.{IsHonest, blocks_of, disk_of, io_of};
ghost use Rattle.zst_model.specs.fields.Lists.{IsRunList, has_pair};
ghost use Rattle.zst_model.specs.fields.RunsOf.{is_earlier};
ghost use Rattle.zst_model.specs.pools.RedSet.{red_set};
ghost use Rattle.zst_model.specs.sends.Inclusion.{Pairs};
ghost use Rattle.zst_model.specs.states.DatedState.{DatedState};
ghost use Rattle.zst_objset.specs.Damage.{IfDamaged};
ghost use Rattle.zst_tree.specs.Damage.{IsSeen};
ghost use Rattle.zst_tree.specs.Indices.{Delivers};
ghost use Rattle.zst_redact.specs.Damage.{IsDamagedAmong};
ghost use Rattle.zst_redact.specs.Passes.{FindsRun, HoldStates, RunFits, States};
ghost use Rattle.zst_check.specs.ListPairs.{FindsOther, MovesOn, TellsBeside};
ghost use Rattle.zst_check.specs.declared.list_pairs.Beside.TheVariants.{Differs};

use std::sync::ledger::{Blank, Ledger};
use zst_block::{BlockFault, Io};
use zst_dir::Snapshot;
use zst_model::{List, Run};
use zst_outside::Disk;
use zst_redact::next_unkept;
use zst_tree::{ObjSet, Steps};

// How a run beside another goes on.
#[derive(Clone, Copy)]
enum Beside {
    // Neither has a pair any more.
    End,
    // One of them has this pair, and the other hasn't.
    Differs { object: u64, block: u64 },
    // Both have the same pairs up to this one.
    Same { object: u64, block: u64 },
}

// A run of a list from a pair on, whole to its end: that of the least pair at or after the pair, without what stands before it.
fn run_from(list: &List, object: u64, block: u64) -> Option<Run>
    ensures found { FindsRun (has_pair list.now) (record { 0 = object; 1 = block }) result }
    ensures whole { IfSome result (λ run. has_pair list.now run.object (run.first + run.count) ≡ false) }
    ensures range { IfSome result (RunFits (record { 0 = object; 1 = block })) }
    ensures lawful { IsRunList list.now }
{
    let run = list.first_behind(object, block)?;
    if run.object != object || block <= run.first {
        return Some(run);
    }
    Some(Run {
        object,
        first: block,
        count: run.count - (block - run.first),
    })
}

// Whether a run begins before another.
fn begins_before(one: Run, other: Run) -> bool
    ensures { result ≡ is_earlier one.object one.first other.object other.first }
{
    one.object < other.object || one.object == other.object && one.first < other.first
}

// The first pair of a run, which the other has none of.
fn begins_alone(run: Run) -> Beside
    ensures { result ≡ Differs run.object run.first }
{
    Beside::Differs {
        object: run.object,
        block: run.first,
    }
}

// What stands in one of two runs alone, or the pair behind what both have.
fn runs_beside(wanted: Option<Run>, listed: Option<Run>) -> Beside
    requires wanted { IfSome wanted (λ run. run.first + run.count ≤ 2 ^ 43) }
    requires listed { IfSome listed (λ run. run.first + run.count ≤ 2 ^ 43) }
    ensures told { (pairs others : Pairs) (start : ℕ × ℕ) → FindsRun pairs start wanted → FindsRun others start listed → TellsBeside pairs others start result }
    ensures moves { (start : ℕ × ℕ) → IfSome wanted (RunFits start) → IfSome listed (RunFits start) → MovesOn start result }
{
    match (wanted, listed) {
        (None, None) => Beside::End,
        (Some(run), None) | (None, Some(run)) => begins_alone(run),
        (Some(one), Some(other)) => {
            if begins_before(one, other) {
                return begins_alone(one);
            }
            if begins_before(other, one) {
                return begins_alone(other);
            }
            Beside::Same {
                object: one.object,
                block: one.first + one.count.min(other.count),
            }
        }
    }
}

// A pair in which a list differs from the pairs of a snapshot that none of these sets has kept, or none, where it is theirs.
// It takes no memory: the wanted pairs are found run by run, however many there are.
pub(crate) fn differing_pair<D: Disk, L: Ledger>(
    io: &mut Io<'_, D>,
    own: &Snapshot,
    sets: &[ObjSet],
    list: &List,
    none: &List,
    blank: Blank,
) -> Result<Option<(u64, u64)>, BlockFault>
    requires none { none.now ≡ [] }
    requires name { blank.name ≡ L.name }
    requires parts { blank.parts ≡ L.parts }
    requires one { 0 < blank.parts }
    ensures found { (state : DatedState) (kept : States) → IsHonest io.new → HoldStates (blocks_of io.old) own.now.objects sets.now state kept
        → Delivers (FindsOther (red_set state.state own.now.number kept) (has_pair list.now)) result }
    ensures damaged { IsHonest io.new → IfDamaged result (IsDamagedAmong (IsSeen (disk_of io.old).seen) (disk_of io.old).size (own.now.objects ∷ sets.now)) }
    ensures looks { Looks (io_of io.old) (io_of io.new) (stop_of result) }
{
    let mut steps = Steps::<L>::new(blank);
    let mut at = (1, 0);
    'runs: loop {
        let wanted = next_unkept(io, &own.objects, own.number, sets, none, at, &mut steps)?;
        match runs_beside(wanted, run_from(list, at.0, at.1)) {
            Beside::End => return Ok(None),
            Beside::Differs { object, block } => return Ok(Some((object, block))),
            Beside::Same { object, block } => at = (object, block),
        }
    }
}
