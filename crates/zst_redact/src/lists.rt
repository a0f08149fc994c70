//! The list of the wanted pairs of a snapshot.
ghost use Rattle.std.specs.Prelude.{◌≡◌, ◌≤◌, ◌<◌, ◌∷◌, true, length, IfOk};
ghost use Rattle.zst_block.specs.IoStates.{IsHonest, blocks_of, disk_of, io_of};
ghost use Rattle.zst_block.specs.IoCalls.{Looks};
ghost use Rattle.zst_model.specs.fields.Lists.{HasNoneFrom, IsRunList, has_pair, is_run};
ghost use Rattle.zst_model.specs.fields.RunsOf.{runs_of};
ghost use Rattle.zst_model.specs.pools.Limits.{most_runs};
ghost use Rattle.zst_model.specs.pools.RedSet.{red_set};
ghost use Rattle.zst_model.specs.states.DatedState.{DatedState};
ghost use Rattle.zst_tree.specs.Damage.{IsSeen};
ghost use Rattle.zst_redact.specs.BuiltLists.{BuildsList, IfTold, PutsRun, stop_of};
ghost use Rattle.zst_redact.specs.Damage.{IsDamagedAmong};
ghost use Rattle.zst_redact.specs.Passes.{HoldStates, States};
ghost use Rattle.zst_redact.specs.Wanted.{sets_beside, wanted_pairs};

use crate::fault::RedactFault;
use crate::runs::next_run;
use crate::wanted::Wanted;
use std::alloc::Global;
use std::marker::Brand;
use std::sync::ledger::{Blank, Ledger};
use zst_block::Io;
use zst_model::{List, Run};
use zst_outside::Disk;
use zst_tree::{ObjSet, OrMemory, Steps};

// Puts a run behind all pairs of a list. E23 where that would be a run too many.
fn put(list: &mut List, run: Run) -> Result<(), OrMemory<RedactFault>>
    requires run { is_run run ≡ true }
    requires behind { HasNoneFrom (has_pair list.old) run.object run.first }
    ensures puts { PutsRun list.old list.new run result }
    ensures lawful { IsRunList list.new }
    ensures short { length list.old ≤ most_runs → length list.new ≤ most_runs }
{
    if list.push_run(run)? {
        Ok(())
    } else {
        Err(OrMemory::Fault(RedactFault::Limit))
    }
}

/// The list of the blocks of user data of a snapshot with a number that each of some redaction snapshots
/// dates after that: the pairs that none of them has kept. It takes memory for the list alone.
pub fn build<D: Disk>(
    io: &mut Io<'_, D>,
    alloc: Global,
    snap: &ObjSet,
    number: u64,
    redactions: &[ObjSet],
) -> Result<List, OrMemory<RedactFault>>
    // Where the sets hold these states, the list is that of the pairs that no redaction snapshot has kept; E23 comes
    // exactly where it is too long, and no damage is told.
    ensures list { (state : DatedState) (kept : States) → IsHonest io.new → HoldStates (blocks_of io.old) snap.now redactions.now state kept
        → BuildsList (runs_of (red_set state.state number kept)) result }

    // Whatever the images, it isn't too long, and damage is told of a block of one of the sets.
    ensures short { IfOk result (λ list. length list ≤ most_runs) }
    ensures damaged { IsHonest io.new → IfTold result (IsDamagedAmong (IsSeen (disk_of io.old).seen) (disk_of io.old).size (snap.now ∷ redactions.now)) }

    // It only reads.
    ensures looks { Looks (io_of io.old) (io_of io.new) (stop_of result) }
{
    let wanted = Wanted::Unkept { number, redactions };
    counted::<D, Brand>(io, alloc, snap, wanted, Blank::new(1))
}

/// The list of the wanted blocks of user data of a snapshot, with the blocks on the way counted.
pub(crate) fn counted<D: Disk, L: Ledger>(
    io: &mut Io<'_, D>,
    alloc: Global,
    snap: &ObjSet,
    wanted: Wanted<'_>,
    blank: Blank,
) -> Result<List, OrMemory<RedactFault>>
    requires name { blank.name ≡ L.name }
    requires parts { blank.parts ≡ L.parts }
    requires one { 0 < blank.parts }
    ensures list { (state : DatedState) (kept : States) → IsHonest io.new → HoldStates (blocks_of io.old) snap.now (sets_beside wanted.entry) state kept
        → BuildsList (runs_of (wanted_pairs wanted.entry state kept)) result }
    ensures short { IfOk result (λ list. length list ≤ most_runs) }
    ensures damaged { IsHonest io.new → IfTold result (IsDamagedAmong (IsSeen (disk_of io.old).seen) (disk_of io.old).size (snap.now ∷ sets_beside wanted.entry)) }
    ensures looks { Looks (io_of io.old) (io_of io.new) (stop_of result) }
{
    let mut steps = Steps::<L>::new(blank);
    let none = List::empty(alloc);
    let mut list = List::empty(alloc);
    let mut at = (1, 0);
    'runs: loop {
        match next_run(io, snap, wanted, &none, at, &mut steps) {
            Ok(None) => return Ok(list),
            Ok(Some(run)) => {
                put(&mut list, run)?;
                at = (run.object, run.first + run.count);
            }
            Err(fault) => return Err(OrMemory::Fault(RedactFault::Block(fault))),
        }
    }
}
