// What a receive begins with, once BEGIN is covered.
ghost use Rattle.std.specs.Prelude.{◌≡◌, ◌<◌, ℕ, List, Option, true, IfOk, IfSome, length, option_map};
ghost use Rattle.std.specs.Option.{option_map_or};
ghost use Rattle.zst_block.specs.Blocks.{Has};
ghost use Rattle.zst_space.specs.FreeSectors.{FreeSectors};
ghost use Rattle.zst_dir.specs.RowNames.{AreNamed};
ghost use Rattle.zst_dir.specs.Rows.{HasSnapshot};
ghost use Rattle.zst_image.specs.Reads.{PartialIs, RunsBy, SetIs};
ghost use Rattle.zst_model.specs.pools.Pool.{IsStated, Pool as Plain, Snapshot as PlainSnapshot, untouched};
ghost use Rattle.zst_stream.specs.PassedRecords.{StatesBegin};
ghost use Rattle.zst_names.specs.Names.{IsSnapshot, dataset_of};
ghost use Rattle.zst_plan.specs.Places.{AnswerAlike, FindAlike, StandsAt};
ghost use Rattle.zst_plan.specs.Receipts.{TellsNeeded};
ghost use Rattle.zst_plan.specs.RecvPlan.{Base, recv_plan, snapshot_name};
ghost use Rattle.zst_recv.specs.Damage.{IsSetAt, StaysWith};
ghost use Rattle.zst_recv.specs.Plans.{Begins};
ghost use Rattle.zst_recv.specs.ReceiveSteps.{begun, opened};
ghost use Rattle.zst_recv.specs.Stages.{CanPutFor, IsBatch, StageFits, has_partial, is_live};
ghost use Rattle.zst_tree.specs.Sets.{SetFits};

use crate::batch::Batch;
use crate::stage::Stage;
use zst_dir::{Dir, Partial};
use zst_model::{Header, NameText, PlanFault, Point};
use zst_names::SnapName;
use zst_plan::{RecvAsk, RecvPlan, recv_plan};
use zst_tree::ObjSet;

// The objects that a receive begins with: the base's, or none.
fn objects_of(dir: &Dir, base: Option<usize>) -> ObjSet
    requires { IfSome base (λ place. place < length dir.now.snapshots) }
    ensures fits { SetFits result }
    ensures base { IsSetAt dir.now base result }
    ensures held { (bound : Option ℕ) (image : List ℕ) (space : FreeSectors) (running : Plain) (found : Option PlainSnapshot)
        → RunsBy bound (Has image space) dir.now running → FindAlike (StandsAt dir.now.snapshots running.snapshots) base found
        → SetIs bound (Has image space) result (option_map_or (λ snapshot. snapshot.objects) found untouched) }
{
    let _lawful = dir.datasets();
    match base {
        Some(place) => dir.snapshots()[place].objects,
        None => ObjSet::empty(),
    }
}

// The base's name.
fn name_of(dir: &Dir, base: Option<usize>) -> Option<SnapName>
    requires { IfSome base (λ place. place < length dir.now.snapshots) }
    ensures name { IfSome result IsSnapshot }
    ensures there { IfSome result (HasSnapshot dir.now) }
    ensures named { (bound : Option ℕ) (image : List ℕ) (space : FreeSectors) (running : Plain) (found : Option PlainSnapshot)
        → RunsBy bound (Has image space) dir.now running → FindAlike (StandsAt dir.now.snapshots running.snapshots) base found
        → option_map (λ snapshot. snapshot.name) found ≡ result }
{
    let _lawful = dir.datasets();
    match base {
        Some(place) => Some(dir.snapshots()[place].name.duplicate()),
        None => None,
    }
}

// The partial state that a snapshot of this name begins with, over the base at this place.
fn begun(dir: &Dir, ask: &RecvAsk, header: &Header, name: &SnapName, base: Option<usize>) -> Partial
    requires base { IfSome base (λ place. place < length dir.now.snapshots) }
    requires header { IsStated header.now }
    requires name { dataset_of 64 name.now ≡ ask.now.target }
    requires new { HasSnapshot dir.now name.now → ⊥ }
    ensures fits { CanPutFor dir.now ask.now.target result }
    ensures base { IsSetAt dir.now base result.objects }
    ensures begun { (bound : Option ℕ) (image : List ℕ) (space : FreeSectors) (running : Plain) (component : List ℕ) (found : Base)
        → RunsBy bound (Has image space) dir.now running → FindAlike (StandsAt dir.now.snapshots running.snapshots) base found.snapshot → name.now ≡ snapshot_name ask.now.target component
        → PartialIs bound (Has image space) result (begun ask.now header.now component found) }
{
    let (_target, _name) = (ask.target.text(), name.text());
    Partial {
        target: ask.target.duplicate(),
        snapshot: NameText::new(name.component().as_bytes()),
        keep: ask.keep,
        header: header.duplicate(),
        base: name_of(dir, base),
        objects: objects_of(dir, base),
        point: Point {
            object: 0,
            offset: 0,
        },
    }
}

// A stream's flags and a partial state, which are to be committed.
fn opened(header: &Header, partial: Partial, rolls: bool) -> Batch
    ensures stage { result.stage ≡ Stage.Lives header.now.flags partial }
    ensures rolls { result.rolls ≡ rolls }
    ensures taken { result.taken ≡ true }
    ensures applied { result.applied ≡ 0 }
{
    Batch {
        stage: Stage::Lives {
            flags: header.flags,
            partial,
        },
        rolls,
        taken: true,
        applied: 0,
    }
}

/// Plans a receive by the header of its stream, and begins it.
pub(crate) fn open(dir: &Dir, ask: &RecvAsk, header: &Header) -> Result<Batch, PlanFault>
    requires header { StatesBegin header.now }
    ensures fits { IfOk result (λ batch. StageFits dir.now ask.now.target batch.stage) }
    // Its set is the one that the plan takes over the rows alone.
    ensures begins { (text : List ℕ) → Begins text header.now → IfOk result (λ batch. StaysWith dir.now ask.now text Stage.Waits batch.stage) }
    ensures lives { IfOk result (λ batch. has_partial batch.stage ≡ true) }
    ensures live { IfOk result (λ batch. is_live batch.stage ≡ true) }
    ensures taken { IfOk result (λ batch. batch.taken ≡ true) }
    ensures exact { (bound : Option ℕ) (image : List ℕ) (space : FreeSectors) (running : Plain) → RunsBy bound (Has image space) dir.now running → TellsNeeded dir.now running ask.now header.now
        → AnswerAlike (λ batch plan. IsBatch bound (Has image space) batch (opened ask.now header.now plan)) result (recv_plan ask.now header.now running) }
    // Whether it begins is for the rows alone to say, whatever the object sets hold.
    ensures planned { (running : Plain) → AreNamed dir.now running → TellsNeeded dir.now running ask.now header.now → AnswerAlike (λ batch plan. Unit {0}) result (recv_plan ask.now header.now running) }
{
    match recv_plan(dir, ask, header)? {
        RecvPlan::Resumes { place } => {
            let _lawful = dir.datasets();
            Ok(opened(header, dir.partials()[place].duplicate(), false))
        }
        RecvPlan::Begins { name, base, rolls } => {
            Ok(opened(header, begun(dir, ask, header, &name, base), rolls))
        }
    }
}
