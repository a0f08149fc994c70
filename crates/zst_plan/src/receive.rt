ghost use Rattle.std.specs.Prelude.{◌≡◌, ◌<◌, ℕ, List, length, Some, IfOk};
ghost use Rattle.std.specs.List.{position};
ghost use Rattle.std.specs.Str.{bytes_eq};
ghost use Rattle.zst_dir.specs.RowNames.{AreNamed};
ghost use Rattle.zst_names.specs.Names.{dataset_of};
ghost use Rattle.zst_model.specs.pools.Pool.{Pool, Partial as PlainPartial};
ghost use Rattle.zst_plan.specs.Places.{AnswerAlike, StandsAt};
ghost use Rattle.zst_plan.specs.Receipts.{IsPlanFor, IsRecvPlanOf, TellsNeeded};
ghost use Rattle.zst_plan.specs.RecvPlan.{fresh_plan, recv_plan, resumed_plan, snapshot_name};
ghost use Rattle.zst_plan.specs.declared.receive.RecvAsk.{RecvAsk as Ask};

mod base;
mod containment;
mod name;
mod new_dataset;
mod resume;
mod room;

use base::base_for;
use containment::check_contained;
use name::find_name;
use resume::{check_plain, check_resumed};
use room::{check_new, check_room};
use zst_dir::Dir;
use zst_model::{Header, PlanFault};
use zst_names::{DatasetName, SnapName};

/// What a receive is asked for (zfs-receive(8)).
#[derive(Drop)]
pub struct RecvAsk {
    /// The dataset that the stream comes into.
    pub target: DatasetName,
    /// The snapshot's name, where it is asked for; otherwise its component is that of the stream's name.
    pub snap: Option<SnapName>,
    /// Whether what has come is kept where the stream is cut (`-s`).
    pub keep: bool,
    /// Whether the target's head goes back to its latest snapshot first (`-F`).
    pub force: bool,
    /// The snapshot that a new dataset is a clone of (`--origin`).
    pub origin: Option<SnapName>,
}

/// What a receive begins with, by places in the directory.
#[derive(Drop)]
pub enum RecvPlan {
    /// It goes on with the partial state at this place.
    Resumes {
        place: usize,
    },
    /// A snapshot of this name comes, over the snapshot at this place or over nothing; the target's head goes back to
    /// it first where that is told.
    Begins {
        name: SnapName,
        base: Option<usize>,
        rolls: bool,
    },
}

// A target with a partial state: E13, E15.
fn resumed_plan(dir: &Dir, place: usize, header: &Header) -> Result<RecvPlan, PlanFault>
    requires { place < length dir.now.partials }
    ensures for_target { (target : List ℕ) → position (λ partial. bytes_eq partial.target target) dir.now.partials ≡ Some place → IfOk result (IsPlanFor dir.now target header.now) }
    ensures exact { (pool : Pool) (ask : Ask) (partial : PlainPartial) → AreNamed dir.now pool → StandsAt dir.now.partials pool.partials place partial
        → AnswerAlike (IsRecvPlanOf dir.now pool ask) result (resumed_plan header.now partial) }
{
    check_resumed(&dir.partials()[place], header)?;
    Ok(RecvPlan::Resumes { place })
}

// A target without one: E14, then the base, containment, the name and the limits.
fn fresh_plan(
    dir: &Dir,
    ask: &RecvAsk,
    header: &Header,
    name: SnapName,
) -> Result<RecvPlan, PlanFault>
    ensures for_target { dataset_of 64 name ≡ ask.now.target → IfOk result (IsPlanFor dir.now ask.now.target header.now) }
    ensures exact { (pool : Pool) (component : List ℕ) → AreNamed dir.now pool → TellsNeeded dir.now pool ask.now header.now → name ≡ snapshot_name ask.now.target component
        → AnswerAlike (IsRecvPlanOf dir.now pool ask.now) result (fresh_plan ask.now header.now component pool) }
{
    check_plain(&ask.target, header)?;
    let base = base_for(dir, ask, header)?;
    check_contained(dir, &base, header)?;
    check_new(dir, &name)?;
    check_room(dir, &ask.target)?;
    Ok(RecvPlan::Begins {
        name,
        base: base.snapshot,
        rolls: base.rolls,
    })
}

/// Plans a receive of a stream with this header by the checks in their order. Pure, and it takes
/// no memory.
pub fn recv_plan(dir: &Dir, ask: &RecvAsk, header: &Header) -> Result<RecvPlan, PlanFault>
    ensures for_target { IfOk result (IsPlanFor dir.now ask.now.target header.now) }
    ensures exact { (pool : Pool) → AreNamed dir.now pool → TellsNeeded dir.now pool ask.now header.now → AnswerAlike (IsRecvPlanOf dir.now pool ask.now) result (recv_plan ask.now header.now pool) }
{
    let name = find_name(ask, header)?;
    match dir.partial(&ask.target) {
        Some(place) => resumed_plan(dir, place, header),
        None => fresh_plan(dir, ask, header, name),
    }
}
