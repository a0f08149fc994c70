// What a receive that makes its dataset starts from.
ghost use Rattle.std.specs.Prelude.{◌≡◌, ◌<◌, length, Result, IfOk};
ghost use Rattle.zst_dir.specs.RowNames.{AreNamed, NamesSnapshot};
ghost use Rattle.zst_model.specs.declared.refusals.plan_fault.PlanFault.{PlanFault as Fault};
ghost use Rattle.zst_model.specs.pools.Pool.{Pool, Snapshot as PlainSnapshot};
ghost use Rattle.zst_plan.specs.Places.{AnswerAlike, Judges, StandsAt};
ghost use Rattle.zst_plan.specs.Receipts.{AnswersBase, IsBaseInside, IsBaseOf};
ghost use Rattle.zst_plan.specs.RecvPlan.{base_anew, base_by_guid, base_by_origin, cloned_base, if_frees, if_from_origin};
ghost use Rattle.zst_plan.specs.RecvPlan as plain;

use crate::flags::FREE_RECORDS;
use crate::lookups::find_snapshot;
use crate::plan::kind_of;
use crate::receive::RecvAsk;
use crate::receive::base::{Base, check_kind, check_source, is_full};
use zst_dir::{Dir, Snapshot};
use zst_model::{Header, Lack, PlanFault};
use zst_names::SnapName;

// A snapshot as the base of a clone of it: E19.
fn cloned_base(dir: &Dir, header: &Header, place: usize) -> Result<Base, PlanFault>
    requires { place < length dir.now.snapshots }
    ensures inside { IfOk result (IsBaseInside dir.now) }
    ensures exact { (pool : Pool) (snapshot : PlainSnapshot) → AreNamed dir.now pool → StandsAt dir.now.snapshots pool.snapshots place snapshot
        → AnswerAlike (IsBaseOf dir.now pool) result (cloned_base header.now pool snapshot) }
{
    check_kind(kind_of(dir, &dir.snapshots()[place]), header)?;
    Ok(Base {
        snapshot: Some(place),
        rolls: false,
    })
}

// A full stream has no base, and an increment the first snapshot with its source's guid: E11.
fn base_by_guid(dir: &Dir, header: &Header) -> Result<Base, PlanFault>
    ensures { AnswersBase dir.now (base_by_guid header.now) result }
{
    if is_full(header) {
        return Ok(Base {
            snapshot: None,
            rolls: false,
        });
    }
    match dir.by_guid(header.from) {
        Some(place) => cloned_base(dir, header, place),
        None => Err(PlanFault::NoOrigin { guid: header.from }),
    }
}

// E10 where an increment is from another snapshot than the origin.
fn check_from_origin(origin: &Snapshot, header: &Header) -> Result<(), PlanFault>
    ensures { (snapshot : PlainSnapshot) (rest : Result plain.Base Fault) → NamesSnapshot origin.now snapshot → Judges (if_from_origin snapshot header.now rest) rest result }
{
    if is_full(header) {
        return Ok(());
    }
    check_source(origin.guid, header)
}

// E19 where a full stream doesn't free what it lacks.
#[tactic(auto, unfolding(zst_model::specs::sends::Headers::free_records))]
fn check_frees(header: &Header) -> Result<(), PlanFault>
    ensures { (rest : Result plain.Base Fault) → Judges (if_frees header.now rest) rest result }
{
    if is_full(header) && header.flags & FREE_RECORDS == 0 {
        return Err(PlanFault::Unsupported(Lack::FullWithoutFrees));
    }
    Ok(())
}

// The asked origin: E3, E10, E19.
fn base_by_origin(dir: &Dir, header: &Header, name: &SnapName) -> Result<Base, PlanFault>
    ensures { AnswersBase dir.now (λ pool. base_by_origin header.now pool name.now) result }
{
    let place = find_snapshot(dir, name)?;
    check_from_origin(&dir.snapshots()[place], header)?;
    check_frees(header)?;
    cloned_base(dir, header, place)
}

/// What a receive of a dataset that isn't there yet starts from.
pub fn base_anew(dir: &Dir, ask: &RecvAsk, header: &Header) -> Result<Base, PlanFault>
    ensures { AnswersBase dir.now (base_anew ask.now header.now) result }
{
    match &ask.origin {
        Some(name) => base_by_origin(dir, header, name),
        None => base_by_guid(dir, header),
    }
}
