// Streams that go on where a partial state stands.
ghost use Rattle.std.specs.Prelude.{◌≡◌, Ok, Result};
ghost use Rattle.zst_dir.specs.RowNames.{NamesPartial};
ghost use Rattle.zst_model.specs.pools.Pool.{Partial as PlainPartial};
ghost use Rattle.zst_plan.specs.Places.{Judges};
ghost use Rattle.zst_plan.specs.RecvPlan.{RecvPlan, Resumes, goes_on, if_plain, is_resumed, resumed_plan, wrong_resume};
ghost use Rattle.zst_model.specs.declared.refusals.plan_fault.PlanFault.{PlanFault as Fault};

use zst_dir::Partial;
use zst_model::features::RESUMING;
use zst_model::{Header, PlanFault, ResumePlace, stated_point};
use zst_names::DatasetName;

// Whether a stream was asked for by a token.
#[tactic(auto, unfolding(zst_model::specs::sends::Features::resuming))]
fn is_resumed(header: &Header) -> bool
    ensures { result ≡ is_resumed header.now }
{
    header.features & RESUMING != 0
}

// Whether a stream goes on where a partial state stands.
fn goes_on(partial: &Partial, header: &Header) -> bool
    ensures { (kept : PlainPartial) → NamesPartial partial.now kept → result ≡ goes_on kept header.now }
{
    let kept = &partial.header;
    kept.to == header.to
        && kept.from == header.from
        && partial.point == stated_point(header.resume)
        && kept.redact.as_slice() == header.redact.as_slice()
        && kept.from_redact.as_slice() == header.from_redact.as_slice()
}

// E15: what the pool keeps, and what the stream states.
fn wrong_resume(partial: &Partial, header: &Header) -> PlanFault
    ensures { (kept : PlainPartial) → NamesPartial partial.now kept → result ≡ wrong_resume kept header.now }
{
    PlanFault::WrongResume {
        have: ResumePlace {
            guid: partial.header.to,
            point: partial.point,
        },
        want: ResumePlace {
            guid: header.to,
            point: stated_point(header.resume),
        },
    }
}

/// E13 where the stream isn't resumed, and E15 where it goes on elsewhere.
pub fn check_resumed(partial: &Partial, header: &Header) -> Result<(), PlanFault>
    ensures { (kept : PlainPartial) → NamesPartial partial.now kept → Judges (resumed_plan header.now kept) (Ok (Resumes kept)) result }
{
    if !is_resumed(header) {
        return Err(PlanFault::PartialExists(partial.target.duplicate()));
    }
    if !goes_on(partial, header) {
        return Err(wrong_resume(partial, header));
    }
    Ok(())
}

/// E14 where the stream is resumed.
pub fn check_plain(target: &DatasetName, header: &Header) -> Result<(), PlanFault>
    ensures { (rest : Result RecvPlan Fault) → Judges (if_plain target.now header.now rest) rest result }
{
    if is_resumed(header) {
        return Err(PlanFault::NoPartial(target.duplicate()));
    }
    Ok(())
}
