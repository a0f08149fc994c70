// Whether a stream may come over a redacted base.
ghost use Rattle.std.specs.Prelude.{◌≡◌, Option, Result, find, not, option_map};
ghost use Rattle.std.specs.List.{list_all};
ghost use Rattle.zst_dir.specs.RowNames.{AreNamed};
ghost use Rattle.zst_model.specs.declared.refusals.plan_fault.PlanFault.{PlanFault as Fault};
ghost use Rattle.zst_model.specs.pools.Pool.{Pool};
ghost use Rattle.zst_plan.specs.Places.{Judges};
ghost use Rattle.zst_plan.specs.Receipts.{IsBaseInside, IsBaseOf};
ghost use Rattle.zst_plan.specs.RecvPlan.{RecvPlan, first_outside, if_contained, is_among, is_contained, is_redacted, outside_guid, redacted_for};
ghost use Rattle.zst_plan.specs.RecvPlan as plain;

use crate::receive::base::{Base, is_full};
use zst_dir::Dir;
use zst_model::features::REDACTED;
use zst_model::{GuidSet, Header, PlanFault};

fn is_among(guids: &[u64], guid: u64) -> bool
    ensures { result ≡ is_among guids.now guid }
{
    guids.contains(&guid)
}

fn are_among(guids: &[u64], stated: &[u64]) -> bool
    ensures { result ≡ list_all (is_among guids.now) stated.now }
{
    stated.iter().all(|guid| is_among(guids, *guid))
}

// Whether a stream may have REDACT records.
#[tactic(auto, unfolding(zst_model::specs::sends::Features::redacts))]
fn is_redacted(header: &Header) -> bool
    ensures { result ≡ is_redacted header.now }
{
    header.features & REDACTED != 0
}

// Whether the blocks that the base lacks are blocks that the stream has.
fn is_contained(guids: &[u64], header: &Header) -> bool
    ensures { result ≡ is_contained guids.now header.now }
{
    let from_redact = header.from_redact.as_slice();
    guids.is_empty()
        || is_full(header)
        || is_among(guids, header.to)
        || is_redacted(header) && are_among(guids, header.redact.as_slice())
        || !from_redact.is_empty() && are_among(guids, from_redact)
}

// The least of the stated guids that isn't among these.
fn find_outside(guids: &[u64], stated: &[u64]) -> Option<u64>
    ensures { result ≡ option_map (λ guid. guid) (find (λ guid. not (is_among guids.now guid)) stated.now) }
{
    stated.iter().find(|guid| !is_among(guids, **guid)).copied()
}

// It, or another where all are.
fn first_outside(guids: &[u64], stated: &[u64], other: u64) -> u64
    ensures { result ≡ first_outside guids.now stated.now other }
{
    find_outside(guids, stated).unwrap_or(other)
}

// The guid that isn't contained.
fn outside_guid(guids: &[u64], header: &Header) -> u64
    ensures { result ≡ outside_guid guids.now header.now }
{
    if is_redacted(header) {
        first_outside(guids, header.redact.as_slice(), header.to)
    } else {
        first_outside(guids, header.from_redact.as_slice(), header.to)
    }
}

// The redaction guids of a base.
fn redacted_for(dir: &Dir, base: &Base) -> GuidSet
    requires { IsBaseInside dir.now base.now }
    ensures { (pool : Pool) (other : plain.Base) → AreNamed dir.now pool → IsBaseOf dir.now pool base.now other → result ≡ redacted_for other.snapshot }
{
    let from = base.snapshot.map(|place| &dir.snapshots()[place]);
    from.map_or_else(GuidSet::empty, |snapshot| snapshot.redact.duplicate())
}

/// E12 where the stream isn't contained in the base.
pub fn check_contained(dir: &Dir, base: &Base, header: &Header) -> Result<(), PlanFault>
    requires { IsBaseInside dir.now base.now }
    ensures { (pool : Pool) (other : plain.Base) (rest : Result RecvPlan Fault) → AreNamed dir.now pool → IsBaseOf dir.now pool base.now other
        → Judges (if_contained other header.now rest) rest result }
{
    let guids = redacted_for(dir, base);
    if !is_contained(guids.as_slice(), header) {
        return Err(PlanFault::NotContained {
            guid: outside_guid(guids.as_slice(), header),
        });
    }
    Ok(())
}
