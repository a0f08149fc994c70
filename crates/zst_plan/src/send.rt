ghost use Rattle.std.specs.Prelude.{◌≡◌, ◌<◌, length, Option, None, Some, IfOk, IfSome};
ghost use Rattle.std.specs.List.{position};
ghost use Rattle.std.specs.Str.{bytes_eq};
ghost use Rattle.zst_dir.specs.RowNames.{AreNamed, NamesSnapshot};
ghost use Rattle.zst_dir.specs.Rows.{Rows};
ghost use Rattle.zst_model.specs.pools.Ancestry as plain;
ghost use Rattle.zst_model.specs.pools.Pool.{Pool, Bookmark as PlainBookmark, Snapshot as PlainSnapshot};
ghost use Rattle.zst_model.specs.sends.Headers.{Sent};
ghost use Rattle.zst_model.specs.sends.SendPlan.{kind_of, send_plan, sent_of};
ghost use Rattle.zst_plan.specs.Places.{AnswerAlike, FindAlike, StandsAt};
ghost use Rattle.zst_plan.specs.Plans.{AnswersPlan, AreInside, IsFrom, IsInside, IsPlanOf, IsSameSend};
ghost use Rattle.zst_plan.specs.Sources.{IsInRows, IsSource};

use crate::checks::{check_before, check_no_relay, check_redaction};
use crate::lookups::{bookmark_at, find_redaction, find_snapshot, find_source};
use crate::plan::{SendPlan, flags_of};
use crate::source::Source;
use zst_dir::{Dir, Snapshot};
use zst_model::{PlanFault, SendAsk};

// A full send's plan as one from this source.
fn with_source(full: SendPlan, source: &Source<'_>) -> SendPlan
    requires full { (full.from_snap ≡ None) × (full.book_f ≡ None) }
    ensures same { IsSameSend full result }
    ensures inside { (rows : Rows) → IsInRows rows source.now
        → IfSome result.from_snap (λ place. place < length rows.snapshots) × IfSome result.book_f (λ place. place < length rows.bookmarks) }
    ensures from { (rows : Rows) (pool : Pool) (from : plain.Source) → IsSource rows pool source.now from → IsFrom rows pool result (Some from) }
{
    let plan = SendPlan {
        from_number: Some(source.number()),
        from_guid: source.guid(),
        ..full
    };
    match source {
        Source::Snapshot { place, .. } => SendPlan {
            from_snap: Some(*place),
            ..plan
        },
        Source::Bookmark { place, .. } => SendPlan {
            book_f: Some(*place),
            ..plan
        },
    }
}

// The plan of what was found and passed its checks.
fn plan_of(
    snap: usize,
    snapshot: &Snapshot,
    source: &Option<Source<'_>>,
    book_t: Option<usize>,
) -> SendPlan
    ensures inside { (rows : Rows) → AreInside rows snap source.now book_t → IsInside rows result }
    ensures snapshot { result.snap ≡ snap }
    ensures plan { (rows : Rows) (pool : Pool) (sent : Sent) → StandsAt rows.snapshots pool.snapshots snap sent.snapshot → NamesSnapshot snapshot.now sent.snapshot
        → FindAlike (IsSource rows pool) source.now sent.source → FindAlike (StandsAt rows.bookmarks pool.bookmarks) book_t sent.redaction
        → sent.kind ≡ kind_of pool sent.snapshot → IsPlanOf rows pool result sent }
{
    let full = SendPlan {
        snap,
        from_number: None,
        from_guid: 0,
        from_snap: None,
        book_f: None,
        book_t,
        flags: flags_of(snapshot, source),
    };
    match source {
        None => full,
        Some(source) => with_source(full, source),
    }
}

/// The plan of what was found: E6 or E7 where it can't be sent, and E19 where a redacted snapshot is to be redacted once more.
pub fn checked_plan(
    dir: &Dir,
    snap: usize,
    source: &Option<Source<'_>>,
    book_t: Option<usize>,
) -> Result<SendPlan, PlanFault>
    requires { AreInside dir.now snap source.now book_t }
    ensures inside { IfOk result (IsInside dir.now) }
    ensures exact { (pool : Pool) (sent : PlainSnapshot) (from : Option plain.Source) (redaction : Option PlainBookmark) → AreNamed dir.now pool
        → StandsAt dir.now.snapshots pool.snapshots snap sent → FindAlike (IsSource dir.now pool) source.now from
        → FindAlike (StandsAt dir.now.bookmarks pool.bookmarks) book_t redaction → AnswerAlike (IsPlanOf dir.now pool) result (sent_of pool sent from redaction) }
    ensures snapshot { IfOk result (λ plan. plan.snap ≡ snap) }
{
    let snapshot = &dir.snapshots()[snap];
    check_before(dir, snapshot, source)?;
    check_redaction(snapshot, bookmark_at(dir, book_t))?;
    check_no_relay(snapshot, bookmark_at(dir, book_t))?;
    Ok(plan_of(snap, snapshot, source, book_t))
}

/// What a send is to give: the places of what the ask names, or the first refusal of its checks.
pub fn send_plan(dir: &Dir, ask: &SendAsk) -> Result<SendPlan, PlanFault>
    ensures plans { AnswersPlan dir.now (send_plan ask.now) result }
    ensures named { IfOk result (λ plan. position (λ snapshot. bytes_eq snapshot.name ask.now.snap) dir.now.snapshots ≡ Some plan.snap) }
{
    let snap = find_snapshot(dir, &ask.snap)?;
    let source = find_source(dir, &ask.from)?;
    let book_t = find_redaction(dir, &ask.redact)?;
    checked_plan(dir, snap, &source, book_t)
}
