// What a token names, looked up in the directory.
ghost use Rattle.std.specs.Prelude.{◌≡◌, ◌<◌, ◌==◌, ◌&&◌, length, IfOk, IfSome};
ghost use Rattle.std.specs.List.{position};
ghost use Rattle.std.specs.Str.{bytes_eq};
ghost use Rattle.zst_dir.specs.RowNames.{AreNamed, NamesSnapshot};
ghost use Rattle.zst_model.specs.pools.Ancestry as plain;
ghost use Rattle.zst_model.specs.pools.Pool.{Pool, Snapshot as PlainSnapshot};
ghost use Rattle.zst_plan.specs.Places.{AnswerAlike, AnswersRedaction, AnswersSnapshot, FindAlike, StandsAt};
ghost use Rattle.zst_plan.specs.Plans.{AnswersPlan};
ghost use Rattle.zst_plan.specs.ResumePlan.{find_from, find_mark, find_marked, find_to, first_bookmark, first_from, first_snapshot, is_from, no_guid, resumed_send};
ghost use Rattle.zst_plan.specs.Sources.{FindsFirst, IsInRows, IsSource, NamesSource};

use crate::checks::has_guids;
use crate::origin_walk::comes_before;
use crate::plan::SendPlan;
use crate::send::checked_plan;
use crate::source::Source;
use zst_dir::{Dir, Snapshot};
use zst_model::{AbsentSubject, PlanFault};
use zst_token::Token;

// E3: nothing has this guid and what else the token states.
fn no_guid(guid: u64) -> PlanFault
    ensures { result ≡ no_guid guid }
{
    PlanFault::NoSuch(AbsentSubject::Guid(guid))
}

// The place of the snapshot that is sent: the first with the token's to guid.
fn find_to(dir: &Dir, token: &Token) -> Result<usize, PlanFault>
    ensures finds { AnswersSnapshot dir.now (find_to token.now) result }
    ensures to { IfOk result (λ place. position (λ snapshot. snapshot.guid == token.now.to) dir.now.snapshots ≡ Some place) }
{
    dir.by_guid(token.to).ok_or(no_guid(token.to))
}

// Whether the source has the token's from guid and from-redaction guids and stands before the snapshot.
fn is_from(dir: &Dir, token: &Token, to: &Snapshot, source: &Source<'_>) -> bool
    ensures { (pool : Pool) (later : PlainSnapshot) (from : plain.Source) → AreNamed dir.now pool → NamesSnapshot to.now later → NamesSource source.now from
        → result ≡ is_from token.now pool later from }
{
    source.guid() == token.from
        && source.redact().as_slice() == token.from_redact.as_slice()
        && comes_before(dir, source, to)
}

// The first such snapshot.
fn first_snapshot<'a>(dir: &'a Dir, token: &Token, to: &Snapshot) -> Option<Source<'a>>
    ensures { FindsFirst dir.now to.now (first_snapshot token.now) result }
{
    for place in 0..dir.snapshots().len() {
        let row = &dir.snapshots()[place];
        let source = Source::Snapshot { place, row };
        if is_from(dir, token, to, &source) {
            return Some(source);
        }
    }
    None
}

// The first such bookmark.
fn first_bookmark<'a>(dir: &'a Dir, token: &Token, to: &Snapshot) -> Option<Source<'a>>
    ensures { FindsFirst dir.now to.now (first_bookmark token.now) result }
{
    for place in 0..dir.bookmarks().len() {
        let row = &dir.bookmarks()[place];
        let source = Source::Bookmark { place, row };
        if is_from(dir, token, to, &source) {
            return Some(source);
        }
    }
    None
}

// The snapshot, or else the bookmark.
fn first_from<'a>(dir: &'a Dir, token: &Token, to: &Snapshot) -> Option<Source<'a>>
    ensures { FindsFirst dir.now to.now (first_from token.now) result }
{
    first_snapshot(dir, token, to).or_else(|| first_bookmark(dir, token, to))
}

// What the send is from; where the from guid is 0 it is from nothing.
fn find_from<'a>(
    dir: &'a Dir,
    token: &Token,
    to: &Snapshot,
) -> Result<Option<Source<'a>>, PlanFault>
    ensures inside { IfOk result (λ source. IfSome source (IsInRows dir.now)) }
    ensures found { (pool : Pool) (later : PlainSnapshot) → AreNamed dir.now pool → NamesSnapshot to.now later
        → AnswerAlike (FindAlike (IsSource dir.now pool)) result (find_from token.now pool later) }
{
    if token.from == 0 {
        return Ok(None);
    }
    first_from(dir, token, to)
        .map(Some)
        .ok_or(no_guid(token.from))
}

// The place of the first bookmark with the token's to guid and redaction guids.
fn first_marked(dir: &Dir, token: &Token) -> Option<usize>
    ensures { result ≡ position (λ bookmark. bookmark.guid == token.now.to && bytes_eq bookmark.redact token.now.redact) dir.now.bookmarks }
{
    dir.bookmarks().iter().position(|bookmark| {
        bookmark.guid == token.to && bookmark.redact.as_slice() == token.redact.as_slice()
    })
}

// The place of the first bookmark with the token's to guid and redaction guids: E3 where there is none, and where the token has no
// redaction guids.
fn find_mark(dir: &Dir, token: &Token) -> Result<Option<usize>, PlanFault>
    ensures { AnswersRedaction dir.now (find_mark token.now) result }
{
    let fault = no_guid(token.to);
    if !has_guids(&token.redact) {
        return Err(fault);
    }
    first_marked(dir, token).map(Some).ok_or(fault)
}

// Whether the snapshot has the token's redaction guids itself.
fn is_redacted_alike(token: &Token, to: &Snapshot) -> bool
    ensures { result ≡ bytes_eq to.now.redact token.now.redact }
{
    to.redact.as_slice() == token.redact.as_slice()
}

// The place of the redaction bookmark, which a snapshot that has the token's redaction guids itself needs none of.
fn find_marked(dir: &Dir, token: &Token, to: &Snapshot) -> Result<Option<usize>, PlanFault>
    ensures inside { IfOk result (λ place. IfSome place (λ p. p < length dir.now.bookmarks)) }
    ensures found { (pool : Pool) (later : PlainSnapshot) → AreNamed dir.now pool → NamesSnapshot to.now later
        → AnswerAlike (FindAlike (StandsAt dir.now.bookmarks pool.bookmarks)) result (find_marked token.now pool later) }
{
    if is_redacted_alike(token, to) {
        return Ok(None);
    }
    find_mark(dir, token)
}

/// What a send from a token is to give: the places of what the token names, or the first refusal
/// of its checks.
pub fn resume_plan(dir: &Dir, token: &Token) -> Result<SendPlan, PlanFault>
    ensures plans { AnswersPlan dir.now (resumed_send token.now) result }
    // Whatever the object sets hold, the snapshot is the first with the token's to guid.
    ensures to { IfOk result (λ plan. position (λ snapshot. snapshot.guid == token.now.to) dir.now.snapshots ≡ Some plan.snap) }
{
    let snap = find_to(dir, token)?;
    let snapshot = &dir.snapshots()[snap];
    let source = find_from(dir, token, snapshot)?;
    let book_t = find_marked(dir, token, snapshot)?;
    checked_plan(dir, snap, &source, book_t)
}
