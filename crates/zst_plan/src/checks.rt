// What is checked of a send once its snapshot, its source and its bookmark are found.
ghost use Rattle.std.specs.Prelude.{◌≡◌, Option, Result};
ghost use Rattle.zst_dir.specs.RowNames.{AreNamed, NamesBookmark, NamesSnapshot};
ghost use Rattle.zst_model.specs.pools.Ancestry as plain;
ghost use Rattle.zst_model.specs.pools.Pool.{Pool, Bookmark as PlainBookmark, Snapshot as PlainSnapshot};
ghost use Rattle.zst_model.specs.sends.Headers.{Sent};
ghost use Rattle.zst_model.specs.sends.SendPlan.{has_guids, if_before, if_no_relay, if_redaction, redacts_snapshot};
ghost use Rattle.zst_plan.specs.Places.{FindAlike, Judges};
ghost use Rattle.zst_plan.specs.Sources.{FoundBookmark, NamesSource};

use crate::origin_walk::comes_before;
use crate::source::Source;
use zst_dir::{Bookmark, Dir, Snapshot};
use zst_model::{GuidSet, Lack, Name, PlanFault};

/// E6 where the source doesn't stand before the snapshot.
pub fn check_before(
    dir: &Dir,
    snapshot: &Snapshot,
    source: &Option<Source<'_>>,
) -> Result<(), PlanFault>
    ensures { (pool : Pool) (to : PlainSnapshot) (from : Option plain.Source) (rest : Result Sent PlanFault) → AreNamed dir.now pool → NamesSnapshot snapshot.now to
        → FindAlike NamesSource source.now from → Judges (if_before pool to from rest) rest result }
{
    match source {
        Some(source) if !comes_before(dir, source, snapshot) => Err(PlanFault::NotAncestor {
            to: Name::Snapshot(snapshot.name.duplicate()),
            from: source.name(),
        }),
        _ => Ok(()),
    }
}

/// Whether there are redaction guids.
pub fn has_guids(guids: &GuidSet) -> bool
    ensures { result ≡ has_guids guids.now }
{
    !guids.as_slice().is_empty()
}

// Whether a bookmark is a redaction bookmark of this snapshot.
fn redacts_snapshot(bookmark: &Bookmark, snapshot: &Snapshot) -> bool
    ensures { (list : PlainBookmark) (to : PlainSnapshot) → NamesBookmark bookmark.now list → NamesSnapshot snapshot.now to → result ≡ redacts_snapshot list to }
{
    has_guids(&bookmark.redact) && bookmark.guid == snapshot.guid
}

/// E7 where the bookmark isn't a redaction bookmark of the snapshot.
pub fn check_redaction(snapshot: &Snapshot, redaction: Option<&Bookmark>) -> Result<(), PlanFault>
    ensures { (to : PlainSnapshot) (list : Option PlainBookmark) (rest : Result Sent PlanFault) → NamesSnapshot snapshot.now to
        → FindAlike FoundBookmark redaction.entry list → Judges (if_redaction to list rest) rest result }
{
    match redaction {
        Some(bookmark) if !redacts_snapshot(bookmark, snapshot) => {
            Err(PlanFault::NotRedactionOf {
                bookmark: bookmark.name.duplicate(),
                snapshot: snapshot.name.duplicate(),
            })
        }
        _ => Ok(()),
    }
}

/// E19 where a snapshot that is redacted already is to be redacted once more.
pub fn check_no_relay(snapshot: &Snapshot, redaction: Option<&Bookmark>) -> Result<(), PlanFault>
    ensures { (to : PlainSnapshot) (list : Option PlainBookmark) (rest : Result Sent PlanFault) → NamesSnapshot snapshot.now to
        → FindAlike FoundBookmark redaction.entry list → Judges (if_no_relay to list rest) rest result }
{
    match redaction {
        Some(_) if has_guids(&snapshot.redact) => Err(PlanFault::Unsupported(Lack::Relay)),
        _ => Ok(()),
    }
}
