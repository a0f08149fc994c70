// What an ask names, looked up in the directory.
ghost use Rattle.std.specs.Prelude.{◌≡◌, ◌<◌, length, Option, Some, IfOk, IfSome};
ghost use Rattle.std.specs.List.{position};
ghost use Rattle.std.specs.Str.{bytes_eq};
ghost use Rattle.zst_dir.specs.RowNames.{AreNamed, NamesSnapshot};
ghost use Rattle.zst_model.specs.pools.Pool.{Pool, dataset_named, dataset_of_snapshot, snapshot_named};
ghost use Rattle.zst_model.specs.pools.Pool as plain;
ghost use Rattle.zst_model.specs.sends.SendPlan.{find_bookmark, find_redaction, find_snapshot, find_source};
ghost use Rattle.zst_plan.specs.Places.{Answers, AnswersRedaction, AnswersSnapshot, FindAlike, StandsAt};
ghost use Rattle.zst_plan.specs.Sources.{FoundBookmark, FoundDataset, FoundSnapshot, IsInRows, IsSource};

use crate::source::Source;
use zst_dir::{Bookmark, Dataset, Dir, Snapshot};
use zst_model::{AbsentSubject, FromName, Name, PlanFault};
use zst_names::{BookName, SnapName};

/// The place of the snapshot of this name: E3 where there is none.
pub fn find_snapshot(dir: &Dir, name: &SnapName) -> Result<usize, PlanFault>
    ensures finds { AnswersSnapshot dir.now (find_snapshot name.now) result }
    ensures named { IfOk result (λ place. position (λ snapshot. bytes_eq snapshot.name name.now) dir.now.snapshots ≡ Some place) }
{
    dir.snapshot(name).ok_or_else(|| {
        PlanFault::NoSuch(AbsentSubject::Named(Name::Snapshot(name.duplicate())))
    })
}

/// The place of the bookmark of this name: E3 where there is none.
pub fn find_bookmark(dir: &Dir, name: &BookName) -> Result<usize, PlanFault>
    ensures { Answers dir.now (λ place. place < length dir.now.bookmarks) (λ pool. StandsAt dir.now.bookmarks pool.bookmarks) (find_bookmark name.now) result }
{
    dir.bookmark(name).ok_or_else(|| {
        PlanFault::NoSuch(AbsentSubject::Named(Name::Bookmark(name.duplicate())))
    })
}

// The row of this name: E3 where there is none.
fn find_named<'a>(dir: &'a Dir, from: &FromName) -> Result<Source<'a>, PlanFault>
    ensures { Answers dir.now (IsInRows dir.now) (λ pool source. FindAlike (IsSource dir.now pool) (Some source)) (find_source (Some from.now)) result }
{
    match from {
        FromName::Snap(name) => {
            let place = find_snapshot(dir, name)?;
            let row = &dir.snapshots()[place];
            Ok(Source::Snapshot { place, row })
        }
        FromName::Book(name) => {
            let place = find_bookmark(dir, name)?;
            let row = &dir.bookmarks()[place];
            Ok(Source::Bookmark { place, row })
        }
    }
}

/// What the send is from: E3 where it isn't there.
pub fn find_source<'a>(
    dir: &'a Dir,
    from: &Option<FromName>,
) -> Result<Option<Source<'a>>, PlanFault>
    ensures { Answers dir.now (λ source. IfSome source (IsInRows dir.now)) (λ pool. FindAlike (IsSource dir.now pool)) (find_source from.now) result }
{
    from.as_ref().map(|from| find_named(dir, from)).transpose()
}

/// The place of the bookmark of `--redact`: E3 where it isn't there.
pub fn find_redaction(dir: &Dir, redact: &Option<BookName>) -> Result<Option<usize>, PlanFault>
    ensures { AnswersRedaction dir.now (find_redaction redact.now) result }
{
    redact
        .as_ref()
        .map(|name| find_bookmark(dir, name))
        .transpose()
}

/// The dataset that a snapshot is of.
pub fn dataset_of<'a>(dir: &'a Dir, snapshot: &Snapshot) -> Option<&'a Dataset>
    ensures { (pool : Pool) (later : plain.Snapshot) → AreNamed dir.now pool → NamesSnapshot snapshot.now later
        → FindAlike FoundDataset result (dataset_named (dataset_of_snapshot later) pool) }
{
    dir.dataset(&snapshot.name.dataset())
        .map(|place| &dir.datasets()[place])
}

/// The snapshot of this name.
pub fn snapshot_named<'a>(dir: &'a Dir, name: &SnapName) -> Option<&'a Snapshot>
    ensures { (pool : Pool) → AreNamed dir.now pool → FindAlike FoundSnapshot result (snapshot_named name.now pool) }
{
    dir.snapshot(name).map(|place| &dir.snapshots()[place])
}

/// The bookmark at this place, where there is a place.
pub fn bookmark_at(dir: &Dir, place: Option<usize>) -> Option<&Bookmark>
    requires { IfSome place (λ p. p < length dir.now.bookmarks) }
    ensures { (pool : Pool) (bookmark : Option plain.Bookmark) → AreNamed dir.now pool → FindAlike (StandsAt dir.now.bookmarks pool.bookmarks) place bookmark
        → FindAlike FoundBookmark result bookmark }
{
    place.map(|place| &dir.bookmarks()[place])
}
