// What clone, bookmark, rollback and destroy look up before they change anything.
ghost use Rattle.std.specs.Prelude.{◌≡◌, ◌≢◌, ◌<◌, ◌&&◌, ◌||◌, List, true, All, Contains, Some, Result, OnOk, IfErr, IfOk, bytes_eq, find, option_map};
ghost use Rattle.std.specs.List.{list_any};
ghost use Rattle.zst_model.specs.pools.Pool as plain;
ghost use Rattle.zst_model.specs.declared.refusals.refusal.Refusal.{Refusal};
ghost use Rattle.zst_model.specs.pools.Step.{Stepped, unless_used};
ghost use Rattle.zst_dir.specs.Removal.{AreUnused, names_going, takes_snapshot};
ghost use Rattle.zst_dir.specs.Rows.{IsBookmarkRow, IsDatasetRow, IsSnapshotRow};
ghost use Rattle.zst_pool.specs.Checks.{Judges, ChecksRows, PlansCommit, JudgesNext};
ghost use Rattle.zst_pool.specs.Lineage.{AreGoing, FindsGoing, FindsSnapshot, FindsSource, JudgesBookmark, JudgesClone, JudgesDestroyed, bookmark_row, clone_row, going_of, if_few_bookmarks, if_free_bookmark, if_new_bookmark, if_of_dataset, is_on, is_there, may_go, IsNewDataset, IsNewBookmark};
ghost use Rattle.zst_pool.specs.Plans.{is_by_rows};
ghost use Rattle.zst_pool.specs.Redactions.{snapshot_row};
ghost use Rattle.zst_pool.specs.RowChanges.{MakesRow};

use crate::checks::{check_new_dataset, check_number, no_such};
use zst_block::Ptr;
use zst_dir::{Bookmark, Dataset, Dir, Removal, Snapshot};
use zst_image::PoolState;
use zst_model::limits::MOST_BOOKMARKS;
use zst_model::{AbsentSubject, GuidSet, Holder, Name, PlanFault, PresentSubject, Quantity};
use zst_names::{BookName, DatasetName, SnapName};

// Whether there is a row of this name.
fn is_there(dir: &Dir, name: &Name) -> bool
    ensures { result ≡ is_there name.now dir.now }
{
    match name {
        Name::Dataset(name) => dir.dataset(name).is_some(),
        Name::Snapshot(name) => dir.snapshot(name).is_some(),
        Name::Bookmark(name) => dir.bookmark(name).is_some(),
    }
}

// What goes where this name is destroyed.
fn going_of(name: Name) -> Removal
    ensures { result ≡ going_of name }
{
    match name {
        Name::Dataset(name) => Removal::Dataset(name),
        Name::Snapshot(name) => Removal::Snapshot(name),
        Name::Bookmark(name) => Removal::Bookmark(name),
    }
}

// What goes where this name is destroyed: E3 where there is none.
fn find_going(dir: &Dir, name: Name) -> Result<Removal, PlanFault>
    ensures finds { ChecksRows dir.now (FindsGoing name dir.now) result }
{
    if !is_there(dir, &name) {
        return Err(PlanFault::NoSuch(AbsentSubject::Named(name)));
    }
    Ok(going_of(name))
}

// Whether a partial state of this target is one of a dataset that goes, or that loses what is newer.
fn is_on(going: &Removal, target: &DatasetName) -> bool
    ensures { result ≡ is_on going.now target.now }
{
    match going {
        Removal::Dataset(name) => *target == *name,
        Removal::Newer { dataset, .. } => *target == *dataset,
        Removal::Snapshot(_) | Removal::Bookmark(_) => false,
    }
}

// Whether a snapshot of this name may go.
fn may_go(going: &Removal, name: &SnapName) -> bool
    ensures { result ≡ may_go going.now name.now }
{
    match going {
        Removal::Dataset(dataset) => name.dataset() == *dataset,
        Removal::Snapshot(snapshot) => *name == *snapshot,
        Removal::Bookmark(_) => false,
        Removal::Newer { dataset, .. } => name.dataset() == *dataset,
    }
}

// Whether the snapshot of this name goes. Its row is looked for only where it may.
#[tactic(auto, using(crate::proofs::SnapshotRemovals::going_may_go))]
fn is_going(dir: &Dir, going: &Removal, name: &SnapName) -> bool
    ensures { result ≡ list_any (λ snapshot. takes_snapshot going.now snapshot && bytes_eq snapshot.name name.now) dir.now.snapshots }
{
    may_go(going, name)
        && dir.snapshots().iter().any(|snapshot| snapshot.name == *name
            && going.takes_snapshot(snapshot))
}

// Whether a name that may be none is that of a snapshot that goes.
fn names_going(dir: &Dir, going: &Removal, name: &Option<SnapName>) -> bool
    ensures { result ≡ names_going going.now dir.now name.now }
{
    match name {
        None => false,
        Some(name) => is_going(dir, going, name),
    }
}

// The target of the first partial state that holds what goes.
fn holding_partial(dir: &Dir, going: &Removal) -> Option<DatasetName>
    ensures { result ≡ option_map (λ partial. partial.target) (find (λ partial. is_on going.now partial.target || names_going going.now dir.now partial.base) dir.now.partials) }
{
    dir.partials()
        .iter()
        .find(|partial| is_on(going, &partial.target) || names_going(dir, going, &partial.base))
        .map(|partial| partial.target.duplicate())
}

// The first clone of what goes.
fn holding_clone(dir: &Dir, going: &Removal) -> Option<DatasetName>
    ensures { result ≡ option_map (λ dataset. dataset.name) (find (λ dataset. names_going going.now dir.now dataset.origin) dir.now.datasets) }
{
    dir.datasets()
        .iter()
        .find(|dataset| names_going(dir, going, &dataset.origin))
        .map(|dataset| dataset.name.duplicate())
}

/// E5 where a partial state or a clone holds what goes.
pub fn check_unused(dir: &Dir, going: &Removal) -> Result<(), PlanFault>
    ensures unused { OnOk result (AreUnused going.now dir.now) }
    ensures checks { ChecksRows dir.now (λ pool answer. (gone : List plain.Snapshot) → AreGoing going.now dir.now gone → JudgesNext (unless_used (λ partial. is_on going.now partial.target) gone) pool answer) result }
{
    if let Some(target) = holding_partial(dir, going) {
        return Err(PlanFault::Busy(Holder::Partial(target)));
    }
    if let Some(clone) = holding_clone(dir, going) {
        return Err(PlanFault::Busy(Holder::Clone(clone)));
    }
    Ok(())
}

/// What goes where this name is destroyed, or the first refusal of its definition.
pub fn plan_destroy(kept: &PoolState, name: Name) -> Result<Removal, PlanFault>
    ensures unused { IfOk result (λ going. AreUnused going kept.now.dir) }
    ensures plans { PlansCommit kept.now (JudgesDestroyed name) result }
{
    let going = find_going(&kept.dir, name)?;
    check_unused(&kept.dir, &going)?;
    check_number(&kept.body)?;
    Ok(going)
}

/// E3 of a snapshot.
pub fn no_snapshot(name: &SnapName) -> PlanFault
    ensures { result ≡ PlanFault.NoSuch (AbsentSubject.Named (Name.Snapshot name.now)) }
{
    PlanFault::NoSuch(AbsentSubject::Named(Name::Snapshot(name.duplicate())))
}

/// The snapshot of this name: E3 where there is none.
pub fn find_snapshot<'a>(dir: &'a Dir, name: &SnapName) -> Result<&'a Snapshot, PlanFault>
    ensures there { IfOk result (λ row. Contains dir.now.snapshots row.now × (row.now.name ≡ name.now)) }
    ensures row { IfOk result (λ row. IsSnapshotRow row.now) }
    ensures found { IfOk result (λ row. snapshot_row name.now dir.now ≡ Some row.now) }
    ensures finds { ChecksRows dir.now (FindsSnapshot dir.now name.now) result }
{
    let _lawful = dir.datasets();
    let snapshots = dir.snapshots();
    match dir.snapshot(name) {
        None => Err(no_snapshot(name)),
        Some(place) => Ok(&snapshots[place]),
    }
}

// The dataset of this name, whether it has a partial state or not: E3 where there is none.
fn find_source<'a>(dir: &'a Dir, name: &DatasetName) -> Result<&'a Dataset, PlanFault>
    ensures row { IfOk result (λ row. IsDatasetRow row.now) }
    ensures finds { ChecksRows dir.now (FindsSource dir.now name.now) result }
{
    let datasets = dir.datasets();
    match dir.dataset(name) {
        None => Err(no_such(name)),
        Some(place) => Ok(&datasets[place]),
    }
}

// The row of a clone of a snapshot of this dataset.
fn clone_row(name: &DatasetName, source: &Dataset, snapshot: &Snapshot) -> Dataset
    requires source { IsDatasetRow source.now }
    requires snapshot { IsSnapshotRow snapshot.now }
    ensures makes { MakesRow IsDatasetRow (clone_row name.now source.now snapshot.now) result }
{
    Dataset {
        name: name.duplicate(),
        kind: source.kind,
        origin: Some(snapshot.name.duplicate()),
        head: snapshot.objects,
        redact: snapshot.redact.duplicate(),
    }
}

/// The row of a clone of a snapshot, or the first refusal of its definition.
pub fn plan_clone(
    kept: &PoolState,
    origin: &SnapName,
    name: &DatasetName,
) -> Result<Dataset, PlanFault>
    ensures new { IfOk result (IsNewDataset kept.now.dir name.now) }
    ensures plans { PlansCommit kept.now (JudgesClone kept.now.dir origin.now name.now) result }
{
    let snapshot = find_snapshot(&kept.dir, origin)?;
    let source = find_source(&kept.dir, &origin.dataset())?;
    check_new_dataset(&kept.dir, name)?;
    check_number(&kept.body)?;
    Ok(clone_row(name, source, snapshot))
}

/// E6 where a bookmark is not of the snapshot's dataset.
pub fn check_dataset(snapshot: &SnapName, name: &BookName) -> Result<(), PlanFault>
    ensures rows { IfErr result (λ fault. is_by_rows fault ≡ true) }
    ensures judged { (rest : Result Stepped Refusal) → Judges (if_of_dataset snapshot.now name.now rest) rest result }
{
    if snapshot.dataset() != name.dataset() {
        return Err(PlanFault::NotAncestor {
            to: Name::Bookmark(name.duplicate()),
            from: Name::Snapshot(snapshot.duplicate()),
        });
    }
    Ok(())
}

/// E4 where a bookmark has the name.
pub fn check_free_bookmark(dir: &Dir, name: &BookName) -> Result<(), PlanFault>
    ensures absent { OnOk result (All (λ other. other.name ≢ name.now) dir.now.bookmarks) }
    ensures checks { ChecksRows dir.now (JudgesNext (if_free_bookmark name.now)) result }
{
    if dir.bookmark(name).is_some() {
        return Err(PlanFault::Exists(PresentSubject::Named(Name::Bookmark(name.duplicate()))));
    }
    Ok(())
}

/// E23 where there are too many bookmarks.
pub fn check_few_bookmarks(dir: &Dir) -> Result<(), PlanFault>
    ensures checks { ChecksRows dir.now (JudgesNext if_few_bookmarks) result }
{
    if dir.bookmarks().len() >= MOST_BOOKMARKS {
        return Err(PlanFault::Limit {
            which: Quantity::Bookmarks,
            number: MOST_BOOKMARKS as u64,
        });
    }
    Ok(())
}

// E4 where the name is taken, and E23 where there are too many bookmarks.
fn check_new_bookmark(dir: &Dir, name: &BookName) -> Result<(), PlanFault>
    ensures absent { OnOk result (All (λ other. other.name ≢ name.now) dir.now.bookmarks) }
    ensures checks { ChecksRows dir.now (JudgesNext (if_new_bookmark name.now)) result }
{
    check_free_bookmark(dir, name)?;
    check_few_bookmarks(dir)
}

// The row of a bookmark of a snapshot: it has no list.
fn bookmark_row(name: &BookName, snapshot: &Snapshot) -> Bookmark
    requires { IsSnapshotRow snapshot.now }
    ensures makes { MakesRow IsBookmarkRow (bookmark_row name.now snapshot.now) result }
{
    Bookmark {
        name: name.duplicate(),
        guid: snapshot.guid,
        time: snapshot.time,
        number: snapshot.number,
        redact: GuidSet::empty(),
        runs: 0,
        levels: 0,
        root: Ptr::hole(0),
    }
}

/// The row of a bookmark of a snapshot, or the first refusal of its definition.
pub fn plan_bookmark(
    kept: &PoolState,
    snapshot: &SnapName,
    name: &BookName,
) -> Result<Bookmark, PlanFault>
    ensures new { IfOk result (IsNewBookmark kept.now.dir name.now) }
    ensures plans { PlansCommit kept.now (JudgesBookmark kept.now.dir snapshot.now name.now) result }
{
    let row = find_snapshot(&kept.dir, snapshot)?;
    check_dataset(snapshot, name)?;
    check_new_bookmark(&kept.dir, name)?;
    check_number(&kept.body)?;
    Ok(bookmark_row(name, row))
}
