// The snapshots beside which rows are walked: the nearest ones before them, which have the most in common with them.
ghost use Rattle.std.specs.Prelude.{ℕ, List};
ghost use Rattle.zst_reach.specs.ReachedSets.{AreMarkedInSet};
ghost use Rattle.zst_roots.specs.ReachedRows.{AreMarkedForSnapshots};
ghost use Rattle.zst_roots.specs.WalkedRows.{AreMarkedIfWalked, IsOfOne, IsOfWalked};

use zst_dir::{Dataset, Dir, Partial, Snapshot};
use zst_names::DatasetName;
use zst_tree::ObjSet;

// The place of the last snapshot of a dataset: those of one dataset stand together, in the order of names.
fn last_of(dir: &Dir, dataset: &DatasetName) -> Option<usize> {
    let rows = dir.snapshots();
    let past = rows.partition_point(|row| row.name.dataset() <= *dataset);
    let place = past.checked_sub(1)?;
    (rows.get(place)?.name.dataset() == *dataset).then_some(place)
}

// The place of the snapshot that a dataset is a clone of.
fn origin_of(dir: &Dir, dataset: &Dataset) -> Option<usize> {
    dir.snapshot(dataset.origin.as_ref()?)
}

/// The place of the snapshot before the one at a place: of its dataset, and before the first of these the dataset's origin.
pub fn before_snapshot(dir: &Dir, place: usize) -> Option<usize> {
    let dataset = dir.snapshots().get(place)?.name.dataset();
    if let Some(before) = place.checked_sub(1) {
        if dir.snapshots().get(before)?.name.dataset() == dataset {
            return Some(before);
        }
    }
    origin_of(dir, dir.datasets().get(dir.dataset(&dataset)?)?)
}

/// The place of the snapshot before a head: the last one of its dataset, or its origin.
pub fn before_head(dir: &Dir, row: &Dataset) -> Option<usize> {
    match last_of(dir, &row.name) {
        Some(place) => Some(place),
        None => origin_of(dir, row),
    }
}

/// The place of the snapshot before a partial state: its base, or the last one of its target.
pub fn before_partial(dir: &Dir, row: &Partial) -> Option<usize> {
    match &row.base {
        Some(base) => dir.snapshot(base),
        None => last_of(dir, &row.target),
    }
}

/// The objects of the snapshot at a place, and none where there is no place.
pub fn objects_at(rows: &[Snapshot], place: Option<usize>) -> ObjSet
    ensures marked { (image marks : List ℕ) (end : ℕ) → AreMarkedForSnapshots image end marks rows.now → AreMarkedInSet image end marks result }
    ensures one { IsOfOne rows.now result }
{
    if let Some(place) = place {
        if place < rows.len() {
            return rows[place].objects;
        }
    }
    ObjSet::empty()
}

/// The objects of the snapshot at a place that was walked, and none where it wasn't.
pub fn walked_at(rows: &[Snapshot], walked: &[bool], place: Option<usize>) -> ObjSet
    ensures marked { (image marks : List ℕ) (end : ℕ) → AreMarkedIfWalked image end marks rows.now walked.now → AreMarkedInSet image end marks result }
    ensures one { IsOfWalked rows.now walked.now result }
{
    if let Some(place) = place {
        if place < rows.len() && place < walked.len() && walked[place] {
            return rows[place].objects;
        }
    }
    ObjSet::empty()
}
