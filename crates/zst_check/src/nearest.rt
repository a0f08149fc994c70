// The snapshots that stand nearest before the states of a directory.
ghost use Rattle.std.specs.Prelude.{◌≡◌, ◌<◌, ◌≤◌, ◌⊎◌, ◌↔◌, ◌+◌, length, HoldsAt, IfSome, MatchOption, Option};
ghost use Rattle.zst_dir.specs.RowNames.{AreNamed, NamesPartial};
ghost use Rattle.zst_model.specs.pools.Ancestry.{IsBase, IsOrigin, Place};
ghost use Rattle.zst_model.specs.pools.Pool.{IsNamed, IsPool, Pool};
ghost use Rattle.zst_model.specs.pools.Pool as plain;
ghost use Rattle.zst_model.specs.pools.Soundness.{Dated};
ghost use Rattle.zst_laws.specs.NearestSnapshots.{IsNearest, IsNearestIn, IsOneBelow};
ghost use Rattle.zst_check.specs.Findings.{IsPlaced, StandsAtPlace};
ghost use Rattle.zst_check.specs.NumbersInTurn.{IsFirstOfDataset, dataset_at};
ghost use Rattle.zst_check.specs.RowTests.{IsLastBelow, stands_below};

use crate::states::State;
use zst_dir::{Dataset, Dir, Partial, Snapshot};
use zst_names::DatasetName;

/// The places of the snapshots that stand nearest before a state: before a partial state there may be two, the one before its
/// target's head, and its base.
#[derive(Clone, Copy)]
pub(crate) struct Nearest {
    pub before: Option<usize>,
    pub base: Option<usize>,
}

/// The place of the snapshot just before the one at a place, where that is of the same dataset.
pub(crate) fn neighbour(dir: &Dir, place: usize) -> Option<usize>
    ensures found { (pool : Pool) → AreNamed dir.now pool → place < length pool.snapshots
        → MatchOption result ((default : plain.Snapshot) → IsFirstOfDataset pool default place)
        (λ before. (before + 1 ≡ place) × ((default : plain.Snapshot) → dataset_at pool default before ≡ dataset_at pool default place)) }
    ensures inside { IfSome result (λ before. before < length dir.now.snapshots) }
{
    let rows = dir.snapshots();
    let before = place.checked_sub(1)?;
    let dataset = rows.get(place)?.name.dataset();
    (rows.get(before)?.name.dataset() == dataset).then_some(before)
}

/// The place of the snapshot that a dataset is a clone of.
pub(crate) fn origin_of(dir: &Dir, dataset: &DatasetName) -> Option<usize>
    ensures origin { (pool : Pool) (origin : plain.Snapshot) → AreNamed dir.now pool → IsOrigin pool origin dataset.now ↔ StandsAtPlace pool.snapshots result origin }
    ensures inside { IfSome result (λ place. place < length dir.now.snapshots) }
{
    let row: &Dataset = dir.datasets().get(dir.dataset(dataset)?)?;
    dir.snapshot(row.origin.as_ref()?)
}

// Whether a snapshot stands before what a dataset has at a number (none: its head).
fn stands_below(row: &Snapshot, dataset: &DatasetName, bound: Option<u64>) -> bool
    ensures { result ≡ stands_below dataset.now bound row.now }
{
    let own = row.name.dataset();
    own < *dataset || own == *dataset && bound.is_none_or(|bound| row.number < bound)
}

// The place of the last snapshot of a dataset below a number: those of one dataset stand together, by number.
fn last_below(dir: &Dir, dataset: &DatasetName, bound: Option<u64>) -> Option<usize>
    ensures { (pool : Pool) → AreNamed dir.now pool → IsNamed pool
        → MatchOption result ((other : plain.Snapshot) → ¬ IsOneBelow pool.snapshots other dataset.now bound)
        (λ place. HoldsAt (λ snapshot. IsLastBelow pool snapshot dataset.now bound) pool.snapshots place) }
{
    let rows = dir.snapshots();
    let past = rows.partition_point(|row| stands_below(row, dataset, bound));
    let place = past.checked_sub(1)?;
    (rows.get(place)?.name.dataset() == *dataset).then_some(place)
}

// The place of the snapshot nearest before what a dataset has at a number: the last below it, or the dataset's origin.
fn nearest_in(dir: &Dir, dataset: &DatasetName, bound: Option<u64>) -> Option<usize>
    ensures { (pool : Pool) (snapshot : plain.Snapshot) → AreNamed dir.now pool → IsNamed pool → Dated pool
        → IsNearestIn pool snapshot dataset.now bound ↔ StandsAtPlace pool.snapshots result snapshot }
{
    last_below(dir, dataset, bound).or_else(|| origin_of(dir, dataset))
}

// The place of the snapshot that a partial state began as.
fn base_of(dir: &Dir, row: &Partial) -> Option<usize>
    ensures { (pool : Pool) (partial : plain.Partial) (base : plain.Snapshot) → AreNamed dir.now pool → IsNamed pool → NamesPartial row.now partial
        → IsBase pool base partial ↔ StandsAtPlace pool.snapshots result base }
{
    dir.snapshot(row.base.as_ref()?)
}

/// The snapshots nearest before a state.
pub(crate) fn nearest_of(dir: &Dir, state: &State<'_>) -> Nearest
    ensures nearest { (pool : Pool) (at : Place) (snapshot : plain.Snapshot) → AreNamed dir.now pool → IsPool pool → Dated pool → IsPlaced pool state.now at
        → IsNearest pool snapshot at ↔ (StandsAtPlace pool.snapshots result.before snapshot ⊎ StandsAtPlace pool.snapshots result.base snapshot) }
{
    match state {
        State::Snapshot { row } => Nearest {
            before: nearest_in(dir, &row.name.dataset(), Some(row.number)),
            base: None,
        },
        State::Head { row } => Nearest {
            before: nearest_in(dir, &row.name, None),
            base: None,
        },
        State::Partial { row } => Nearest {
            // A target that isn't there has no snapshots.
            before: nearest_in(dir, &row.target, None),
            base: base_of(dir, row),
        },
    }
}
