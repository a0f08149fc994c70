// Whether the snapshot's name is free, and the pool has room.
ghost use Rattle.std.specs.Prelude.{◌≡◌, ◌<◌, ◌^◌, Result, OnOk, count_by, is_none};
ghost use Rattle.std.specs.List.{position};
ghost use Rattle.std.specs.Str.{bytes_eq};
ghost use Rattle.zst_dir.specs.RowNames.{AreNamed};
ghost use Rattle.zst_dir.specs.Rows.{HasSnapshot};
ghost use Rattle.zst_model.specs.declared.refusals.plan_fault.PlanFault.{PlanFault as Fault};
ghost use Rattle.zst_model.specs.pools.Pool.{Pool};
ghost use Rattle.zst_model.specs.pools.Step.{count_datasets};
ghost use Rattle.zst_plan.specs.Places.{Judges};
ghost use Rattle.zst_plan.specs.RecvPlan.{RecvPlan, if_new, if_room, if_within, new_datasets};

use zst_dir::Dir;
use zst_model::limits::{MOST_DATASETS, MOST_PARTIALS, MOST_SNAPSHOTS};
use zst_model::{Name, PlanFault, PresentSubject, Quantity};
use zst_names::{DatasetName, SnapName};

/// E4 where the dataset has a snapshot of this name.
pub fn check_new(dir: &Dir, name: &SnapName) -> Result<(), PlanFault>
    ensures exact { (pool : Pool) (rest : Result RecvPlan Fault) → AreNamed dir.now pool → Judges (if_new name.now pool rest) rest result }
    ensures new { OnOk result (HasSnapshot dir.now name.now → ⊥) }
{
    if dir.snapshot(name).is_some() {
        return Err(PlanFault::Exists(PresentSubject::Named(Name::Snapshot(name.duplicate()))));
    }
    Ok(())
}

// How many partial states are for datasets that are absent.
fn count_absent(dir: &Dir) -> usize
    ensures all { result ≡ count_by (λ partial. is_none (position (λ dataset. bytes_eq dataset.name partial.target) dir.now.datasets)) dir.now.partials }
    ensures few { result < 2 ^ 62 }
{
    dir.partials()
        .iter()
        .filter(|partial| dir.dataset(&partial.target).is_none())
        .count()
}

// How many datasets there are, with those of which there is a partial state alone.
fn count_datasets(dir: &Dir) -> usize
    ensures many { (pool : Pool) → AreNamed dir.now pool → result ≡ count_datasets pool }
    ensures few { result < 2 ^ 63 }
{
    dir.datasets().len() + count_absent(dir)
}

// A target that isn't there yet counts as a dataset.
fn new_datasets(dir: &Dir, target: &DatasetName) -> usize
    ensures new { (pool : Pool) → AreNamed dir.now pool → result ≡ new_datasets target.now pool }
    ensures few { result < 2 }
{
    match dir.dataset(target) {
        Some(_) => 0,
        None => 1,
    }
}

// E23 where a quantity would pass its limit.
fn check_within(which: Quantity, most: usize, quantity: usize) -> Result<(), PlanFault>
    ensures { (rest : Result RecvPlan Fault) → Judges (if_within which most quantity rest) rest result }
{
    if quantity > most {
        return Err(PlanFault::Limit {
            which,
            number: most as u64,
        });
    }
    Ok(())
}

/// E23 where there are too many partial states, datasets or snapshots, among which partial states count.
pub fn check_room(dir: &Dir, target: &DatasetName) -> Result<(), PlanFault>
    ensures { (pool : Pool) (rest : Result RecvPlan Fault) → AreNamed dir.now pool → Judges (if_room target.now pool rest) rest result }
{
    let partials = dir.partials().len() + 1;
    check_within(Quantity::Partials, MOST_PARTIALS, partials)?;
    let datasets = count_datasets(dir) + new_datasets(dir, target);
    check_within(Quantity::Datasets, MOST_DATASETS, datasets)?;
    let snapshots = dir.snapshots().len() + partials;
    check_within(Quantity::Snapshots, MOST_SNAPSHOTS, snapshots)
}
