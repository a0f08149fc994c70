// What a command looks up before it changes anything, in the order of its definition.
ghost use Rattle.std.specs.Prelude.{◌≡◌, ◌+◌, ◌<◌, ◌^◌, ℕ, false, true, Contains, Result, Ok, OnOk, IfErr, IfOk, bytes_eq, count_by, is_none, position};
ghost use Rattle.std.specs.List.{list_any};
ghost use Rattle.zst_names.specs.Names.{dataset_of};
ghost use Rattle.zst_model.specs.pools.Pool.{Pool, Dataset as Plain};
ghost use Rattle.zst_model.specs.declared.refusals.refusal.Refusal.{Refusal};
ghost use Rattle.zst_model.specs.pools.Step.{Stepped, committed, with_dataset, count_datasets};
ghost use Rattle.zst_pool.specs.Checks.{Judges, FindsDataset, if_guid_left, if_new_snapshot, JudgesSnapshot, next_of, with_new, ChecksRows, PlansCommit, JudgesNext, CanTake};
ghost use Rattle.zst_dir.specs.Rows.{HasDataset, HasSnapshot, IsLawful};
ghost use Rattle.zst_pool.specs.Plans.{IsLast, is_by_rows};
ghost use Rattle.zst_dir.specs.RowNames.{AreNamed};

use zst_dir::{Dataset, Dir};
use zst_image::{Body, PoolState};
use zst_model::limits::{LAST_GUID, LAST_NUMBER, MOST_DATASETS, MOST_SNAPSHOTS};
use zst_model::{AbsentSubject, Holder, Name, PlanFault, PresentSubject, Quantity};
use zst_names::{DatasetName, SnapName};

/// E4 where the name is taken, and E23 where there are too many snapshots; partial states count as
/// the snapshots that they are to become.
pub fn check_new_snapshot(dir: &Dir, name: &SnapName) -> Result<(), PlanFault>
    ensures absent { OnOk result (HasSnapshot dir.now name.now → ⊥) }
    ensures checks { ChecksRows dir.now (JudgesNext (if_new_snapshot name.now)) result }
{
    if dir.snapshot(name).is_some() {
        return Err(PlanFault::Exists(PresentSubject::Named(Name::Snapshot(name.duplicate()))));
    }
    if dir.snapshots().len() + dir.partials().len() >= MOST_SNAPSHOTS {
        return Err(PlanFault::Limit {
            which: Quantity::Snapshots,
            number: MOST_SNAPSHOTS as u64,
        });
    }
    Ok(())
}

/// E23 where no guid is left.
pub fn check_guids(body: &Body) -> Result<(), PlanFault>
    ensures below { OnOk result (body.now.uber.guids + 1 < 2 ^ 32) }
    ensures rows { IfErr result (λ fault. is_by_rows fault ≡ true) }
    ensures judged { (rest : Result Stepped Refusal) → Judges (if_guid_left body.now.uber.guids rest) rest result }
{
    let guids = body.uber().guids;
    if guids >= LAST_GUID {
        return Err(PlanFault::Limit {
            which: Quantity::Guids,
            number: LAST_GUID,
        });
    }
    Ok(())
}

/// Whether a partial state is for this dataset.
pub fn has_partial(dir: &Dir, name: &DatasetName) -> bool
    ensures { result ≡ list_any (λ partial. bytes_eq partial.target name.now) dir.now.partials }
{
    dir.partials().iter().any(|partial| partial.target == *name)
}

/// The dataset of this name: E3 where there is none, and E5 where it has a partial state.
pub fn open_dataset<'a>(dir: &'a Dir, name: &DatasetName) -> Result<&'a Dataset, PlanFault>
    ensures lawful { IsLawful dir.now }
    ensures there { IfOk result (λ row. Contains dir.now.datasets row.now × (row.now.name ≡ name.now)) }
    ensures free { OnOk result (list_any (λ partial. bytes_eq partial.target name.now) dir.now.partials ≡ false) }
    ensures finds { ChecksRows dir.now (FindsDataset dir.now name.now) result }
{
    let datasets = dir.datasets();
    let place = match dir.dataset(name) {
        None => return Err(no_such(name)),
        Some(place) => place,
    };
    if has_partial(dir, name) {
        return Err(busy_partial(name));
    }
    Ok(&datasets[place])
}

/// E3 of a dataset.
pub fn no_such(name: &DatasetName) -> PlanFault
    ensures { result ≡ PlanFault.NoSuch (AbsentSubject.Named (Name.Dataset name.now)) }
{
    PlanFault::NoSuch(AbsentSubject::Named(Name::Dataset(name.duplicate())))
}

/// E5 of a partial state of this target.
pub fn busy_partial(name: &DatasetName) -> PlanFault
    ensures { result ≡ PlanFault.Busy (Holder.Partial name.now) }
{
    PlanFault::Busy(Holder::Partial(name.duplicate()))
}

/// How many partial states are for datasets that are absent.
fn count_absent(dir: &Dir) -> usize
    ensures all { result ≡ count_by (λ partial. is_none (position (λ dataset. bytes_eq dataset.name partial.target) dir.now.datasets)) dir.now.partials }
    ensures few { result < 2 ^ 63 }
{
    dir.partials()
        .iter()
        .filter(|partial| dir.dataset(&partial.target).is_none())
        .count()
}

/// How many datasets there are, with those of which there is a partial state alone.
pub fn count_datasets(dir: &Dir) -> usize
    ensures { (pool : Pool) → AreNamed dir.now pool → result ≡ count_datasets pool }
{
    dir.datasets().len() + count_absent(dir)
}

/// E4 where the name is taken, and E23 where there are too many datasets.
pub fn check_new_dataset(dir: &Dir, name: &DatasetName) -> Result<(), PlanFault>
    ensures absent { OnOk result (HasDataset dir.now name.now → ⊥) }
    ensures checks { ChecksRows dir.now (λ pool answer. (dataset : Plain) → dataset.name ≡ name.now → Judges (with_dataset dataset pool) (committed (with_new dataset pool)) answer) result }
{
    if dir.dataset(name).is_some() {
        return Err(exists_already(name));
    }
    if has_partial(dir, name) {
        return Err(exists_already(name));
    }
    if count_datasets(dir) >= MOST_DATASETS {
        return Err(PlanFault::Limit {
            which: Quantity::Datasets,
            number: MOST_DATASETS as u64,
        });
    }
    Ok(())
}

fn exists_already(name: &DatasetName) -> PlanFault
    ensures { result ≡ PlanFault.Exists (PresentSubject.Named (Name.Dataset name.now)) }
{
    PlanFault::Exists(PresentSubject::Named(Name::Dataset(name.duplicate())))
}

/// E23 where the last commit was made.
pub fn check_number(body: &Body) -> Result<(), PlanFault>
    ensures below { OnOk result (body.now.uber.number < 2 ^ 63) }
    ensures last { IfErr result (IsLast body.now.uber.number) }
    ensures judged { (pool : Pool) → pool.number ≡ body.now.uber.number → Judges (committed pool) (Ok (next_of pool)) result }
{
    let number = body.uber().number;
    if number >= LAST_NUMBER {
        return Err(PlanFault::Limit {
            which: Quantity::Number,
            number: LAST_NUMBER,
        });
    }
    Ok(())
}

/// The dataset of a new snapshot, or the first refusal of its definition.
pub fn plan_snapshot<'a>(kept: &'a PoolState, name: &SnapName) -> Result<&'a Dataset, PlanFault>
    ensures lawful { IsLawful kept.now.dir }
    ensures there { IfOk result (λ row. Contains kept.now.dir.datasets row.now × (row.now.name ≡ dataset_of 64 name.now)) }
    ensures can { OnOk result (CanTake kept.now.dir name.now) }
    ensures guids { OnOk result (kept.now.body.uber.guids + 1 < 2 ^ 32) }
    ensures plans { PlansCommit kept.now (λ pool answer. (now : ℕ) → pool.guids ≡ kept.now.body.uber.guids → JudgesSnapshot kept.now.dir now name.now pool answer) result }
{
    let dataset = open_dataset(&kept.dir, &name.dataset())?;
    check_new_snapshot(&kept.dir, name)?;
    check_guids(&kept.body)?;
    check_number(&kept.body)?;
    Ok(dataset)
}
