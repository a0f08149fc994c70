// The directories that a receive commits.
ghost use Rattle.std.specs.Prelude.{◌≡◌, ◌+◌, ◌<◌, ◌≤◌, ◌^◌, ℕ, IfErr, IfOk, IfSome, OnOk, if◌then◌else◌, length};
ghost use Rattle.zst_model.specs.declared.refusals.faults.Quantity.{Quantity};
ghost use Rattle.zst_model.specs.declared.refusals.plan_fault.PlanFault.TheVariants.{Limit};
ghost use Rattle.zst_model.specs.pools.Pool.{Pool as Plain};
ghost use Rattle.zst_dir.specs.Rows.{IsSnapshotRow};
ghost use Rattle.zst_dir.specs.Spelling.{dir_bytes};
ghost use Rattle.zst_pool.specs.PartialRows.{CanPut, JudgesLimits, latest_row, rolled_rows, rows_with_partial};
ghost use Rattle.zst_dir.specs.RowNames.{AreNamed};

use crate::checks::count_datasets;
use std::alloc::{AllocError, Global};
use zst_dir::{Dir, Partial, Snapshot};
use zst_image::Body;
use zst_model::limits::{LAST_NUMBER, MOST_DATASETS, MOST_PARTIALS, MOST_SNAPSHOTS};
use zst_model::{PlanFault, Quantity};
use zst_names::DatasetName;

fn limit(which: Quantity, number: u64) -> PlanFault
    ensures { result ≡ PlanFault.Limit which number }
{
    PlanFault::Limit { which, number }
}

/// E23 where the commit of this directory after that of this number would pass a limit.
pub fn check_limits(dir: &Dir, body: &Body) -> Result<(), PlanFault>
    ensures below { OnOk result (body.now.uber.number < 2 ^ 63) }
    ensures limit { IfErr result (λ fault. (which : Quantity) × (most : ℕ) × (fault ≡ Limit which most)) }
    ensures judged { (pool : Plain) → AreNamed dir.now pool → pool.number ≡ body.now.uber.number → JudgesLimits pool result }
{
    let partials = dir.partials().len();
    if partials > MOST_PARTIALS {
        return Err(limit(Quantity::Partials, MOST_PARTIALS as u64));
    }
    if count_datasets(dir) > MOST_DATASETS {
        return Err(limit(Quantity::Datasets, MOST_DATASETS as u64));
    }
    if dir.snapshots().len() + partials > MOST_SNAPSHOTS {
        return Err(limit(Quantity::Snapshots, MOST_SNAPSHOTS as u64));
    }
    let number = body.uber().number;
    if number >= LAST_NUMBER {
        return Err(limit(Quantity::Number, LAST_NUMBER));
    }
    Ok(())
}

// The latest snapshot of a dataset.
fn latest_of(dir: &Dir, name: &DatasetName) -> Option<Snapshot>
    ensures last { result ≡ latest_row name.now dir.now }
    ensures row { IfSome result IsSnapshotRow }
{
    let _lawful = dir.datasets();
    let mut latest = None;
    for snapshot in dir.snapshots() {
        if snapshot.name.dataset() == *name {
            latest = Some(snapshot.duplicate());
        }
    }
    latest
}

// Rolls the head of a dataset back to its latest snapshot, where that is asked for.
fn roll_back(dir: &mut Dir, name: &DatasetName, roll: bool)
    ensures rolled { dir.new ≡ record dir.old { datasets = if roll then rolled_rows name.now (latest_row name.now dir.old) dir.old.datasets else dir.old.datasets } }
    ensures grows { length (dir_bytes dir.new) ≤ length (dir_bytes dir.old) + 136 }
{
    if !roll {
        return;
    }
    if let Some(latest) = latest_of(dir, name) {
        dir.set_objects(name, latest.objects, &latest.redact);
    }
}

/// The directory with a partial state in place of its target's, and where it is asked for with the
/// target's head rolled back.
pub fn dir_with_partial(
    alloc: Global,
    dir: &Dir,
    partial: Partial,
    roll: bool,
) -> Result<Dir, AllocError>
    requires { CanPut dir.now partial }
    ensures put { IfOk result (λ next. next ≡ rows_with_partial roll partial dir.now) }
    ensures grows { IfOk result (λ next. length (dir_bytes next) ≤ length (dir_bytes dir.now) + 1416) }
{
    let mut next = dir.copy(alloc)?;
    roll_back(&mut next, &partial.target, roll);
    next.drop_partial(&partial.target);
    next.add_partial(partial)?;
    Ok(next)
}
