// The command that gives up a partial state.
ghost use Rattle.std.specs.Prelude.{◌≡◌, ◌<◌, [], true, Result, Ok, OnOk, bytes_eq, false, filter, not};
ghost use Rattle.zst_block.specs.IoStates.{io_of};
ghost use Rattle.std.specs.List.{list_any};
ghost use Rattle.zst_model.specs.pools.Step.{with_aborted, without_partial};
ghost use Rattle.zst_dir.specs.Rows.{is_for};
ghost use Rattle.zst_pool.specs.Checks.{Judges, next_of, ChecksRows, PlansCommit, JudgesNext};
ghost use Rattle.zst_pool.specs.Cost.{cells_only};
ghost use Rattle.zst_pool.specs.Damage.{NoDamage};
ghost use Rattle.zst_pool.specs.Lineage.{if_partial, rows_without_partial};
ghost use Rattle.zst_pool.specs.CommandRuns.{CanBegin, RunsByPlan};
ghost use Rattle.zst_pool.specs.RowChanges.{MakesDir};

use crate::checks::{check_number, has_partial};
use crate::commands::commit_rows;
use crate::fault::PoolFault;
use std::alloc::{AllocError, Global};
use zst_block::Io;
use zst_dir::Dir;
use zst_image::PoolState;
use zst_model::PlanFault;
use zst_names::DatasetName;
use zst_outside::Disk;

// E14 where the dataset has no partial state.
fn check_partial(dir: &Dir, target: &DatasetName) -> Result<(), PlanFault>
    ensures there { OnOk result (list_any (λ partial. bytes_eq partial.target target.now) dir.now.partials ≡ true) }
    ensures checks { ChecksRows dir.now (JudgesNext (if_partial target.now)) result }
{
    if !has_partial(dir, target) {
        return Err(PlanFault::NoPartial(target.duplicate()));
    }
    Ok(())
}

/// Whether the partial state of this target can be given up, or the first refusal of its definition.
pub fn plan_abort(kept: &PoolState, target: &DatasetName) -> Result<(), PlanFault>
    ensures there { OnOk result (list_any (λ partial. bytes_eq partial.target target.now) kept.now.dir.partials ≡ true) }
    ensures plans { PlansCommit kept.now (λ pool. Judges (with_aborted [] target.now pool) (Ok (next_of (without_partial target.now pool)))) result }
{
    check_partial(&kept.dir, target)?;
    check_number(&kept.body)?;
    Ok(())
}

// The directory without the partial state of a target.
fn dir_aborted(alloc: Global, dir: &Dir, target: &DatasetName) -> Result<Dir, AllocError>
    ensures makes { MakesDir 0 dir.now (rows_without_partial target.now dir.now) result }
{
    let mut next = dir.copy(alloc)?;
    next.drop_partial(target);
    Ok(next)
}

/// Gives up what a receive into this dataset has so far.
pub fn abort<D: Disk>(
    io: &mut Io<'_, D>,
    alloc: Global,
    kept: &PoolState,
    dataset: &DatasetName,
) -> Result<PoolState, PoolFault>
    requires begins { CanBegin (io_of io.old) kept.now }
    ensures does { RunsByPlan (with_aborted [] dataset.now) (cells_only 0) NoDamage 0 0 false (filter (λ other. not (is_for dataset.now other))) kept.now (io_of io.old) (io_of io.new) result }
{
    plan_abort(kept, dataset)?;
    let dir = dir_aborted(alloc, &kept.dir, dataset)?;
    commit_rows(io, alloc, kept, kept.body.uber().guids, dir)
}
