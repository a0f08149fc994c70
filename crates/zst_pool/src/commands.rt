// The commands that commit, each over the Io of a pool that hasn't failed.
ghost use Rattle.std.specs.Prelude.{◌≡◌, ◌⊎◌, ◌+◌, ◌*◌, ◌<◌, ◌≤◌, ◌^◌, [], None, Result, Err, IfOk, length, false};
ghost use Rattle.zst_block.specs.IoStates.{io_of};
ghost use Rattle.zst_names.specs.Names.{dataset_of};
ghost use Rattle.zst_model.specs.pools.Pool.{inserted};
ghost use Rattle.zst_model.specs.declared.refusals.plan_fault.PlanFault.{PlanFault};
ghost use Rattle.zst_model.specs.declared.refusals.refusal.Refusal.{Refusal};
ghost use Rattle.zst_model.specs.pools.Pool.{Pool as Plain};
ghost use Rattle.zst_model.specs.pools.Step.{Stepped, new_dataset, with_dataset, with_snapshot};
ghost use Rattle.zst_tree.specs.Sets.{no_objects};
ghost use Rattle.zst_dir.specs.Rows.{HasDataset, IsDatasetRow, IsLawful, IsSnapshotRow, snapshot_is_before};
ghost use Rattle.zst_dir.specs.Spelling.{dir_bytes};
ghost use Rattle.zst_pool.specs.RowChanges.{MakesOfEach, MakesDir, MakesRow};
ghost use Rattle.zst_pool.specs.Cost.{cells_only};
ghost use Rattle.zst_pool.specs.Damage.{NoDamage};
ghost use Rattle.zst_pool.specs.CommandRuns.{Runs, CanBegin, RunsByPlan};
ghost use Rattle.zst_pool.specs.PartialRows.{each_stays};
ghost use Rattle.zst_pool.specs.Checks.{CanTake};

use crate::checks::{check_new_dataset, check_number, plan_snapshot};
use crate::fault::{PoolFault, of_committed};
use std::alloc::{AllocError, Global};
use zst_block::Io;
use zst_dir::{Dataset, Dir, Snapshot};
use zst_image::{Body, PoolState, commit_dir};
use zst_model::GuidSet;
use zst_names::{DatasetName, SnapName};
use zst_outside::Disk;
use zst_tree::ObjSet;

/// A dataset without objects, a clone of none.
fn new_dataset(kind: u32, name: &DatasetName) -> Dataset
    requires { (kind ≡ 2) ⊎ (kind ≡ 3) }
    ensures makes { MakesRow IsDatasetRow (record { name = name.now; kind = kind; origin = None; head = no_objects; redact = [] }) result }
{
    Dataset {
        name: name.duplicate(),
        kind,
        origin: None,
        head: ObjSet::empty(),
        redact: GuidSet::empty(),
    }
}

/// Ends a command that changes the directory alone: commits these rows with this guid counter.
pub fn commit_rows<D: Disk>(
    io: &mut Io<'_, D>,
    alloc: Global,
    kept: &PoolState,
    guids: u64,
    dir: Dir,
) -> Result<PoolState, PoolFault>
    requires begins { CanBegin (io_of io.old) kept.now }
    requires number { kept.now.body.uber.number < 2 ^ 63 }
    requires grows { length (dir_bytes dir) ≤ length (dir_bytes kept.now.dir) + 1024 }
    // What each definition does that makes these rows of the pool that runs.
    ensures runs { (definition : Plain → Result Stepped Refusal) → MakesOfEach definition kept.now guids dir
        → Runs definition (cells_only 0) NoDamage kept.now (io_of io.old) (io_of io.new) result }
    ensures unplanned { (fault : PlanFault) → ¬ (result ≡ Err (PoolFault.Plan fault)) }
    ensures rows { IfOk result (λ next. next.dir ≡ dir) }
{
    let _lawful = dir.datasets();
    of_committed(commit_dir(io, alloc, &kept.body, guids, dir))
}

/// Makes a dataset of this kind: 2 a file system, 3 a volume.
pub fn make_dataset<D: Disk>(
    io: &mut Io<'_, D>,
    alloc: Global,
    kept: &PoolState,
    kind: u32,
    name: &DatasetName,
) -> Result<PoolState, PoolFault>
    requires kind { (kind ≡ 2) ⊎ (kind ≡ 3) }
    requires begins { CanBegin (io_of io.old) kept.now }
    ensures does { RunsByPlan (with_dataset (new_dataset kind name.now)) (cells_only 0) NoDamage 0 0 false each_stays kept.now (io_of io.old) (io_of io.new) result }
{
    check_new_dataset(&kept.dir, name)?;
    check_number(&kept.body)?;
    let mut dir = kept.dir.copy(alloc)?;
    dir.add_dataset(new_dataset(kind, name))?;
    commit_rows(io, alloc, kept, kept.body.uber().guids, dir)
}

/// The snapshot of a dataset's head, with the next number and the next guid.
fn new_snapshot(body: &Body, dataset: &Dataset, now: u64, name: &SnapName) -> Snapshot
    requires id { body.now.uber.id < 2 ^ 31 }
    requires guids { body.now.uber.guids + 1 < 2 ^ 32 }
    requires number { body.now.uber.number < 2 ^ 63 }
    requires row { IsDatasetRow dataset.now }
    ensures makes { MakesRow IsSnapshotRow (record { name = name.now; guid = body.now.uber.id * 2 ^ 32 + (body.now.uber.guids + 1); time = now; number = body.now.uber.number + 1; objects = dataset.now.head; redact = dataset.now.redact }) result }
{
    Snapshot {
        name: name.duplicate(),
        guid: u64::from(body.uber().id) * (1 << 32) + (body.uber().guids + 1),
        time: now,
        number: body.uber().number + 1,
        objects: dataset.head,
        redact: dataset.redact.duplicate(),
    }
}

/// The directory with one more snapshot, of a dataset that has no partial state.
fn dir_with_snapshot(alloc: Global, dir: &Dir, snapshot: Snapshot) -> Result<Dir, AllocError>
    requires lawful { IsLawful dir.now }
    requires row { IsSnapshotRow snapshot }
    requires dataset { HasDataset dir.now (dataset_of 64 snapshot.name) }
    requires can { CanTake dir.now snapshot.name }
    ensures makes { MakesDir 1024 dir.now (record dir.now { snapshots = inserted snapshot_is_before snapshot dir.now.snapshots }) result }
{
    let mut next = dir.copy(alloc)?;
    next.add_snapshot(snapshot)?;
    Ok(next)
}

/// Takes a snapshot of a dataset's head.
pub fn take_snapshot<D: Disk>(
    io: &mut Io<'_, D>,
    alloc: Global,
    kept: &PoolState,
    now: u64,
    name: &SnapName,
) -> Result<PoolState, PoolFault>
    requires begins { CanBegin (io_of io.old) kept.now }
    ensures does { RunsByPlan (with_snapshot now name.now) (cells_only 0) NoDamage 0 0 false each_stays kept.now (io_of io.old) (io_of io.new) result }
{
    let dataset = plan_snapshot(kept, name)?;
    let snapshot = new_snapshot(&kept.body, dataset, now, name);
    let dir = dir_with_snapshot(alloc, &kept.dir, snapshot)?;
    commit_rows(io, alloc, kept, kept.body.uber().guids + 1, dir)
}
