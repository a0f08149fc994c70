// The commands that make clones and bookmarks, and those that leave rows out.
ghost use Rattle.std.specs.Prelude.{[], false};
ghost use Rattle.zst_block.specs.IoStates.{io_of};
ghost use Rattle.zst_model.specs.pools.Step.{with_bookmark, with_clone, with_destroyed, with_rollback};
ghost use Rattle.zst_dir.specs.Removal.{AreUnused, without};
ghost use Rattle.zst_pool.specs.Cost.{cells_only};
ghost use Rattle.zst_pool.specs.Damage.{NoDamage};
ghost use Rattle.zst_pool.specs.CommandRuns.{CanBegin, RunsByPlan};
ghost use Rattle.zst_pool.specs.PartialRows.{each_stays};
ghost use Rattle.zst_pool.specs.RowChanges.{MakesDir};

use crate::commands::commit_rows;
use crate::fault::PoolFault;
use crate::lineage::{plan_bookmark, plan_clone, plan_destroy};
use crate::rollbacks::{dir_rolled_back, plan_rollback};
use std::alloc::{AllocError, Global};
use zst_block::Io;
use zst_dir::{Dir, Removal};
use zst_image::PoolState;
use zst_model::Name;
use zst_names::{BookName, DatasetName, SnapName};
use zst_outside::Disk;

/// Makes a dataset of a snapshot's objects.
pub fn make_clone<D: Disk>(
    io: &mut Io<'_, D>,
    alloc: Global,
    kept: &PoolState,
    origin: &SnapName,
    name: &DatasetName,
) -> Result<PoolState, PoolFault>
    requires begins { CanBegin (io_of io.old) kept.now }
    ensures does { RunsByPlan (with_clone origin.now name.now) (cells_only 0) NoDamage 0 0 false each_stays kept.now (io_of io.old) (io_of io.new) result }
{
    let row = plan_clone(kept, origin, name)?;
    let mut dir = kept.dir.copy(alloc)?;
    dir.add_dataset(row)?;
    commit_rows(io, alloc, kept, kept.body.uber().guids, dir)
}

/// Makes a bookmark of a snapshot.
pub fn make_bookmark<D: Disk>(
    io: &mut Io<'_, D>,
    alloc: Global,
    kept: &PoolState,
    snapshot: &SnapName,
    name: &BookName,
) -> Result<PoolState, PoolFault>
    requires begins { CanBegin (io_of io.old) kept.now }
    ensures does { RunsByPlan (with_bookmark snapshot.now name.now) (cells_only 0) NoDamage 0 0 false each_stays kept.now (io_of io.old) (io_of io.new) result }
{
    let row = plan_bookmark(kept, snapshot, name)?;
    let mut dir = kept.dir.copy(alloc)?;
    dir.add_bookmark(row)?;
    commit_rows(io, alloc, kept, kept.body.uber().guids, dir)
}

// The directory without what goes.
fn dir_without(alloc: Global, dir: &Dir, going: &Removal) -> Result<Dir, AllocError>
    requires { AreUnused going.now dir.now }
    ensures makes { MakesDir 0 dir.now (without going.now dir.now) result }
{
    let mut next = dir.copy(alloc)?;
    next.leave_out(going);
    Ok(next)
}

/// Destroys a dataset with its snapshots and bookmarks, a snapshot or a bookmark.
pub fn destroy<D: Disk>(
    io: &mut Io<'_, D>,
    alloc: Global,
    kept: &PoolState,
    name: Name,
) -> Result<PoolState, PoolFault>
    requires begins { CanBegin (io_of io.old) kept.now }
    ensures does { RunsByPlan (with_destroyed [] name) (cells_only 0) NoDamage 0 0 false each_stays kept.now (io_of io.old) (io_of io.new) result }
{
    let going = plan_destroy(kept, name)?;
    let dir = dir_without(alloc, &kept.dir, &going)?;
    commit_rows(io, alloc, kept, kept.body.uber().guids, dir)
}

/// Makes the head of a snapshot's dataset as that, without what is newer where it destroys.
pub fn roll_back<D: Disk>(
    io: &mut Io<'_, D>,
    alloc: Global,
    kept: &PoolState,
    destroys: bool,
    name: &SnapName,
) -> Result<PoolState, PoolFault>
    requires begins { CanBegin (io_of io.old) kept.now }
    ensures does { RunsByPlan (with_rollback [] destroys name.now) (cells_only 0) NoDamage 0 0 false each_stays kept.now (io_of io.old) (io_of io.new) result }
{
    let snapshot = plan_rollback(kept, destroys, name)?;
    let dir = dir_rolled_back(alloc, &kept.dir, snapshot)?;
    commit_rows(io, alloc, kept, kept.body.uber().guids, dir)
}
