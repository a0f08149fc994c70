// The command that makes free what nothing reaches.
ghost use Rattle.std.specs.Prelude.{◌≡◌, ◌<◌, ◌^◌, IfErr, OnOk};
ghost use Rattle.zst_outside.specs.Images.{IsSynced};
ghost use Rattle.zst_block.specs.IoCalls.{Looks, stop_of};
ghost use Rattle.zst_block.specs.IoStates.{disk_of, io_of};
ghost use Rattle.zst_image.specs.Commits.{Ready};
ghost use Rattle.zst_roots.specs.Unreached.{IsFoundFor};
ghost use Rattle.zst_pool.specs.CommandRuns.{CanBegin, ReclaimDid};
ghost use Rattle.zst_pool.specs.FoundCommits.{CommitsFound};

use crate::checks::check_number;
use crate::fault::{PoolFault, of_committed};
use std::alloc::Global;
use zst_block::{BlockFault, Io};
use zst_image::{PoolState, commit_unmarked};
use zst_outside::{Disk, Fault};
use zst_roots::{HeldBlocks, UnreachedSectors, find_unreached};

// Makes sure of what was written before: then the one image that a crash may leave is what a read gives.
fn settle<D: Disk>(io: &mut Io<'_, D>) -> Result<(), BlockFault>
    ensures synced { OnOk result (IsSynced (disk_of io.new)) }
    ensures only { IfErr result (λ fault. fault ≡ BlockFault.DiskFault) }
    ensures looks { Looks (io_of io.old) (io_of io.new) (stop_of result) }
{
    match io.disk.sync() {
        Ok(()) => Ok(()),
        Err(Fault) => {
            io.failed = true;
            Err(BlockFault::DiskFault)
        }
    }
}

// Commits the directory as it is, in sectors that were found unreached, and makes all free that stays unreached.
fn commit_found<D: Disk>(
    io: &mut Io<'_, D>,
    alloc: Global,
    kept: &PoolState,
    found: UnreachedSectors,
) -> Result<PoolState, PoolFault>
    requires ready { Ready (disk_of io.old) kept.now.body }
    requires number { kept.now.body.uber.number < 2 ^ 63 }
    requires found { IsFoundFor kept.now.body.uber found }
    ensures commits { CommitsFound kept.now found (io_of io.old) (io_of io.new) result }
{
    let UnreachedSectors { marks, space } = found;
    io.space = space;
    let dir = kept.dir.copy(alloc)?;
    of_committed(commit_unmarked(io, alloc, &kept.body, dir, marks))
}

/// Frees all sectors that nothing reaches and no session holds, and commits once. It writes into such sectors alone,
/// whether or not they are free, so that it needs no room beside them: what the latest body reaches stands until the
/// next one does, and then its directory and its free extents are free too.
///
/// It begins with a sync: what nothing reaches by what a read gives, nothing then reaches in any image that a crash
/// may leave.
pub fn reclaim<D: Disk>(
    io: &mut Io<'_, D>,
    alloc: Global,
    kept: &PoolState,
    held: &[HeldBlocks],
) -> Result<PoolState, PoolFault>
    requires begins { CanBegin (io_of io.old) kept.now }
    ensures does { ReclaimDid held.now kept.now (io_of io.old) (io_of io.new) result }
{
    check_number(&kept.body)?;
    let _lawful = kept.dir.datasets();
    settle(io)?;
    let found = find_unreached(io, alloc, kept.body.uber(), &kept.dir, held)?;
    commit_found(io, alloc, kept, found)
}
