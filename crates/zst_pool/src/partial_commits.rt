// What a receive does to a pool: it commits a partial state, or drops one.
ghost use Rattle.std.specs.Prelude.{◌≡◌, ◌+◌, ◌<◌, ℕ, false, filter, length, not, IfErr, IfOk, OnErr, OnOk, Err, Bool};
ghost use Rattle.zst_block.specs.Blocks.{FitsDisk, KeepsBlocks, SparesTaken};
ghost use Rattle.zst_block.specs.IoStates.{IsHonest, blocks_of, disk_of, io_of};
ghost use Rattle.zst_block.specs.IoCalls.{IsBlockLength, TakesAtMost};
ghost use Rattle.zst_model.specs.pools.Pool.{Pool as Plain};
ghost use Rattle.zst_model.specs.pools.KeptPool.{kept_of};
ghost use Rattle.zst_dir.specs.Rows.{is_unkept_for};
ghost use Rattle.zst_dir.specs.Spelling.{dir_bytes};
ghost use Rattle.zst_pool.specs.Calls.{CallDid, CanCommit, IsAtRest, IsCallFault, IsUnderWay, ListsAnew};
ghost use Rattle.zst_pool.specs.Events.{CommitsPartial, EndsCommit, FollowsBy, KeepsCommitted, PutsPartial, SameDisk, Settles};
ghost use Rattle.zst_pool.specs.PartialRows.{CanPut, rows_with_partial};
ghost use Rattle.zst_pool.specs.Partials.{next_commit, partial_put, without_unkept};
ghost use Rattle.zst_image.specs.Bodies.{free_by};
ghost use Rattle.zst_image.specs.Reads.{RunsBy, bound_of};
ghost use Rattle.zst_image.specs.Commits.{IsDirFull, Ready, commit_sectors};

use crate::fault::{PoolFault, of_committed};
use crate::partials::{check_limits, dir_with_partial};
use crate::pool::Pool;
use std::alloc::{AllocError, Global};
use zst_block::Io;
use zst_dir::{Dir, Partial};
use zst_image::{PoolState, commit_dir};
use zst_names::DatasetName;
use zst_outside::Disk;

/// Commits a directory as the next one of a pool, where it passes no limit.
pub fn commit_next<D: Disk>(
    io: &mut Io<'_, D>,
    alloc: Global,
    kept: &PoolState,
    dir: Dir,
) -> Result<PoolState, PoolFault>
    requires works { CanCommit (disk_of io.old) io.old.space kept.now.body }
    ensures did { (tight : Bool) (start : D) (running next : Plain) → IsHonest io.new → IsUnderWay tight (D.state start) (disk_of io.old) io.old.space kept.now running
        → ListsAnew running next → RunsBy (bound_of tight (running.number + 1)) (blocks_of io.old) dir next → CallDid tight (D.state start) (disk_of io.new) kept.now running (next_commit next) result }
    ensures next { IfOk result (FollowsBy io.old.space kept.now dir) }
    ensures known { IfErr result IsCallFault }
    ensures full { (need largest : ℕ) → result ≡ Err (PoolFault.Full need largest) → IsDirFull io.old.space io.new.space dir need largest }
    ensures takes { TakesAtMost (commit_sectors (length (dir_bytes dir)) (length io.old.space.free)) (IsBlockLength 16) io.old.space io.new.space }
    // The blocks that were there still are, over the sectors that the new body leaves free.
    ensures blocks { IfOk result (λ next. KeepsBlocks (disk_of io.old).seen io.old.space (disk_of io.new).seen (free_by next.body)) }
    // A refusal, but for that of the disk, wrote into free sectors alone.
    ensures spares { ¬ (result ≡ Err PoolFault.DiskFault) → OnErr result (SparesTaken io.old.space (disk_of io.old).seen (disk_of io.new).seen) }
    ensures commits { EndsCommit kept.now (io_of io.old) (io_of io.new) result }
{
    check_limits(&dir, &kept.body)?;
    of_committed(commit_dir(io, alloc, &kept.body, kept.body.uber().guids, dir))
}

// Commits a partial state, and where it is asked for rolls the target's head back.
fn commit_partial<D: Disk>(
    io: &mut Io<'_, D>,
    alloc: Global,
    kept: &PoolState,
    partial: Partial,
    roll: bool,
) -> Result<PoolState, PoolFault>
    requires partial { CanPut kept.now.dir partial }
    requires works { CanCommit (disk_of io.old) io.old.space kept.now.body }
    ensures puts { CommitsPartial (partial_put roll) partial (rows_with_partial roll partial kept.now.dir) kept.now io.old io.new result }
    ensures commits { EndsCommit kept.now (io_of io.old) (io_of io.new) result }
{
    let dir = dir_with_partial(alloc, &kept.dir, partial, roll)?;
    commit_next(io, alloc, kept, dir)
}

impl<'d, D: Disk> Pool<'d, D> {
    /// Makes free again what the latest body leaves free. An event that begins otherwise than by `step`
    /// begins with it. Where no memory is left for the free extents, nothing changes.
    pub fn renew(&mut self, alloc: Global) -> Result<(), AllocError>
        requires fits { FitsDisk (disk_of self.old.io).size (free_by self.old.kept.body) }
        ensures space { OnOk result (self.new.io.space ≡ free_by self.old.kept.body) }
        ensures works { Ready (disk_of self.old.io) self.old.kept.body → OnOk result (CanCommit (disk_of self.new.io) self.new.io.space self.new.kept.body) }
        ensures kept { self.new.kept ≡ self.old.kept }
        ensures disk { SameDisk self.old.io self.new.io }
        ensures unchanged { OnErr result (self.new ≡ self.old) }
    {
        let space = self.kept.body.space(alloc)?;
        self.io.space = space;
        Ok(())
    }

    /// Keeps what a command or a call committed. The sectors stay as they are: those that the new body leaves
    /// free, or those that were left when it was refused.
    pub(crate) fn keep(&mut self, committed: Result<PoolState, PoolFault>) -> Result<u64, PoolFault>
        ensures keeps { KeepsCommitted committed self.old self.new result }
        ensures io { self.new.io ≡ self.old.io }
    {
        let kept = committed?;
        let number = kept.body.uber().number;
        self.kept = kept;
        Ok(number)
    }

    /// Commits with this partial state in place of its target's, and gives the new number. Where it
    /// is asked for, the target's head is rolled back to its latest snapshot in the same commit.
    ///
    /// It goes on over the sectors that are left of the event; after a refusal the next one begins with `renew`.
    pub fn put_partial(
        &mut self,
        alloc: Global,
        partial: Partial,
        roll: bool,
    ) -> Result<u64, PoolFault>
        requires partial { CanPut self.old.kept.dir partial }
        requires works { self.old.io.failed ≡ false → CanCommit (disk_of self.old.io) self.old.io.space self.old.kept.body }
        ensures puts { PutsPartial (partial_put roll) partial (rows_with_partial roll partial self.old.kept.dir) self.old self.new result }
        ensures settles { Settles self.old self.new result }
    {
        if self.io.failed {
            return Err(PoolFault::Failed);
        }
        let committed = commit_partial(&mut self.io, alloc, &self.kept, partial, roll);
        self.keep(committed)
    }

    /// Leaves out the partial state of this target, where there is one that isn't kept. It commits
    /// nothing.
    pub fn drop_partial(&mut self, target: &DatasetName)
        ensures rows { self.new.kept.dir ≡ record self.old.kept.dir { partials = filter (λ partial. not (is_unkept_for target.now partial)) self.old.kept.dir.partials } }
        // What is kept of the pool stays: it is at rest without that partial state.
        ensures rests { (tight : Bool) (disk : D) (running : Plain) → IsAtRest tight (D.state disk) self.old.kept running → IsAtRest tight (D.state disk) self.new.kept (without_unkept target.now running) }
        ensures kept { (running : Plain) → kept_of (without_unkept target.now running) ≡ kept_of running }
        ensures body { self.new.kept.body ≡ self.old.kept.body }
        ensures io { self.new.io ≡ self.old.io }
    {
        self.kept.dir.drop_unkept(target);
        let _lawful = self.kept.dir.datasets();
    }
}
