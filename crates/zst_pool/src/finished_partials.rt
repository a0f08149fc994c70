// What a receive does to a pool when it has all of its stream.
ghost use Rattle.std.specs.Prelude.{◌≡◌, ◌+◌, ◌<◌, ◌≤◌, false, length, IfOk, IfSome, OnOk, Err};
ghost use Rattle.zst_block.specs.IoStates.{disk_of, io_of};
ghost use Rattle.zst_dir.specs.Rows.{HasSnapshot, IsDatasetRow, IsPartialRow, IsSnapshotRow};
ghost use Rattle.zst_dir.specs.Spelling.{dir_bytes};
ghost use Rattle.zst_pool.specs.Calls.{CanCommit};
ghost use Rattle.zst_pool.specs.FinishedRows.{dataset_row_from, rows_with_finished, rows_with_target, snapshot_row_from};
ghost use Rattle.zst_pool.specs.Events.{CommitsPartial, EndsCommit, PutsPartial, Settles};
ghost use Rattle.zst_pool.specs.PartialRows.{CanPut};
ghost use Rattle.zst_pool.specs.Partials.{partial_finished};
ghost use Rattle.zst_pool.specs.RowChanges.{MakesRow};

use crate::fault::PoolFault;
use crate::partial_commits::commit_next;
use crate::pool::Pool;
use std::alloc::{AllocError, Global};
use zst_block::Io;
use zst_dir::{Dataset, Dir, Partial, Snapshot};
use zst_image::PoolState;
use zst_names::SnapName;
use zst_outside::Disk;

// The snapshot that a partial state becomes with the commit of this number.
fn snapshot_from(partial: &Partial, number: u64) -> Snapshot
    requires { IsPartialRow partial.now }
    ensures makes { MakesRow IsSnapshotRow (snapshot_row_from number partial.now) result }
{
    Snapshot {
        name: partial.snapshot_name(),
        guid: partial.header.to,
        time: partial.header.time,
        number,
        objects: partial.objects,
        redact: partial.header.redact.duplicate(),
    }
}

// The dataset that the partial state of an absent target makes.
fn dataset_from(partial: &Partial) -> Dataset
    requires { IsPartialRow partial.now }
    ensures makes { MakesRow IsDatasetRow (dataset_row_from partial.now) result }
{
    Dataset {
        name: partial.target.duplicate(),
        kind: partial.header.kind,
        origin: partial.base.as_ref().map(SnapName::duplicate),
        head: partial.objects,
        redact: partial.header.redact.duplicate(),
    }
}

// Gives the target its partial state's objects and redaction guids, and makes it where it is absent.
fn put_target(dir: &mut Dir, partial: &Partial) -> Result<(), AllocError>
    requires row { IsPartialRow partial.now }
    requires base { IfSome partial.now.base (HasSnapshot dir.old) }
    ensures put { OnOk result (dir.new ≡ record dir.old { datasets = rows_with_target partial.now dir.old.datasets }) }
    ensures grows { length (dir_bytes dir.new) ≤ length (dir_bytes dir.old) + 1024 }
{
    if dir.dataset(&partial.target).is_some() {
        dir.set_objects(&partial.target, partial.objects, &partial.header.redact);
        return Ok(());
    }
    dir.add_dataset(dataset_from(partial))
}

// The directory with the snapshot and the head that a partial state becomes, and without that.
fn dir_finished(alloc: Global, dir: &Dir, partial: &Partial, number: u64) -> Result<Dir, AllocError>
    requires { CanPut dir.now partial.now }
    ensures finished { IfOk result (λ next. next ≡ rows_with_finished number partial.now dir.now) }
    ensures grows { IfOk result (λ next. length (dir_bytes next) ≤ length (dir_bytes dir.now) + 2048) }
{
    let _lawful = dir.datasets();
    let mut next = dir.copy(alloc)?;
    next.drop_partial(&partial.target);
    put_target(&mut next, partial)?;
    next.add_snapshot(snapshot_from(partial, number))?;
    Ok(next)
}

// Commits what a partial state becomes.
fn commit_finished<D: Disk>(
    io: &mut Io<'_, D>,
    alloc: Global,
    kept: &PoolState,
    partial: &Partial,
) -> Result<PoolState, PoolFault>
    requires partial { CanPut kept.now.dir partial.now }
    requires works { CanCommit (disk_of io.old) io.old.space kept.now.body }
    ensures puts { CommitsPartial partial_finished partial.now (rows_with_finished (kept.now.body.uber.number + 1) partial.now kept.now.dir) kept.now io.old io.new result }
    ensures commits { EndsCommit kept.now (io_of io.old) (io_of io.new) result }
{
    // The last number is refused as it is committed.
    let number = kept.body.uber().number.saturating_add(1);
    let dir = dir_finished(alloc, &kept.dir, partial, number)?;
    commit_next(io, alloc, kept, dir)
}

impl<'d, D: Disk> Pool<'d, D> {
    /// Commits the objects of this partial state as its target's new snapshot and head, without the
    /// partial state, and gives the new number. A target that is absent is made, with the base as
    /// its origin.
    ///
    /// It goes on over the sectors that are left of the event; after a refusal the next one begins with `renew`.
    pub fn finish_partial(&mut self, alloc: Global, partial: Partial) -> Result<u64, PoolFault>
        requires partial { CanPut self.old.kept.dir partial }
        requires works { self.old.io.failed ≡ false → CanCommit (disk_of self.old.io) self.old.io.space self.old.kept.body }
        ensures puts { PutsPartial partial_finished partial (rows_with_finished (self.old.kept.body.uber.number + 1) partial self.old.kept.dir) self.old self.new result }
        ensures settles { Settles self.old self.new result }
    {
        if self.io.failed {
            return Err(PoolFault::Failed);
        }
        let committed = commit_finished(&mut self.io, alloc, &self.kept, &partial);
        self.keep(committed)
    }
}
