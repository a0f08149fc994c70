// How a pool is opened again after its disk has failed, and what then is left of it.
ghost use Rattle.std.specs.Prelude.{◌≡◌, Bool, OnErr, OnOk, IfOk, Err};
ghost use Rattle.zst_block.specs.IoStates.{IsHonest, disk_of};
ghost use Rattle.zst_outside.specs.Images.{IsSynced};
ghost use Rattle.zst_image.specs.Bodies.{Body, free_by};
ghost use Rattle.zst_model.specs.pools.KeptPool.{kept_of};
ghost use Rattle.zst_model.specs.pools.Pool.{Pool as Plain};
ghost use Rattle.zst_dir.specs.Rows.{Rows};
ghost use Rattle.zst_uber.specs.DiskCalls.{ReadsOrFails};
ghost use Rattle.zst_image.specs.Commits.{Ready};
ghost use Rattle.zst_image.specs.Reads.{ReadsAs, Rests, kept_rows};
ghost use Rattle.zst_pool.specs.Calls.{IsAtRest};
ghost use Rattle.zst_pool.specs.ReopenedPools.{Reopens, failed_after, reopened, OpensBy};

use crate::pool::Pool;
use std::alloc::Global;
use zst_block::Io;
use zst_image::{OpenFault, PoolState};
use zst_outside::Disk;

// Whether the pool counts as failed after an opening.
fn failed_after(failed: bool, opened: &Result<PoolState, OpenFault>) -> bool
    ensures { result ≡ failed_after failed opened.now }
{
    match opened {
        Ok(_) => false,
        Err(OpenFault::DiskFault) => true,
        Err(_) => failed,
    }
}

// Opens the pool of an Io's disk, and makes free what its body leaves free. What is kept of its blocks stays, as the disk
// is only read.
fn open_on<D: Disk>(alloc: Global, io: &mut Io<'_, D>) -> Result<PoolState, OpenFault>
    ensures opens { OpensBy (disk_of io.old) (disk_of io.new) result }
    ensures rests { (tight : Bool) (body : Body) (rows : Rows) (pool : Plain) → IsHonest io.new → ReadsAs tight body rows pool (disk_of io.old).seen → IfOk result (λ kept. Rests tight (disk_of io.new) kept.body rows pool) }
    ensures ready { IfOk result (λ kept. Ready (disk_of io.new) kept.body) }
    ensures synced { ¬ (result ≡ Err OpenFault.DiskFault) → IsSynced (disk_of io.new) }
    ensures reads { ReadsOrFails OpenFault.DiskFault (disk_of io.old) (disk_of io.new) result }
    ensures space { IfOk result (λ kept. io.new.space ≡ free_by kept.body) }
    ensures same_space { OnErr result (io.new.space ≡ io.old.space) }
    ensures failed { io.new.failed ≡ io.old.failed }
    ensures checksum_errors { io.new.checksum_errors ≡ io.old.checksum_errors }
    ensures same { io.new.disk.ghost_name ≡ io.old.disk.ghost_name }
{
    let kept = PoolState::open(alloc, io.disk)?;
    let space = kept.body.space(alloc)?;
    io.space = space;
    Ok(kept)
}

impl<'d, D: Disk> Pool<'d, D> {
    /// Does on the pool's own disk what opening does, with the same refusals. After E28 it has
    /// failed; after any other refusal it is as before, and a failed pool stays failed.
    pub fn reopen(&mut self, alloc: Global) -> Result<(), OpenFault>
        ensures opens { OpensBy (disk_of self.old.io) (disk_of self.new.io) (reopened self.new.kept result) }
        // And the pool that was opened is at rest.
        ensures rests { (tight : Bool) (body : Body) (rows : Rows) (pool : Plain) → IsHonest self.new.io → ReadsAs tight body rows pool (disk_of self.old.io).seen → OnOk result (IsAtRest tight (disk_of self.new.io) self.new.kept pool) }
        ensures reopens { Reopens self.old self.new result }
    {
        let opened = open_on(alloc, &mut self.io);
        self.io.failed = failed_after(self.io.failed, &opened);
        match opened {
            Ok(kept) => {
                self.kept = kept;
                Ok(())
            }
            Err(fault) => Err(fault),
        }
    }

    /// Leaves out each partial state that isn't kept, as the image does. Nothing is read or written.
    pub fn drop_unkept(&mut self)
        // What the image keeps of the pool is at rest.
        ensures rests { (tight : Bool) (disk : D) (running : Plain) → IsAtRest tight (D.state disk) self.old.kept running → IsAtRest tight (D.state disk) self.new.kept (kept_of running) }
        ensures rows { self.new.kept ≡ record self.old.kept { dir = kept_rows self.old.kept.dir } }
        ensures io { self.new.io ≡ self.old.io }
    {
        self.kept.dir.retain_kept();
        let _lawful = self.kept.dir.datasets();
    }
}
