// What a feed commits.
ghost use Rattle.std.specs.Prelude.{◌≡◌, ◌+◌, Bool, ℕ, List, Option, OnOk, false, true};
ghost use Rattle.zst_block.specs.Blocks.{KeepsBlocks};
ghost use Rattle.zst_block.specs.IoStates.{IsHonest, blocks_of, disk_of};
ghost use Rattle.zst_image.specs.Bodies.{free_by};
ghost use Rattle.zst_image.specs.Reads.{bound_of};
ghost use Rattle.zst_model.specs.pools.Pool.{Pool as Plain};
ghost use Rattle.zst_pool.specs.Calls.{CanCommit, IsUnderWay};
ghost use Rattle.zst_recv.specs.Faults.{keeps_before};
ghost use Rattle.zst_recv.specs.ReceiveSteps.{Batch as PlainBatch, put};
ghost use Rattle.zst_recv.specs.Commits.{CommitsBatch, CommitsRows, Puts};
ghost use Rattle.zst_recv.specs.Stages.{IsBatch, LivesOn, StageFits, waits_at};

use crate::batch::Batch;
use crate::fault::RecvFault;
use crate::stage::Stage;
use std::alloc::Global;
use zst_model::{PlanFault, Quantity};
use zst_outside::Disk;
use zst_pool::{Pool, PoolFault};

/// Whether the records before this fault stay where the partial state is kept.
pub(crate) fn keeps_before(fault: &RecvFault) -> bool
    ensures { result ≡ keeps_before fault.now }
{
    match fault {
        RecvFault::Stream(_) | RecvFault::CannotApply { .. } => true,
        RecvFault::Pool(PoolFault::Plan(PlanFault::Limit { which, .. })) => {
            *which == Quantity::Block
        }
        RecvFault::Pool(_) => false,
    }
}

/// Commits what a feed has taken, once; and nothing where it has taken none.
pub(crate) fn put<D: Disk>(
    pool: &mut Pool<'_, D>,
    alloc: Global,
    batch: &Batch,
) -> Result<(), PoolFault>
    requires open { pool.old.io.failed ≡ false }
    requires stage { (target : List ℕ) × StageFits pool.old.kept.dir target batch.now.stage }
    requires works { CanCommit (disk_of pool.old.io) pool.old.io.space pool.old.kept.body }
    ensures puts { (tight : Bool) (start : D) (running : Plain) (plain : PlainBatch) → IsHonest pool.new.io → IsUnderWay tight (D.state start) (disk_of pool.old.io) pool.old.io.space pool.old.kept running
        → IsBatch (bound_of tight (running.number + 1)) (blocks_of pool.old.io) batch.now plain
        → Puts tight (D.state start) (disk_of pool.new.io) pool.new.kept running (put plain running) result }
    // Where it goes on, its partial state still stands for the one that was taken.
    ensures goes_on { (bound : Option ℕ) (plain : PlainBatch) → IsBatch bound (blocks_of pool.old.io) batch.now plain
        → OnOk result (IsBatch bound (blocks_of pool.new.io) batch.now plain) }
    // What the latest body leaves free is free again once a partial state or its snapshot was committed, and over it the blocks that
    // were there still are; and nothing was done where no record was taken.
    ensures free { batch.now.taken ≡ true → waits_at batch.now.stage ≡ false
        → OnOk result ((pool.new.io.space ≡ free_by pool.new.kept.body) × KeepsBlocks (disk_of pool.old.io).seen pool.old.io.space (disk_of pool.new.io).seen (free_by pool.new.kept.body)) }
    ensures idle { batch.now.taken ≡ false → (pool.new.io.disk.now ≡ pool.old.io.disk.now) × (pool.new.kept ≡ pool.old.kept) }
    ensures fits { (target : List ℕ) → StageFits pool.old.kept.dir target batch.now.stage → OnOk result (LivesOn pool.new.kept.dir target batch.now.stage) }
    ensures rows { (target : List ℕ) → StageFits pool.old.kept.dir target batch.now.stage → CommitsRows target pool.old.kept.dir pool.new.kept.dir batch.now result }
    ensures commits { CommitsBatch pool.old pool.new result }
{
    if !batch.taken {
        return Ok(());
    }
    match &batch.stage {
        Stage::Lives { partial, .. } => {
            pool.put_partial(alloc, partial.duplicate(), batch.rolls)?;
            Ok(())
        }
        Stage::Ends { partial } => {
            pool.finish_partial(alloc, partial.duplicate())?;
            Ok(())
        }
        Stage::Waits | Stage::Done { .. } | Stage::Over => Ok(()),
    }
}
