// A pool is checked.
ghost use Rattle.std.specs.Prelude.{◌≡◌, ℕ, Bool, IfErr, List, Ok, Err, false};
ghost use Rattle.zst_block.specs.IoStates.{IsHonest, disk_of};
ghost use Rattle.zst_image.specs.Commits.{Ready};
ghost use Rattle.zst_model.specs.pools.Pool.{Pool as Plain};
ghost use Rattle.zst_pool.specs.Calls.{IsAtRest};
ghost use Rattle.zst_pool.specs.Damage.{IsOf};
ghost use Rattle.zst_pool.specs.Events.{OnlyAnswers, Settles};
ghost use Rattle.zst_check.specs.Checks.{IsSoundOn, TellsReport};
ghost use Rattle.zst_check.specs.Damage.{IsDamagedPool};
ghost use Rattle.zst_check.specs.ReportNames.{AreNamesIn};

use crate::parts::find_unsound;
use crate::report::Report;
use std::alloc::Global;
use zst_count::count_blocks;
use zst_outside::Disk;
use zst_pool::{Pool, PoolFault};

/// Checks a pool: whether it is sound, and how many different blocks its latest body reaches, or a place at which it isn't.
///
/// All blocks that are reached are read but redacted ones, which have none; what a row shares with a snapshot before it is read once.
/// It takes a bit of memory for each sector below the pool's end, room for one block of data, and a list at a time. After E28 the pool
/// answers E31.
pub fn check<D: Disk>(pool: &mut Pool<'_, D>, alloc: Global) -> Result<Report, PoolFault>
    requires ready { pool.old.io.failed ≡ false → Ready (disk_of pool.old.io) pool.old.kept.body }

    // Of a pool that was at rest a report is told, unless no memory is left or the disk fails.
    ensures told { (tight : Bool) (running : Plain) → IsHonest pool.new.io → pool.old.io.failed ≡ false → IsAtRest tight (disk_of pool.old.io) pool.old.kept running
        → TellsReport (disk_of pool.old.io).seen pool.old.kept.body.uber pool.old.kept.dir running result }

    // Whatever the image is, a pool is told to be sound only where each block that its latest body reaches was read with the
    // right sums, and with their count; what fails is told with names of the rows; and E25 tells a block that was looked at.
    ensures sound { (blocks : ℕ) → IsHonest pool.new.io → result ≡ Ok (Report.Sound blocks)
        → IsSoundOn (disk_of pool.old.io).seen pool.old.kept.body.uber pool.old.kept.dir blocks }
    ensures named { (earlier later : List ℕ) (object block : ℕ) → result ≡ Ok (Report.Unsound earlier later object block)
        → AreNamesIn pool.old.kept.dir earlier later }
    ensures damaged { IsHonest pool.new.io
        → IfErr result (IsOf (IsDamagedPool (disk_of pool.old.io).seen (disk_of pool.old.io).size pool.old.kept.body.uber pool.old.kept.dir)) }

    // And it only reads: no room is wanted, and E31 comes only after E28.
    ensures open_still { pool.old.io.failed ≡ false → ¬ (result ≡ Err PoolFault.Failed) }
    ensures never_full { (need largest : ℕ) → ¬ (result ≡ Err (PoolFault.Full need largest)) }
    ensures only_answers { OnlyAnswers pool.old pool.new }
    ensures settles { Settles pool.old pool.new result }
{
    if pool.io.failed {
        return Err(PoolFault::Failed);
    }
    let space = pool.kept.body.space(alloc)?;
    pool.io.space = space;
    let number = pool.kept.body.uber().number;
    if let Some(report) = find_unsound(&mut pool.io, alloc, &pool.kept.dir, number)? {
        return Ok(report);
    }
    let blocks = count_blocks(&mut pool.io, alloc, pool.kept.body.uber(), &pool.kept.dir)?;
    Ok(Report::Sound { blocks })
}
