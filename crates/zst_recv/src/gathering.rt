// How covered records are gathered: each is put off behind its neighbours, or those are applied and it is taken or put off.
ghost use Rattle.std.specs.Prelude.{◌≡◌, ◌<◌, ◌+◌, ◌++◌, ◌∷◌, ℕ, Bool, List, [], Err, IfErr, IfOk, OnErr, true};
ghost use Rattle.zst_block.specs.IoStates.{IsHonest, IsSparedBy, blocks_of, disk_of, io_of};
ghost use Rattle.zst_image.specs.Reads.{bound_of};
ghost use Rattle.zst_model.specs.pools.Pool.{Pool as Plain};
ghost use Rattle.zst_pool.specs.Calls.{IsUnderWay};
ghost use Rattle.zst_reader.specs.StandsFor.{StandsFor};
ghost use Rattle.zst_record.specs.Heads.{Covered, covered_of};
ghost use Rattle.zst_recv.specs.Batches.{Gathers, MovesOn, PlansBegin, WritesRecords};
ghost use Rattle.zst_recv.specs.Damage.{ComesFrom, IsDamagedFeed};
ghost use Rattle.zst_recv.specs.Faults.{Fills, IsRecordFault, stop_of};
ghost use Rattle.zst_recv.specs.Plans.{BeginsAt};
ghost use Rattle.zst_recv.specs.PutOffWrites.{GathersAll, IsDue, IsPutOff, Passes, SettlesFault, SpendsFirst, SpendsGathered, count_of};
ghost use Rattle.zst_recv.specs.ReadTexts.{Empties, LeavesStage, ReadsText};
ghost use Rattle.zst_recv.specs.ReceiveSteps.{Batch as PlainBatch};
ghost use Rattle.zst_recv.specs.Stages.{HasRead, IsBatch, StageFits, StandsBehind, TellsBefore, has_partial, waits_at};
ghost use Rattle.zst_recv.specs.TakenRecords.{HandedOn, IsRead};

use crate::batch::Batch;
use crate::block_run::BlockRun;
use crate::fault::RecvFault;
use zst_block::Io;
use zst_image::PoolState;
use zst_outside::Disk;
use zst_plan::RecvAsk;
use zst_pool::PoolFault;
use zst_reader::{Reader, Step};
use zst_record::Record;
use zst_stream::faults_are_found;

// Takes a record, or puts it off: it follows those that are put off, or they are applied and it begins others or is taken.
fn pass<D: Disk>(
    run: &mut BlockRun,
    io: &mut Io<'_, D>,
    kept: &PoolState,
    ask: &RecvAsk,
    batch: &mut Batch,
    covered: &Record<'_>,
) -> Result<(), RecvFault>
    requires stage { StageFits kept.now.dir ask.now.target batch.old.stage }
    requires covered { IsRead (covered_of covered.now) }
    requires lives { 0 < count_of run.old → has_partial batch.old.stage ≡ true }
    ensures passed { (tight : Bool) (start : D) (running : Plain) (plain : PlainBatch) (records : List Covered) → IsHonest io.new → IsUnderWay tight (D.state start) (disk_of io.old) io.old.space kept.now running → TellsBefore ask.now plain.stage kept.now.dir running
        → IsDue run.old records plain → IsBatch (bound_of tight (running.number + 1)) (blocks_of io.old) batch.old plain
        → Passes ask.now running run.new records (covered_of covered.now) (IsBatch (bound_of tight (running.number + 1)) (blocks_of io.new) batch.new) plain result }
    ensures moves { MovesOn kept.now.dir ask.now.target covered.now.head.now batch.old batch.new result }
    ensures plans { PlansBegin kept.now.dir ask.now covered.now.head.now (waits_at batch.old.stage) result }
    ensures known { IfErr result IsRecordFault }
    ensures damaged { (text : List ℕ) (sector : ℕ) (stated found : List ℕ) → IsHonest io.new → result ≡ Err (RecvFault.Pool (PoolFault.Damaged sector stated found))
        → IsDamagedFeed (disk_of io.old) io.old.space kept.now.dir ask.now text batch.old.stage sector stated found }
    ensures comes { (text : List ℕ) → BeginsAt (waits_at batch.old.stage) text covered.now.head.now → IsHonest io.new → ComesFrom kept.now.dir ask.now text (IsSparedBy io.old) (disk_of io.old).size batch.old.stage (IsSparedBy io.new) batch.new.stage }
    ensures fills { Fills (io_of io.old) (io_of io.new) (stop_of result) }
    ensures spends { (records : List Covered) → IsPutOff run.old records → SpendsFirst run.new (records ++ covered_of covered.now ∷ []) io.old.space io.new.space (stop_of result) }
    ensures lives { 0 < count_of run.new → has_partial batch.new.stage ≡ true }
    ensures none { OnErr result (IsPutOff run.new []) }
{
    if run.follows(covered) {
        return Ok(());
    }
    run.settle(io, batch, kept.body.uber().number.saturating_add(1))?;
    if run.begins(io, &batch.stage, covered)? {
        return Ok(());
    }
    batch.take(io, kept, ask, covered)
}

/// Gathers the covered records that are there, and answers whether END was one: those that are put off stand behind the others.
pub(crate) fn gather<D: Disk>(
    reader: &mut Reader,
    run: &mut BlockRun,
    io: &mut Io<'_, D>,
    kept: &PoolState,
    ask: &RecvAsk,
    batch: &mut Batch,
) -> Result<bool, RecvFault>
    requires stage { StageFits kept.now.dir ask.now.target batch.old.stage }
    requires reads { HasRead reader.old batch.old.stage }
    requires none { IsPutOff run.old [] }
    ensures gathered { (tight : Bool) (start : D) (running : Plain) (plain : PlainBatch) (text : List ℕ) (handed : List Covered) → IsHonest io.new
        → IsUnderWay tight (D.state start) (disk_of io.old) io.old.space kept.now running → TellsBefore ask.now plain.stage kept.now.dir running
        → StandsFor reader.old text handed → IsBatch (bound_of tight (running.number + 1)) (blocks_of io.old) batch.old plain
        → GathersAll ask.now running run.new reader.new text handed (IsBatch (bound_of tight (running.number + 1)) (blocks_of io.new) batch.new) plain result }
    ensures gathers { Gathers kept.now.dir ask.now.target batch.old batch.new }
    ensures writes { WritesRecords (io_of io.old) (io_of io.new) result }
    ensures texts { (text : List ℕ) (handed : List Covered) → StandsFor reader.old text handed → ReadsText kept.now.dir ask.now [] handed text batch.old.stage batch.new.stage reader.new result }
    ensures leaves { (text : List ℕ) (handed : List Covered) → StandsFor reader.old text handed → LeavesStage kept.now.dir ask.now [] text batch.old.stage batch.new.stage (io_of io.old) (io_of io.new) result }
    ensures behind { (text : List ℕ) (handed : List Covered) → StandsFor reader.old text handed → StandsBehind handed batch.old.stage → IfOk result (HandedOn reader.new text batch.new.stage) }
    ensures empties { Empties reader.old reader.new result }
    ensures spends { (text : List ℕ) (handed : List Covered) → StandsFor reader.old text handed → SpendsGathered run.new reader.new text handed io.old.space io.new.space (stop_of result) }
    ensures lives { 0 < count_of run.new → has_partial batch.new.stage ≡ true }
    ensures settled { IfErr result (SettlesFault run.new) }
{
    faults_are_found();
    'records: loop {
        match reader.next() {
            Ok(Step::Record(record)) => pass(run, io, kept, ask, batch, &record)?,
            Ok(Step::NeedMore) => return Ok(false),
            Ok(Step::End) => return Ok(true),
            Err(fault) => return Err(RecvFault::Stream(fault)),
        }
    }
}
