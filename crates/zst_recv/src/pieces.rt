// How a piece is read: each record that it covers is taken.
ghost use Rattle.std.specs.Prelude.{◌+◌, ◌++◌, ◌≤◌, ◌^◌, ℕ, Bool, List, [], length, IfOk};
ghost use Rattle.zst_block.specs.IoStates.{IsHonest, blocks_of, disk_of, io_of};
ghost use Rattle.zst_image.specs.Reads.{bound_of};
ghost use Rattle.zst_model.specs.pools.Pool.{Pool as Plain};
ghost use Rattle.zst_pool.specs.Calls.{IsUnderWay};
ghost use Rattle.zst_reader.specs.StandsFor.{HandsOut, StandsFor, pushed_of};
ghost use Rattle.zst_record.specs.Heads.{Covered};
ghost use Rattle.zst_stream.specs.Reading.{waiting};
ghost use Rattle.zst_recv.specs.Batches.{Gathers, WritesRecords};
ghost use Rattle.zst_recv.specs.Costs.{Spends, records_behind};
ghost use Rattle.zst_recv.specs.Faults.{stop_of};
ghost use Rattle.zst_recv.specs.ReadTexts.{Empties, LeavesStage, ReadsText, TakesPiece};
ghost use Rattle.zst_recv.specs.ReceiveSteps.{Batch as PlainBatch};
ghost use Rattle.zst_recv.specs.Stages.{HasRead, IsBatch, StageFits, StandsBehind, TellsBefore};
ghost use Rattle.zst_recv.specs.TakenRecords.{Drains, HandedOn, Reads};

use crate::batch::Batch;
use crate::block_run::BlockRun;
use crate::fault::RecvFault;
use crate::gathering::gather;
use zst_block::Io;
use zst_image::PoolState;
use zst_outside::Disk;
use zst_plan::RecvAsk;
use zst_reader::Reader;

// Takes the covered records that are there, and answers whether END was one: none is put off then.
fn drain<D: Disk>(
    reader: &mut Reader,
    run: &mut BlockRun,
    io: &mut Io<'_, D>,
    kept: &PoolState,
    ask: &RecvAsk,
    batch: &mut Batch,
) -> Result<bool, RecvFault>
    requires stage { StageFits kept.now.dir ask.now.target batch.old.stage }
    requires reads { HasRead reader.old batch.old.stage }
    ensures drained { (tight : Bool) (start : D) (running : Plain) (plain : PlainBatch) (text : List ℕ) (handed : List Covered) → IsHonest io.new
        → IsUnderWay tight (D.state start) (disk_of io.old) io.old.space kept.now running → TellsBefore ask.now plain.stage kept.now.dir running
        → StandsFor reader.old text handed → IsBatch (bound_of tight (running.number + 1)) (blocks_of io.old) batch.old plain
        → Drains ask.now running reader.new text handed (IsBatch (bound_of tight (running.number + 1)) (blocks_of io.new) batch.new) plain result }
    ensures gathers { Gathers kept.now.dir ask.now.target batch.old batch.new }
    ensures writes { WritesRecords (io_of io.old) (io_of io.new) result }
    // Before what was pushed nothing need have been covered.
    ensures texts { (text : List ℕ) (handed : List Covered) → StandsFor reader.old text handed → ReadsText kept.now.dir ask.now [] handed text batch.old.stage batch.new.stage reader.new result }
    ensures leaves { (text : List ℕ) (handed : List Covered) → StandsFor reader.old text handed → LeavesStage kept.now.dir ask.now [] text batch.old.stage batch.new.stage (io_of io.old) (io_of io.new) result }
    ensures behind { (text : List ℕ) (handed : List Covered) → StandsFor reader.old text handed → StandsBehind handed batch.old.stage → IfOk result (HandedOn reader.new text batch.new.stage) }
    ensures empties { Empties reader.old reader.new result }
    // What was handed out took no more sectors than it costs, the refused record among it.
    ensures spends { (text : List ℕ) (handed : List Covered) → StandsFor reader.old text handed
        → (records : List Covered) × StandsFor reader.new text (handed ++ records) × Spends records io.old.space io.new.space (stop_of result) }
{
    run.clear();
    let outcome = gather(reader, run, io, kept, ask, batch);
    if run.is_empty() {
        return outcome;
    }
    run.settle(io, batch, kept.body.uber().number.saturating_add(1))?;
    outcome
}

/// Reads a piece up to its end or to END: the records that it covers are taken, up to the first fault.
pub(crate) fn read<D: Disk>(
    reader: &mut Reader,
    run: &mut BlockRun,
    io: &mut Io<'_, D>,
    kept: &PoolState,
    ask: &RecvAsk,
    batch: &mut Batch,
    piece: &[u8],
) -> Result<(), RecvFault>
    requires stage { StageFits kept.now.dir ask.now.target batch.old.stage }
    requires reads { HasRead reader.old batch.old.stage }
    requires limit { pushed_of reader.old + length piece.now ≤ 2 ^ 62 }
    ensures read { (tight : Bool) (start : D) (running : Plain) (plain : PlainBatch) (text : List ℕ) (handed : List Covered) → IsHonest io.new
        → IsUnderWay tight (D.state start) (disk_of io.old) io.old.space kept.now running → TellsBefore ask.now plain.stage kept.now.dir running
        → HandsOut reader.old text handed waiting → IsBatch (bound_of tight (running.number + 1)) (blocks_of io.old) batch.old plain
        → Reads ask.now running reader.new text piece.now (IsBatch (bound_of tight (running.number + 1)) (blocks_of io.new) batch.new) plain result }
    ensures gathers { Gathers kept.now.dir ask.now.target batch.old batch.new }
    ensures writes { WritesRecords (io_of io.old) (io_of io.new) result }
    ensures texts { (text : List ℕ) (handed : List Covered) → StandsFor reader.old text handed → ReadsText kept.now.dir ask.now text handed (text ++ piece.now) batch.old.stage batch.new.stage reader.new result }
    ensures leaves { (text : List ℕ) (handed : List Covered) → StandsFor reader.old text handed → LeavesStage kept.now.dir ask.now text (text ++ piece.now) batch.old.stage batch.new.stage (io_of io.old) (io_of io.new) result }
    ensures takes { TakesPiece piece.now reader.old reader.new batch.new.stage result }
    // Whatever the text: the records that it covers behind those that were handed out took no more sectors than they cost.
    ensures spends { (text : List ℕ) (handed : List Covered) → StandsFor reader.old text handed → Spends (records_behind handed (text ++ piece.now)) io.old.space io.new.space (stop_of result) }
{
    let mut rest = piece;
    'pushes: while !rest.is_empty() {
        let count = reader.push(rest);
        rest = &rest[count..];
        if drain(reader, run, io, kept, ask, batch)? {
            return Ok(());
        }
    }
    Ok(())
}
