ghost use Rattle.std.specs.Prelude.{◌≡◌};
ghost use Rattle.zst_reader.specs.InputReads.{stream_limit};

use crate::batch::Batch;
use crate::block_run::BlockRun;
use crate::commits::{keeps_before, put};
use crate::fault::RecvFault;
use crate::pieces::read;
use crate::received_snapshot::ReceivedSnapshot;
use crate::stage::Stage;
use std::alloc::Global;
use std::mem;
use zst_model::{PlanFault, Point, Quantity, StreamFault};
use zst_names::DatasetName;
use zst_outside::Disk;
use zst_plan::RecvAsk;
use zst_pool::{Pool, PoolFault};
use zst_reader::{Reader, STREAM_LIMIT};

/// What a feed tells.
#[derive(Clone, Copy, Debug, PartialEq, Eq)]
pub struct FeedReport {
    /// How many bytes of the piece are of the stream: all, or those up to its END.
    pub used: usize,
    /// How many records between BEGIN and END it applied.
    pub applied: u64,
    /// Where the stream goes on.
    pub point: Point,
    /// Whether END was covered: the snapshot stands.
    pub done: bool,
}

/// A receive: what it is asked for, the reading of its stream, and where it stands. It has no part of the pool.
#[derive(Drop)]
pub struct Recv {
    ask: RecvAsk,
    reader: Reader,
    run: BlockRun,
    stage: Stage,
}

impl Recv {
    ghost use Rattle.std.specs.Prelude.{◌≡◌, ◌-◌, ℕ, Bool, List, Option, IfErr, IfOk, Err, false, true, not, sum_by, if◌then◌else◌, ◌++◌};
    ghost use Rattle.zst_block.specs.Blocks.{Has};
    ghost use Rattle.zst_block.specs.IoStates.{IsHonest, disk_of};
    ghost use Rattle.zst_image.specs.Commits.{Ready};
    ghost use Rattle.zst_image.specs.Bodies.{free_by};
    ghost use Rattle.zst_image.specs.Reads.{bound_of};
    ghost use Rattle.zst_model.specs.pools.Pool.{Pool as Plain};
    ghost use Rattle.zst_pool.specs.Calls.{IsAtRest};
    ghost use Rattle.zst_pool.specs.Partials.{without_unkept};
    ghost use Rattle.zst_reader.specs.StandsFor.{StandsFor};
    ghost use Rattle.zst_record.specs.Heads.{Covered, size_of};
    ghost use Rattle.zst_space.specs.FreeSectors.{FreeSectors};
    ghost use Rattle.zst_recv.specs.Answers.{Feeds};
    ghost use Rattle.zst_recv.specs.Costs.{CostsPiece, records_behind};
    ghost use Rattle.zst_recv.specs.Faults.{cut_of};
    ghost use Rattle.zst_recv.specs.FedPools.{LeavesFed};
    ghost use Rattle.zst_recv.specs.FedReceives.{IsFresh, TracesSet};
    ghost use Rattle.zst_recv.specs.ReadTexts.{ReadsText};
    ghost use Rattle.zst_recv.specs.ReceiveSteps.{Stage as PlainStage, left_by};
    ghost use Rattle.zst_recv.specs.Stages.{Receives, RecvFits, TellsBefore, ask_of, fed_of, has_partial, is_live, kept_without, point_in, reader_of, received_by, stage_behind, stage_of};

    /// Begins a receive, and takes all of its memory. Nothing is read or committed.
    pub fn open<D: Disk>(
        pool: &mut Pool<'_, D>,
        alloc: Global,
        ask: RecvAsk,
    ) -> Result<Recv, PoolFault>
        ensures fresh { IfOk result (IsFresh pool.new.kept.dir ask) }
        ensures failed_pool { pool.old.io.failed ≡ true → result ≡ Err PoolFault.Failed }
        ensures known { pool.old.io.failed ≡ false → IfErr result (λ fault. fault ≡ PoolFault.OutOfMemory) }
        ensures disk { pool.new.io.disk.now ≡ pool.old.io.disk.now }
        ensures space { pool.new.io.space ≡ pool.old.io.space }
        ensures failed { pool.new.io.failed ≡ pool.old.io.failed }
        ensures checksum_errors { pool.new.io.checksum_errors ≡ pool.old.io.checksum_errors }
        ensures kept { pool.new.kept ≡ pool.old.kept }
        ensures same { pool.new.io.disk.ghost_name ≡ pool.old.io.disk.ghost_name }
    {
        if pool.io.failed {
            return Err(PoolFault::Failed);
        }
        Ok(Recv {
            ask,
            reader: Reader::open(alloc)?,
            run: BlockRun::new(alloc)?,
            stage: Stage::Waits,
        })
    }

    /// Whether it goes on: it is over after END and after a refusal.
    pub fn live(&self) -> bool
        ensures { result ≡ is_live (stage_of self.now) }
    {
        self.stage.is_live()
    }

    /// The dataset that it receives into.
    pub fn target(&self) -> &DatasetName
        ensures { result.now ≡ (ask_of self.now).target }
    {
        &self.ask.target
    }

    /// How many bytes it was fed.
    pub fn fed(&self) -> u64
        ensures { result ≡ fed_of self.now }
    {
        self.reader.pushed()
    }

    /// The snapshot that it made, once END was received.
    pub fn received(&self) -> Option<ReceivedSnapshot>
        ensures { result ≡ received_by self.now }
    {
        self.stage.received()
    }

    /// Takes a piece of the stream, whole or up to its END: each record that it covers is applied, and all of them are
    /// committed once. With END the partial state becomes the snapshot and the head. After a refusal the receive is over.
    pub fn feed<D: Disk>(
        &mut self,
        pool: &mut Pool<'_, D>,
        alloc: Global,
        piece: &[u8],
    ) -> Result<FeedReport, RecvFault>
        requires live { is_live (stage_of self.old) ≡ true }
        requires recv { RecvFits pool.old.kept.dir self.old }
        requires ready { pool.old.io.failed ≡ false → Ready (disk_of pool.old.io) pool.old.kept.body }
        // What the definition makes of the pool that runs and of the receive, at every moment and in the end.
        ensures feeds { (tight : Bool) (running : Plain) (text : List ℕ) (stage : PlainStage) → IsHonest pool.new.io → pool.old.io.failed ≡ false
            → IsAtRest tight (disk_of pool.old.io) pool.old.kept running → TellsBefore (ask_of self.old) stage pool.old.kept.dir running
            → Receives (bound_of tight running.number) (Has (disk_of pool.old.io).seen (free_by pool.old.kept.body)) self.old text stage
            → Feeds tight (disk_of pool.old.io) (disk_of pool.new.io) pool.new.kept self.new text piece.now stage running result }
        // Whatever the image and the text that it was fed: what reading says of it with the piece, unless the pool has failed or no memory is
        // left, and what the piece costs by what it covers behind what was handed out.
        ensures texts { pool.old.io.failed ≡ false → ¬ (result ≡ Err (RecvFault.Pool PoolFault.OutOfMemory)) → (text : List ℕ) (handed : List Covered) → StandsFor (reader_of self.old) text handed
            → ReadsText pool.old.kept.dir (ask_of self.old) text handed (text ++ piece.now) (stage_of self.old) (stage_of self.new) (reader_of self.new) result }
        ensures costs { (text : List ℕ) (handed : List Covered) → StandsFor (reader_of self.old) text handed
            → CostsPiece (records_behind handed (text ++ piece.now)) pool.old.kept pool.new.kept pool.new.io.space result }
        // Whatever the image, E25 tells a damage of the set that the piece began with, as the disk read then, before BEGIN of the one that
        // its plan takes over the rows; and the set of a partial state that goes on was made of that one.
        ensures traces { (text : List ℕ) (handed : List Covered) → StandsFor (reader_of self.old) text handed → IsHonest pool.new.io
            → TracesSet (disk_of pool.old.io) (free_by pool.old.kept.body) pool.old.kept.dir (ask_of self.old) (text ++ piece.now) (stage_of self.old) pool.old.io.failed (disk_of pool.new.io).seen (free_by pool.new.kept.body) (stage_of self.new) result }
        // Whatever the image, and whatever is answered: what it leaves of the pool, of the rows and of the receive.
        ensures leaves { LeavesFed piece.now self.old self.new pool.old pool.new result }
    {
        if pool.io.failed {
            self.stage = Stage::Over;
            return Err(RecvFault::Pool(PoolFault::Failed));
        }
        let (started, held) = (self.reader.pushed(), self.stage.has_partial());
        if piece.len() as u64 > STREAM_LIMIT - started {
            return Err(self.give_up(pool, held, too_long()));
        }
        if pool.renew(alloc).is_err() {
            let fault = RecvFault::Pool(PoolFault::OutOfMemory);
            return Err(self.give_up(pool, held, fault));
        }
        let mut batch = Batch::new(mem::replace(&mut self.stage, Stage::Over));
        let (io, kept) = (&mut pool.io, &pool.kept);
        let (reader, run) = (&mut self.reader, &mut self.run);
        match read(reader, run, io, kept, &self.ask, &mut batch, piece) {
            Ok(()) => match put(pool, alloc, &batch) {
                Ok(()) => Ok(self.go_on(batch, started, piece.len())),
                Err(fault) => Err(self.give_up(pool, held, RecvFault::Pool(fault))),
            },
            Err(fault) if keeps_before(&fault) && batch.stage.is_kept() => {
                match put(pool, alloc, &batch) {
                    Ok(()) => Err(fault),
                    Err(other) => Err(self.give_up(pool, held, RecvFault::Pool(other))),
                }
            }
            Err(fault) => Err(self.give_up(pool, held, fault)),
        }
    }

    /// Ends a receive: E20 where it was live, and its partial state stays only where it is kept.
    pub fn cut<D: Disk>(self, pool: &mut Pool<'_, D>) -> Result<(), StreamFault>
        requires recv { RecvFits pool.old.kept.dir self }
        ensures result { result ≡ cut_of (is_live (stage_of self)) (fed_of self) }
        // Whatever the image: one that is over, or waits for BEGIN, changes nothing; and else a partial state of the target that isn't kept goes.
        ensures leaves { pool.new.kept ≡ kept_without (has_partial (stage_of self)) (ask_of self).target pool.old.kept }
        ensures rests { (tight : Bool) (bound : Option ℕ) (disk : D) (running : Plain) (image : List ℕ) (space : FreeSectors) (stage : PlainStage) (text : List ℕ) → IsAtRest tight (D.state disk) pool.old.kept running
            → Receives bound (Has image space) self text stage → IsAtRest tight (D.state disk) pool.new.kept (left_by stage running) }
        ensures body { pool.new.kept.body ≡ pool.old.kept.body }
        ensures io { pool.new.io ≡ pool.old.io }
    {
        let mut ended = self;
        if !ended.live() {
            return Ok(());
        }
        let fault = StreamFault::Truncated {
            at: ended.reader.pushed(),
        };
        let held = ended.stage.has_partial();
        ended.leave(pool, held);
        Err(fault)
    }

    // Goes on behind what was committed, and tells of it.
    fn go_on(&mut self, batch: Batch, started: u64, len: usize) -> FeedReport
        ensures ask { ask_of self.new ≡ ask_of self.old }
        ensures reader { reader_of self.new ≡ reader_of self.old }
        ensures stage { stage_of self.new ≡ stage_behind batch.stage }
        ensures all { is_live batch.stage ≡ true → result.used ≡ len }
        ensures front { (text : List ℕ) (handed : List Covered) → StandsFor (reader_of self.old) text handed → is_live batch.stage ≡ false → result.used ≡ sum_by (λ c. size_of c.head) handed - started }
        ensures applied { result.applied ≡ batch.applied }
        ensures point { result.point ≡ point_in batch.stage }
        ensures done { result.done ≡ not (is_live batch.stage) }
    {
        let (point, done) = (batch.stage.point(), !batch.stage.is_live());
        let used = if done {
            self.reader.covered().saturating_sub(started) as usize
        } else {
            len
        };
        let applied = batch.applied;
        self.stage = batch.stage.settled();
        FeedReport {
            used,
            applied,
            point,
            done,
        }
    }

    // It is over, and the partial state of the target goes, where it was committed and isn't kept.
    fn leave<D: Disk>(&mut self, pool: &mut Pool<'_, D>, held: bool)
        ensures over { stage_of self.new ≡ Stage.Over }
        ensures ask { ask_of self.new ≡ ask_of self.old }
        ensures reader { reader_of self.new ≡ reader_of self.old }
        ensures rests { (tight : Bool) (disk : D) (running : Plain) → IsAtRest tight (D.state disk) pool.old.kept running
            → IsAtRest tight (D.state disk) pool.new.kept (if held then without_unkept (ask_of self.old).target running else running) }
        ensures kept { pool.new.kept ≡ kept_without held (ask_of self.old).target pool.old.kept }
        ensures body { pool.new.kept.body ≡ pool.old.kept.body }
        ensures io { pool.new.io ≡ pool.old.io }
    {
        self.stage = Stage::Over;
        if held {
            pool.drop_partial(&self.ask.target);
        }
    }

    // It is over for this fault.
    fn give_up<D: Disk>(
        &mut self,
        pool: &mut Pool<'_, D>,
        held: bool,
        fault: RecvFault,
    ) -> RecvFault
        ensures fault { result ≡ fault }
        ensures over { stage_of self.new ≡ Stage.Over }
        ensures ask { ask_of self.new ≡ ask_of self.old }
        ensures reader { reader_of self.new ≡ reader_of self.old }
        ensures rests { (tight : Bool) (disk : D) (running : Plain) → IsAtRest tight (D.state disk) pool.old.kept running
            → IsAtRest tight (D.state disk) pool.new.kept (if held then without_unkept (ask_of self.old).target running else running) }
        ensures kept { pool.new.kept ≡ kept_without held (ask_of self.old).target pool.old.kept }
        ensures body { pool.new.kept.body ≡ pool.old.kept.body }
        ensures io { pool.new.io ≡ pool.old.io }
    {
        self.leave(pool, held);
        fault
    }
}

// E23: the stream would have more bytes than a stream may have.
fn too_long() -> RecvFault
    ensures { result ≡ RecvFault.Pool (PoolFault.Plan (PlanFault.Limit Quantity.Stream stream_limit)) }
{
    RecvFault::Pool(PoolFault::Plan(PlanFault::Limit {
        which: Quantity::Stream,
        number: STREAM_LIMIT,
    }))
}
