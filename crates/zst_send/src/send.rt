ghost use Rattle.std.specs.Prelude.{◌≡◌};
ghost use Rattle.zst_model.specs.sends.View.{header_from};
ghost use Rattle.zst_record.specs.Payload.{stated_point};

use crate::block_buffer::BlockBuffer;
use crate::lists::{list_at, source_list};
use crate::send_state::SendState;
use crate::subject::Subject;
use std::alloc::Global;
use zst_block::Io;
use zst_dir::Dir;
use zst_model::features::RESUMING;
use zst_model::{Header, Point, SendAsk};
use zst_outside::Disk;
use zst_plan::{SendPlan, send_plan};
use zst_pool::{Pool, PoolFault};
use zst_roots::HeldBlocks;

/// A send: what it is of, where it stands, and a buffer for one block. It has no part of the pool.
#[derive(Drop)]
pub struct Send {
    subject: Subject,
    stand: SendState,
    buffer: BlockBuffer,
}

impl Send {
    ghost use Rattle.std.specs.Prelude.{Bool, Option, ◌≡◌, ◌==◌, ◌≤◌, false, Contains, List, [], ℕ, IfErr, IfOk, None, Some, length, Ok};
    ghost use Rattle.std.specs.List.{position};
    ghost use Rattle.zst_space.specs.FreeSectors.{FreeSectors};
    ghost use Rattle.zst_block.specs.Blocks.{Has};
    ghost use Rattle.zst_block.specs.IoCalls.{Looks};
    ghost use Rattle.zst_block.specs.IoStates.{IsHonest, blocks_of, disk_of, io_of};
    ghost use Rattle.zst_dir.specs.RowNames.{AreNamed};
    ghost use Rattle.zst_dir.specs.declared.rows.Snapshot.{Snapshot as SnapshotRow};
    ghost use Rattle.zst_image.specs.Reads.{RunsBy};
    ghost use Rattle.zst_model.specs.fields.Lists.{has_pair};
    ghost use Rattle.zst_model.specs.pools.Pool.{Pool as Plain};
    ghost use Rattle.zst_model.specs.declared.refusals.subjects.Name.TheVariants as names;
    ghost use Rattle.zst_model.specs.declared.sends.header.Point.{Point};
    ghost use Rattle.zst_model.specs.sends.Headers.{Sent, source_runs};
    ghost use Rattle.zst_model.specs.sends.SendPlan.{send_plan};
    ghost use Rattle.zst_objset.specs.Dnodes.{outside};
    ghost use Rattle.zst_objset.specs.TightSets.{SetIsTightIn};
    ghost use Rattle.zst_plan.specs.Plans.{IsInside, IsPlanOf};
    ghost use Rattle.zst_pool.specs.Damage.{IsOf};
    ghost use Rattle.zst_pool.specs.Lookups.{set_named};
    ghost use Rattle.zst_pool.specs.Queries.{stop_of};
    ghost use Rattle.zst_send.specs.Costs.{TakeCosts};
    ghost use Rattle.zst_send.specs.Damage.{IsDamagedSend};
    ghost use Rattle.zst_send.specs.HeldPointers.{held_of};
    ghost use Rattle.zst_send.specs.KnownPointers.{IsAmong, Knows};
    ghost use Rattle.zst_send.specs.Openings.{IsDamagedOpening, IsDamagedPlan, IsPlanned, IsRedactedAt, IsUnlisted, Opens, ReadsLists, Resumes, StandsPlanned, StandsSent, Starts, runs_in, set_where, set_with};
    ghost use Rattle.zst_send.specs.PendingRecords.{BufferFits};
    ghost use Rattle.zst_send.specs.Sends.{SendFits, SendsFrom, TakesFrom, begun_text, sent_set};
    ghost use Rattle.zst_send.specs.Subjects.{IsTightFor};
    ghost use Rattle.zst_send.specs.Takes.{AreThere, FillsAtMost, ReadsPool};

    /// Plans a send, makes the list of a redacted source, reads those of its bookmarks and takes all of its memory.
    pub fn open<D: Disk>(
        pool: &mut Pool<'_, D>,
        alloc: Global,
        ask: &SendAsk,
    ) -> Result<Send, PoolFault>
        // By its plan it has given nothing, and all of its text is left, where what the send needs stands, whatever else is damaged.
        ensures opens { (running : Plain) → IsHonest pool.new.io → pool.old.io.failed ≡ false → AreNamed pool.old.kept.dir running
            → StandsPlanned (blocks_of pool.old.io) pool.old.kept.dir running (send_plan ask.now running) → Opens (blocks_of pool.new.io) ask.now running result }
        // Of a pool of tight sets its set is tight.
        ensures tight { (image : List ℕ) (space : FreeSectors) (running : Plain) (number : ℕ) → pool.old.io.failed ≡ false → RunsBy (Some number) (Has image space) pool.old.kept.dir running
            → IfOk result (λ send. (sent : Sent) → send_plan ask.now running ≡ Ok sent → SetIsTightIn (Has image space) (outside (has_pair send.subject.redact) (Has image space)) send.subject.set sent.snapshot.objects) }
        // Its refusals are those of the rows alone, whatever the object sets and the lists hold, unless a list can't be read or made.
        ensures planned { (running : Plain) → pool.old.io.failed ≡ false → AreNamed pool.old.kept.dir running → IsPlanned (send_plan ask.now running) result }
        // E25 tells a list of one of its two bookmarks, or the set of a redacted source.
        ensures damaged { IsHonest pool.new.io → IfErr result (IsOf (IsDamagedOpening pool.old.io.space.end (disk_of pool.old.io).seen (disk_of pool.old.io).size pool.old.kept.dir (send_plan ask.now))) }
        // It is of the object set that the asked name has, and keeps no pointer yet.
        ensures set { IfOk result (λ send. set_named (names.Snapshot ask.now.snap) pool.old.kept.dir ≡ Some (sent_set send)) }
        ensures knows { (images : List (List ℕ)) → IfOk result (Knows (IsAmong images)) }
        ensures fits { IfOk result SendFits }
        // The pool is only read.
        ensures pool { ReadsLists pool.old pool.new result }
    {
        if pool.io.failed {
            return Err(PoolFault::Failed);
        }
        let plan = send_plan(&pool.kept.dir, ask)?;
        Send::of_plan(&mut pool.io, alloc, &pool.kept.dir, &plan, None)
    }

    /// A send by this plan from a point on, which makes the list of a redacted source, reads those of its bookmarks and takes
    /// all of its memory: its BEGIN has RESUMING and that point besides.
    pub fn resume<D: Disk>(
        pool: &mut Pool<'_, D>,
        alloc: Global,
        plan: &SendPlan,
        point: Point,
    ) -> Result<Send, PoolFault>
        requires inside { IsInside pool.old.kept.dir plan.now }

        // By its plan it has given nothing, and all of its text from the point on is left, where what the send needs stands.
        ensures resumes { (running : Plain) (sent : Sent) → IsHonest pool.new.io → pool.old.io.failed ≡ false → AreNamed pool.old.kept.dir running → IsPlanOf pool.old.kept.dir running plan.now sent
            → StandsSent (blocks_of pool.old.io) pool.old.kept.dir running sent → Resumes (blocks_of pool.new.io) sent point result }
        // Of a pool of tight sets its set is tight.
        ensures tight { (image : List ℕ) (space : FreeSectors) (running : Plain) (sent : Sent) (number : ℕ) → RunsBy (Some number) (Has image space) pool.old.kept.dir running → IsPlanOf pool.old.kept.dir running plan.now sent
            → IfOk result (λ send. SetIsTightIn (Has image space) (outside (has_pair send.subject.redact) (Has image space)) send.subject.set sent.snapshot.objects) }
        // It isn't refused, unless a list can't be read or made.
        ensures planned { (running : Plain) (sent : Sent) → pool.old.io.failed ≡ false → AreNamed pool.old.kept.dir running → IsPlanOf pool.old.kept.dir running plan.now sent → IsPlanned (Ok sent) result }
        // E25 tells a list of one of its two bookmarks, or the set of a redacted source.
        ensures damaged { IsHonest pool.new.io → IfErr result (IsOf (IsDamagedPlan pool.old.io.space.end (disk_of pool.old.io).seen (disk_of pool.old.io).size pool.old.kept.dir plan.now)) }
        // It is of the object set of the planned snapshot, the first with its guid, and keeps no pointer yet.
        ensures set { (guid : ℕ) → position (λ snapshot. snapshot.guid == guid) pool.old.kept.dir.snapshots ≡ Some plan.now.snap → IfOk result (λ send. set_with guid pool.old.kept.dir ≡ Some (sent_set send)) }
        ensures knows { (images : List (List ℕ)) → IfOk result (Knows (IsAmong images)) }
        ensures fits { IfOk result SendFits }
        // The pool is only read.
        ensures pool { ReadsLists pool.old pool.new result }
    {
        if pool.io.failed {
            return Err(PoolFault::Failed);
        }
        Send::of_plan(&mut pool.io, alloc, &pool.kept.dir, plan, Some(point))
    }

    /// Fills `into` with the next bytes, and counts them: fewer are given exactly at the end. After
    /// a refusal it stands where it stood, and `into` may hold any bytes.
    pub fn take<D: Disk>(
        &mut self,
        pool: &mut Pool<'_, D>,
        into: &mut [u8],
    ) -> Result<usize, PoolFault>
        requires send { SendFits self.old }

        // The next bytes of the text are given, and those behind them are left.
        ensures takes_from { (sent : Sent) (start : Option Point) (given left : List ℕ) → IsHonest pool.new.io → SendsFrom (blocks_of pool.old.io) self.old sent start given left
            → TakesFrom (blocks_of pool.new.io) self.new sent start given left into.new result }
        // Whatever the image, only as many as were asked are given.
        ensures into { FillsAtMost into.old into.new result }
        // Its subject stays, and the pool is only read.
        ensures subject { self.new.subject ≡ self.old.subject }
        ensures pool { ReadsPool pool.old pool.new result }
        // Among the images that the disk had so far, it keeps what may stand in the set, and E25 names a block of it.
        ensures knows { (images : List (List ℕ)) → Contains images (disk_of pool.old.io).seen → IsHonest pool.new.io → Knows (IsAmong images) self.old → Knows (IsAmong images) self.new }
        ensures damaged { (images : List (List ℕ)) → Contains images (disk_of pool.old.io).seen → IsHonest pool.new.io → Knows (IsAmong images) self.old
            → IfErr result (IsOf (IsDamagedSend (IsAmong images) (disk_of pool.old.io).size self.old.subject.set)) }
        ensures send { SendFits self.new }
        // Where no asked byte needs a read, they are given, and the disk isn't called: E25 and E28 come only where one does.
        ensures there { pool.old.io.failed ≡ false → AreThere self.old.stand.pending self.old.buffer.holds (length into.old)
            → (result ≡ Ok (length into.old)) × ((disk_of pool.new.io).calls ≤ (disk_of pool.old.io).calls) }
        // Of a set whose slots are tight, and with lists of included numbers, it calls the disk for the items that have a byte of what it gave, and for two looks more.
        ensures costs { (sent : Sent) (start : Option Point) (given left : List ℕ) → IsHonest pool.new.io → SendsFrom (blocks_of pool.old.io) self.old sent start given left
            → IsTightFor (blocks_of pool.old.io) self.old.subject sent.snapshot.objects
            → TakeCosts (blocks_of pool.old.io) (blocks_of pool.new.io) sent start (length given) self.old self.new (disk_of pool.old.io).calls (disk_of pool.new.io).calls result }
    {
        if pool.io.failed {
            return Err(PoolFault::Failed);
        }
        // A copy goes on, so that a refusal leaves the send where it stood.
        let mut stand = self.stand;
        let count = stand.fill(&mut self.buffer, &mut pool.io, &self.subject, into)?;
        self.stand = stand;
        Ok(count)
    }

    /// What it holds of its pool as long as it is open: a reclaim that is told of it leaves that.
    pub fn held(&self) -> HeldBlocks
        ensures { result ≡ held_of self.now }
    {
        HeldBlocks {
            set: self.subject.set,
            blocks: [
                self.stand.walk.pointer_due(),
                self.stand.pending.payload.pointer(),
                self.buffer.holds(),
            ],
        }
    }

    // A send by this plan, from its beginning or from a point, over a disk that works, of which its lists are made and read.
    fn of_plan<D: Disk>(
        io: &mut Io<'_, D>,
        alloc: Global,
        dir: &Dir,
        plan: &SendPlan,
        start: Option<Point>,
    ) -> Result<Send, PoolFault>
        requires inside { IsInside dir.now plan.now }
        ensures starts { (running : Plain) (sent : Sent) → IsHonest io.new → AreNamed dir.now running → IsPlanOf dir.now running plan.now sent → StandsSent (blocks_of io.old) dir.now running sent
            → Starts (blocks_of io.new) sent start result }
        ensures tight { (image : List ℕ) (space : FreeSectors) (running : Plain) (sent : Sent) (number : ℕ) → RunsBy (Some number) (Has image space) dir.now running → IsPlanOf dir.now running plan.now sent
            → IfOk result (λ send. SetIsTightIn (Has image space) (outside (has_pair send.subject.redact) (Has image space)) send.subject.set sent.snapshot.objects) }
        ensures unlisted { IfErr result (IsUnlisted (IsRedactedAt dir.now plan.now.from_snap)) }
        ensures damaged { IsHonest io.new → IfErr result (IsOf (IsDamagedPlan io.old.space.end (disk_of io.old).seen (disk_of io.old).size dir.now plan.now)) }
        ensures set { (test : SnapshotRow → Bool) → position test dir.now.snapshots ≡ Some plan.now.snap → IfOk result (λ send. set_where test dir.now ≡ Some (sent_set send)) }
        ensures knows { (images : List (List ℕ)) → IfOk result (Knows (IsAmong images)) }
        ensures fits { IfOk result SendFits }
        ensures looks { Looks (io_of io.old) (io_of io.new) (stop_of result) }
    {
        let listed = source_list(io, alloc, dir, plan)?;
        let redact = list_at(io, alloc, dir, plan.book_t)?;
        let buffer = BlockBuffer::new(alloc)?;
        Ok(Send::planned(dir, plan, start, listed, redact, buffer))
    }

    // A send by this plan, with these lists, that has given nothing, from its beginning or from a point.
    fn planned(
        dir: &Dir,
        plan: &SendPlan,
        start: Option<Point>,
        listed: zst_model::List,
        redact: zst_model::List,
        buffer: BlockBuffer,
    ) -> Send
        requires inside { IsInside dir.now plan.now }
        requires buffer { BufferFits buffer }
        requires empty { buffer.holds ≡ None }
        ensures set { (test : SnapshotRow → Bool) → position test dir.now.snapshots ≡ Some plan.now.snap → set_where test dir.now ≡ Some (sent_set result) }
        ensures knows { (images : List (List ℕ)) → Knows (IsAmong images) result }
        ensures fits { SendFits result }
        ensures sends { (image : List ℕ) (space : FreeSectors) (running : Plain) (sent : Sent) → AreNamed dir.now running → IsPlanOf dir.now running plan.now sent → StandsSent (Has image space) dir.now running sent
            → listed ≡ source_runs sent.source → redact ≡ runs_in sent.redaction → SendsFrom (Has image space) result sent start [] (begun_text sent start) }
        ensures tight { (image : List ℕ) (space : FreeSectors) (running : Plain) (sent : Sent) (number : ℕ) → RunsBy (Some number) (Has image space) dir.now running → IsPlanOf dir.now running plan.now sent
            → SetIsTightIn (Has image space) (outside (has_pair result.subject.redact) (Has image space)) result.subject.set sent.snapshot.objects }
    {
        let header = header_from(plan.header(dir), start);
        let point = stated_point(start);
        let subject = Subject {
            set: dir.snapshots()[plan.snap].objects,
            source: plan.from_number,
            listed,
            redact,
            to: header.to,
        };
        Send {
            subject,
            stand: SendState::start(header, point),
            buffer,
        }
    }
}

/// The header of a stream that begins at a point: it has RESUMING and the point besides.
#[tactic(auto, unfolding(zst_model::specs::sends::Features::resuming))]
fn header_from(header: Header, start: Option<Point>) -> Header
    ensures { result ≡ header_from header start }
{
    match start {
        None => header,
        Some(point) => Header {
            features: header.features | RESUMING,
            resume: Some(point),
            ..header
        },
    }
}

/// Where a stream begins: before all numbers, where no point is given.
fn stated_point(start: Option<Point>) -> Point
    ensures { result ≡ stated_point start }
{
    start.unwrap_or(Point {
        object: 0,
        offset: 0,
    })
}
