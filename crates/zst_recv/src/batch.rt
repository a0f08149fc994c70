// What one feed takes of a stream.
ghost use Rattle.std.specs.Prelude.{◌≡◌, ◌+◌, ℕ, Bool, false, true, List, [], ◌∷◌, Option, None, Ok, Err, IfErr, OnErr, OnOk};
ghost use Rattle.zst_apply.specs.Damage.{apply_damage};
ghost use Rattle.zst_objset.specs.Damage.{AreTreesWithin};
ghost use Rattle.zst_block.specs.Blocks.{Has};
ghost use Rattle.zst_block.specs.IoStates.{IsHonest, IsSparedBy, blocks_of, disk_of, io_of};
ghost use Rattle.zst_space.specs.FreeSectors.{FreeSectors};
ghost use Rattle.zst_dir.specs.RowNames.{AreNamed};
ghost use Rattle.zst_dir.specs.Rows.{Rows};
ghost use Rattle.zst_image.specs.Reads.{PartialIs, RunsBy, bound_of};
ghost use Rattle.zst_model.specs.declared.refusals.plan_fault.PlanFault.{PlanFault};
ghost use Rattle.zst_model.specs.pools.Pool.{Partial as PlainPartial, Pool as Plain};
ghost use Rattle.zst_plan.specs.Receipts.{TellsNeeded};
ghost use Rattle.zst_plan.specs.RecvPlan.{recv_plan};
ghost use Rattle.zst_stream.specs.PassedRecords.{StatesBegin};
ghost use Rattle.zst_plan.specs.declared.receive.RecvAsk.{RecvAsk as Ask};
ghost use Rattle.zst_pool.specs.Calls.{IsUnderWay};
ghost use Rattle.zst_record.specs.RecordValues.{IsLater};
ghost use Rattle.zst_record.specs.Heads.{Covered, covered_of};
ghost use Rattle.zst_record.specs.declared.head.Head.TheVariants as heads;
ghost use Rattle.zst_stream.specs.Reading.{closing};
ghost use Rattle.zst_recv.specs.Batches.{Moves, PlansBegin};
ghost use Rattle.zst_recv.specs.Costs.{Spends};
ghost use Rattle.zst_recv.specs.Damage.{ComesFrom, IsDamagedFeed, StaysWith};
ghost use Rattle.zst_recv.specs.Faults.{Fills, IsRecordFault, stop_of};
ghost use Rattle.zst_recv.specs.Plans.{Begins, BeginsAt, IsPlannedBy, is_planned};
ghost use Rattle.zst_recv.specs.ReceiveSteps.{Batch as PlainBatch, Stage as PlainStage, at_stage, moved_by, taken};
ghost use Rattle.zst_recv.specs.Stages.{CanPutFor, IsBatch, IsStage, StageFits, TellsBefore, waits_at};
ghost use Rattle.zst_recv.specs.TakenRecords.{IsRead, Makes, Takes};

use crate::fault::{RecvFault, of_record};
use crate::first_partial::open;
use crate::point::point_behind;
use crate::stage::Stage;
use std::mem;
use zst_apply::apply;
use zst_block::Io;
use zst_dir::{Dir, Partial};
use zst_image::PoolState;
use zst_model::Header;
use zst_outside::Disk;
use zst_plan::RecvAsk;
use zst_pool::PoolFault;
use zst_record::{Head, Record};

/// What one feed has made: where the receive then stands, whether the target's head is rolled back with it, whether a record was
/// taken, and how many of these stood between BEGIN and END.
#[derive(Drop)]
pub(crate) struct Batch {
    pub stage: Stage,
    pub rolls: bool,
    pub taken: bool,
    pub applied: u64,
}

// Applies a record to the partial state that is under way, in a stream with these flags.
fn move_by<D: Disk>(
    io: &mut Io<'_, D>,
    partial: &mut Partial,
    covered: &Record<'_>,
    flags: u32,
    number: u64,
) -> Result<(), RecvFault>
    requires covered { IsRead (covered_of covered.now) × IsLater covered.now.head.now }
    ensures moved { (tight : Bool) (state : PlainPartial) → IsHonest io.new → PartialIs (bound_of tight number) (blocks_of io.old) partial.old state
        → Makes (PartialIs (bound_of tight number) (blocks_of io.new) partial.new) (moved_by number (covered_of covered.now) flags state) result }
    ensures stays { OnErr result (partial.new ≡ partial.old) }
    ensures known { IfErr result IsRecordFault }
    ensures damaged { (sector : ℕ) (stated found : List ℕ) → IsHonest io.new → result ≡ Err (RecvFault.Pool (PoolFault.Damaged sector stated found))
        → apply_damage (IsSparedBy io.old) (disk_of io.old).size partial.old.objects sector stated found }
    ensures within { IsHonest io.new → OnOk result (AreTreesWithin (IsSparedBy io.old) (disk_of io.old).size partial.old.objects (IsSparedBy io.new) partial.new.objects) }
    ensures unplanned { (fault : PlanFault) → result ≡ Err (RecvFault.Pool (PoolFault.Plan fault)) → is_planned fault ≡ false }
    ensures puts { (rows : Rows) (target : List ℕ) → CanPutFor rows target partial.old → CanPutFor rows target partial.new }
    ensures fills { Fills (io_of io.old) (io_of io.new) (stop_of result) }
    ensures spends { Spends (covered_of covered.now ∷ []) io.old.space io.new.space (stop_of result) }
{
    match apply(io, &mut partial.objects, covered, flags, number) {
        Ok(()) => {
            partial.point = point_behind(partial.point, covered.head);
            Ok(())
        }
        Err(fault) => Err(of_record(covered.index, fault)),
    }
}

impl Batch {
    /// A feed begins where the receive stands.
    pub fn new(stage: Stage) -> Batch
        ensures stage { result.stage ≡ stage }
        ensures taken { result.taken ≡ false }
        ensures batch { (bound : Option ℕ) (image : List ℕ) (space : FreeSectors) (at : PlainStage) → IsStage bound (Has image space) stage at → IsBatch bound (Has image space) result (at_stage at) }
    {
        Batch {
            stage,
            rolls: false,
            taken: false,
            applied: 0,
        }
    }

    /// Takes one covered record more. What is refused leaves what was taken before.
    pub fn take<D: Disk>(
        &mut self,
        io: &mut Io<'_, D>,
        kept: &PoolState,
        ask: &RecvAsk,
        covered: &Record<'_>,
    ) -> Result<(), RecvFault>
        requires stage { StageFits kept.now.dir ask.now.target self.old.stage }
        requires covered { IsRead (covered_of covered.now) }
        ensures took { (tight : Bool) (start : D) (running : Plain) (plain : PlainBatch) → IsHonest io.new → IsUnderWay tight (D.state start) (disk_of io.old) io.old.space kept.now running → TellsBefore ask.now plain.stage kept.now.dir running
            → IsBatch (bound_of tight (running.number + 1)) (blocks_of io.old) self.old plain
            → Takes (IsBatch (bound_of tight (running.number + 1)) (blocks_of io.new) self.new) plain (taken ask.now running (covered_of covered.now) plain) result }
        ensures moves { Moves kept.now.dir ask.now.target covered.now.head.now self.old self.new result }
        ensures plans { PlansBegin kept.now.dir ask.now covered.now.head.now (waits_at self.old.stage) result }
        ensures known { IfErr result IsRecordFault }
        // E25 tells a damage of the set as the record found it, and the set that it leaves comes from that one.
        ensures damaged { (text : List ℕ) (sector : ℕ) (stated found : List ℕ) → IsHonest io.new → result ≡ Err (RecvFault.Pool (PoolFault.Damaged sector stated found))
            → IsDamagedFeed (disk_of io.old) io.old.space kept.now.dir ask.now text self.old.stage sector stated found }
        ensures comes { (text : List ℕ) → BeginsAt (waits_at self.old.stage) text covered.now.head.now → IsHonest io.new → ComesFrom kept.now.dir ask.now text (IsSparedBy io.old) (disk_of io.old).size self.old.stage (IsSparedBy io.new) self.new.stage }
        ensures fills { Fills (io_of io.old) (io_of io.new) (stop_of result) }
        ensures spends { Spends (covered_of covered.now ∷ []) io.old.space io.new.space (stop_of result) }
    {
        match covered.head {
            Head::Begin { header, .. } => self.begin(&kept.dir, ask, header),
            Head::End { .. } => {
                self.end();
                Ok(())
            }
            _ => self.go_on(io, kept.body.uber().number.saturating_add(1), covered),
        }
    }

    // BEGIN: a reading gives it first, and only there.
    fn begin(&mut self, dir: &Dir, ask: &RecvAsk, header: &Header) -> Result<(), RecvFault>
        requires header { StatesBegin header.now }
        requires stage { StageFits dir.now ask.now.target self.old.stage }
        ensures began { (bound : Option ℕ) (image : List ℕ) (space : FreeSectors) (running : Plain) (plain : PlainBatch) (c : Covered) (len : ℕ) → c.head ≡ heads.Begin header.now len → RunsBy bound (Has image space) dir.now running → TellsBefore ask.now plain.stage dir.now running
            → IsBatch bound (Has image space) self.old plain → Takes (IsBatch bound (Has image space) self.new) plain (taken ask.now running c plain) result }
        ensures moves { (len : ℕ) → Moves dir.now ask.now.target (heads.Begin header.now len) self.old self.new result }
        ensures known { IfErr result IsRecordFault }
        ensures planned { (running : Plain) → waits_at self.old.stage ≡ true → AreNamed dir.now running → TellsNeeded dir.now running ask.now header.now → IsPlannedBy (recv_plan ask.now header.now running) result }
        ensures because { OnErr result (waits_at self.old.stage ≡ true) }
        ensures stays_with { (text : List ℕ) → (waits_at self.old.stage ≡ true → Begins text header.now) → StaysWith dir.now ask.now text self.old.stage self.new.stage }
        ensures no_block { stop_of result ≡ None }
    {
        if !matches!(self.stage, Stage::Waits) {
            return Ok(());
        }
        match open(dir, ask, header) {
            Ok(batch) => {
                *self = batch;
                Ok(())
            }
            Err(fault) => Err(RecvFault::Pool(PoolFault::Plan(fault))),
        }
    }

    // END: the partial state is to become the snapshot.
    fn end(&mut self)
        ensures ended { (bound : Option ℕ) (image : List ℕ) (space : FreeSectors) (running : Plain) (ask : Ask) (plain : PlainBatch) (c : Covered) (sums : List ℕ) (to : ℕ) → c.head ≡ heads.End sums to
            → IsBatch bound (Has image space) self.old plain → (after : PlainBatch) × (taken ask running c plain ≡ Ok after) × IsBatch bound (Has image space) self.new after }
        ensures moves { (rows : Rows) (target sums : List ℕ) (to : ℕ) → Moves {A = Unit {0}} rows target (heads.End sums to) self.old self.new (Ok tt) }
    {
        match mem::replace(&mut self.stage, Stage::Over) {
            Stage::Lives { partial, .. } => {
                self.stage = Stage::Ends { partial };
                self.taken = true;
            }
            stage => self.stage = stage,
        }
    }

    // Another record: it is applied in the commit of this number.
    fn go_on<D: Disk>(
        &mut self,
        io: &mut Io<'_, D>,
        number: u64,
        covered: &Record<'_>,
    ) -> Result<(), RecvFault>
        requires covered { IsRead (covered_of covered.now) × IsLater covered.now.head.now }
        requires not_last { closing covered.now.head.now ≡ None }
        ensures took { (tight : Bool) (running : Plain) (ask : Ask) (plain : PlainBatch) → IsHonest io.new → number ≡ running.number + 1
            → IsBatch (bound_of tight (running.number + 1)) (blocks_of io.old) self.old plain
            → Takes (IsBatch (bound_of tight (running.number + 1)) (blocks_of io.new) self.new) plain (taken ask running (covered_of covered.now) plain) result }
        ensures moves { (rows : Rows) (target : List ℕ) → Moves rows target covered.now.head.now self.old self.new result }
        ensures known { IfErr result IsRecordFault }
        ensures damaged { (rows : Rows) (ask : Ask) (text : List ℕ) (sector : ℕ) (stated found : List ℕ) → IsHonest io.new → result ≡ Err (RecvFault.Pool (PoolFault.Damaged sector stated found))
            → IsDamagedFeed (disk_of io.old) io.old.space rows ask text self.old.stage sector stated found }
        ensures comes { (rows : Rows) (ask : Ask) (text : List ℕ) → IsHonest io.new → ComesFrom rows ask text (IsSparedBy io.old) (disk_of io.old).size self.old.stage (IsSparedBy io.new) self.new.stage }
        ensures unplanned { (fault : PlanFault) → result ≡ Err (RecvFault.Pool (PoolFault.Plan fault)) → is_planned fault ≡ false }
        ensures fills { Fills (io_of io.old) (io_of io.new) (stop_of result) }
        ensures spends { Spends (covered_of covered.now ∷ []) io.old.space io.new.space (stop_of result) }
    {
        match &mut self.stage {
            Stage::Lives { flags, partial } => move_by(io, partial, covered, *flags, number)?,
            Stage::Waits | Stage::Ends { .. } | Stage::Done { .. } | Stage::Over => return Ok(()),
        }
        self.taken = true;
        self.applied = self.applied.saturating_add(1);
        Ok(())
    }
}
