// WRITE records of neighbouring blocks of one object, which are put off and then written at once.
ghost use Rattle.std.specs.Prelude.{◌≡◌, ◌≤◌, vec_len};
ghost use Rattle.zst_model.specs.states.State.{AreBytes};
ghost use Rattle.zst_recv.specs.WriteRuns.{MayRun};

use crate::batch::Batch;
use crate::fault::{RecvFault, of_record};
use crate::stage::Stage;
use std::alloc::{AllocError, Global};
use zst_apply::write_run;
use zst_block::Io;
use zst_dir::Partial;
use zst_laws::applied_is_state;
use zst_model::Point;
use zst_model::limits::INDEX_BOUND;
use zst_objset::Objects;
use zst_outside::Disk;
use zst_pool::PoolFault;
use zst_record::{Head, Record};

// How many bytes are put off at most, and how many a block of a run has at most: larger ones are written as they come.
const ROOM: usize = 262_144;

const LARGEST: usize = 32_768;

/// WRITE records of neighbouring whole blocks of one object, below one node of its tree, which are put off: their blocks stand in
/// the buffer, one behind the other. The first of the records has this index among the stream's.
#[derive(Drop)]
pub(crate) struct BlockRun {
    bytes: Vec<u8>,
    len: usize,
    index: u64,
    object: u64,
    first: u64,
    size: u32,
    count: usize,
    ghost room: { vec_len bytes ≡ 262144 },
    ghost inside: { len ≤ 262144 },
    ghost may: { MayRun object first size count len },
}

// What a slice of bytes has are bytes.
fn are_bytes(bytes: &[u8])
    ensures { AreBytes bytes.now }
{
    let _count = bytes.len();
}

impl BlockRun {
    ghost use Rattle.std.specs.Prelude.{◌≡◌, ◌+◌, ◌≤◌, ◌<◌, ◌==◌, ℕ, Bool, List, [], ◌∷◌, ◌++◌, true, false, Err, Ok, None, IfErr, IfOk, OnErr, OnOk, Option, length, vec_len, ◌^◌, ◌%◌};
    ghost use Rattle.std.specs.Bool.{OnFalse, OnTrue};
    ghost use Rattle.zst_apply.specs.Damage.{apply_damage};
    ghost use Rattle.zst_block.specs.Blocks.{Has};
    ghost use Rattle.zst_block.specs.IoStates.{IsHonest, IsSparedBy, blocks_of, disk_of, io_of};
    ghost use Rattle.zst_dir.specs.Rows.{Rows};
    ghost use Rattle.zst_image.specs.Reads.{PartialIs, bound_of};
    ghost use Rattle.zst_model.specs.declared.refusals.plan_fault.PlanFault.{PlanFault};
    ghost use Rattle.zst_model.specs.pools.Pool.{Partial as PlainPartial, Pool as Plain};
    ghost use Rattle.zst_model.specs.states.State.{is_block_size};
    ghost use Rattle.zst_objset.specs.Damage.{AreTreesWithin};
    ghost use Rattle.zst_plan.specs.declared.receive.RecvAsk.{RecvAsk as Ask};
    ghost use Rattle.zst_record.specs.Heads.{Covered, covered_of};
    ghost use Rattle.zst_recv.specs.Batches.{MovesRun};
    ghost use Rattle.zst_recv.specs.Costs.{Spends};
    ghost use Rattle.zst_recv.specs.Damage.{ComesFrom, IsDamagedFeed};
    ghost use Rattle.zst_recv.specs.Faults.{Fills, IsRecordFault, stop_of};
    ghost use Rattle.zst_recv.specs.Plans.{is_planned};
    ghost use Rattle.zst_recv.specs.PutOffWrites.{BeginsRun, FindsItsObject, HasObject, IsAlone, IsDue, IsNext, IsPutOff, IsSameRun, JoinsRun, Settles, WritesRun, bytes_of, count_of};
    ghost use Rattle.zst_recv.specs.ReceiveSteps.{Batch as PlainBatch, Stage as PlainStage};
    ghost use Rattle.zst_recv.specs.Stages.{CanPutFor, IsBatch, IsStage, has_partial};
    ghost use Rattle.zst_recv.specs.TakenRecords.{IsRead};

    /// A run that puts nothing off, with all of its memory.
    pub fn new(alloc: Global) -> Result<BlockRun, AllocError> {
        Ok(BlockRun {
            bytes: vec![in alloc; 0; ROOM]?,
            len: 0,
            index: 0,
            object: 1,
            first: 0,
            size: 512,
            count: 0,
        })
    }

    /// Whether nothing is put off.
    pub fn is_empty(&self) -> bool
        ensures { result ≡ (count_of self.now == 0) }
    {
        self.count == 0
    }

    /// Puts nothing off any more.
    pub fn clear(&mut self)
        ensures count { count_of self.new ≡ 0 }
        ensures none { IsPutOff self.new [] }
    {
        self.len = 0;
        self.count = 0;
    }

    // Puts one block more off.
    fn push(&mut self, payload: &[u8])
        requires long { length payload.now ≡ self.old.size }
        requires room { self.old.len + self.old.size ≤ 262144 }
        requires group { self.old.first % 128 + self.old.count < 128 }
        requires inside { self.old.first + self.old.count < 2 ^ 43 }
        ensures bytes { bytes_of self.new ≡ bytes_of self.old ++ payload.now }
        ensures count { count_of self.new ≡ count_of self.old + 1 }
        ensures same { IsSameRun self.old self.new }
    {
        let (start, end) = (self.len, self.len + payload.len());
        self.bytes[start..end].copy_from_slice(payload);
        self.len = end;
        self.count += 1;
    }

    // Whether a block of so many bytes, at this offset of an object, stands next behind those that are put off.
    fn is_next(&self, object: u64, offset: u64, long: usize) -> bool
        ensures { OnTrue result (IsNext self.now object offset long) }
    {
        let next = self.first + self.count as u64;
        self.count > 0
            && object == self.object
            && long == self.size as usize
            && offset == next * u64::from(self.size)
            && self.first % 128 + (self.count as u64) < 128
            && long <= ROOM - self.len
    }

    /// Puts a record off behind those that are put off, where it is the WRITE of the next block.
    pub fn follows(&mut self, covered: &Record<'_>) -> bool
        requires covered { IsRead (covered_of covered.now) }
        ensures joins { JoinsRun self.old self.new (covered_of covered.now) result }
    {
        let Head::Write { object, offset, .. } = covered.head else {
            return false;
        };
        if !self.is_next(*object, *offset, covered.payload.len()) {
            return false;
        }
        self.push(covered.payload);
        true
    }

    // Begins with a whole block of an object whose blocks have so many bytes, where it may begin a run.
    fn begin_at(&mut self, object: u64, size: u32, offset: u64, index: u64, payload: &[u8]) -> bool
        requires object { (0 < object) × (object < 2 ^ 48) }
        requires size { is_block_size size ≡ true }
        requires small { length payload.now ≤ 32768 }
        ensures begins { OnTrue result (IsAlone self.new object size offset payload.now) }
        ensures stays { OnFalse result (self.new ≡ self.old) }
    {
        let first = offset / u64::from(size);
        if payload.len() != size as usize
            || !size.is_power_of_two()
            || offset % u64::from(size) != 0
            || first >= INDEX_BOUND
        {
            return false;
        }
        self.len = 0;
        self.count = 0;
        self.object = object;
        self.first = first;
        self.size = size;
        self.index = index;
        self.push(payload);
        true
    }

    /// Begins with a record, where it is the WRITE of a whole block that the partial state's object takes: nothing else is put off.
    pub fn begins<D: Disk>(
        &mut self,
        io: &mut Io<'_, D>,
        stage: &Stage,
        covered: &Record<'_>,
    ) -> Result<bool, RecvFault>
        requires covered { IsRead (covered_of covered.now) }
        ensures begins { IfOk result (BeginsRun self.old self.new (covered_of covered.now) stage.now) }
        ensures stays { OnErr result ((self.new ≡ self.old) × (has_partial stage.now ≡ true)) }
        ensures found { (bound : Option ℕ) (plain : PlainStage) → IsHonest io.new → IsStage bound (blocks_of io.old) stage.now plain → FindsItsObject plain self.new result }
        ensures known { IfErr result IsRecordFault }
        ensures damaged { (rows : Rows) (ask : Ask) (text : List ℕ) (sector : ℕ) (stated found : List ℕ) → IsHonest io.new → result ≡ Err (RecvFault.Pool (PoolFault.Damaged sector stated found))
            → IsDamagedFeed (disk_of io.old) io.old.space rows ask text stage.now sector stated found }
        ensures unplanned { (fault : PlanFault) → result ≡ Err (RecvFault.Pool (PoolFault.Plan fault)) → is_planned fault ≡ false }
        ensures fills { Fills (io_of io.old) (io_of io.new) (stop_of result) }
        ensures spends { (records : List Covered) → Spends records io.old.space io.new.space (stop_of result) }
    {
        let Stage::Lives { partial, .. } = stage else {
            return Ok(false);
        };
        let Head::Write { object, offset, .. } = covered.head else {
            return Ok(false);
        };
        if covered.payload.len() > LARGEST {
            return Ok(false);
        }
        let dnode = match partial.objects.attr(io, *object) {
            Ok(Some(dnode)) => dnode,
            Ok(None) => return Ok(false),
            Err(fault) => return Err(of_record(covered.index, fault)),
        };
        Ok(self.begin_at(
            *object,
            dnode.block_size,
            *offset,
            covered.index,
            covered.payload,
        ))
    }

    // Writes what is put off into the partial state that is under way, in the commit of this number.
    fn write<D: Disk>(
        &mut self,
        io: &mut Io<'_, D>,
        partial: &mut Partial,
        number: u64,
    ) -> Result<(), RecvFault>
        requires some { 0 < count_of self.old }
        ensures made { (tight : Bool) (state : PlainPartial) (records : List Covered) → IsHonest io.new → IsPutOff self.old records → HasObject state.objects self.old.object self.old.size → PartialIs (bound_of tight number) (blocks_of io.old) partial.old state
            → WritesRun number self.old records (PartialIs (bound_of tight number) (blocks_of io.new) partial.new) state result }
        ensures stays { OnErr result (partial.new ≡ partial.old) }
        ensures known { IfErr result IsRecordFault }
        ensures damaged { (sector : ℕ) (stated found : List ℕ) → IsHonest io.new → result ≡ Err (RecvFault.Pool (PoolFault.Damaged sector stated found))
            → apply_damage (IsSparedBy io.old) (disk_of io.old).size partial.old.objects sector stated found }
        ensures within { IsHonest io.new → OnOk result (AreTreesWithin (IsSparedBy io.old) (disk_of io.old).size partial.old.objects (IsSparedBy io.new) partial.new.objects) }
        ensures unplanned { (fault : PlanFault) → result ≡ Err (RecvFault.Pool (PoolFault.Plan fault)) → is_planned fault ≡ false }
        ensures puts { (rows : Rows) (target : List ℕ) → CanPutFor rows target partial.old → CanPutFor rows target partial.new }
        ensures fills { Fills (io_of io.old) (io_of io.new) (stop_of result) }
        ensures spends { (records : List Covered) → IsPutOff self.old records → Spends records io.old.space io.new.space (stop_of result) }
        ensures none { IsPutOff self.new [] }
    {
        applied_is_state();
        let point = Point {
            object: self.object,
            offset: (self.first + self.count as u64) * u64::from(self.size),
        };
        let (index, size) = (self.index, self.size);
        let bytes = &self.bytes[..self.len];
        are_bytes(bytes);
        let set = &mut partial.objects;
        match write_run(
            io,
            set,
            self.object,
            self.first,
            size,
            self.count,
            bytes,
            number,
        ) {
            Ok(()) => {
                self.clear();
                partial.point = point;
                Ok(())
            }
            Err(fault) => {
                self.clear();
                Err(of_record(index, fault))
            }
        }
    }

    /// Applies what is put off, in the commit of this number. A refusal leaves the batch.
    pub fn settle<D: Disk>(
        &mut self,
        io: &mut Io<'_, D>,
        batch: &mut Batch,
        number: u64,
    ) -> Result<(), RecvFault>
        requires lives { 0 < count_of self.old → has_partial batch.old.stage ≡ true }
        ensures settled { (tight : Bool) (running : Plain) (ask : Ask) (plain : PlainBatch) (records : List Covered) → IsHonest io.new → number ≡ running.number + 1 → IsDue self.old records plain
            → IsBatch (bound_of tight (running.number + 1)) (blocks_of io.old) batch.old plain
            → Settles ask running records (IsBatch (bound_of tight (running.number + 1)) (blocks_of io.new) batch.new) plain result }
        ensures moves { (rows : Rows) (target : List ℕ) → MovesRun rows target (count_of self.old) batch.old batch.new result }
        ensures known { IfErr result IsRecordFault }
        ensures damaged { (rows : Rows) (ask : Ask) (text : List ℕ) (sector : ℕ) (stated found : List ℕ) → IsHonest io.new → result ≡ Err (RecvFault.Pool (PoolFault.Damaged sector stated found))
            → IsDamagedFeed (disk_of io.old) io.old.space rows ask text batch.old.stage sector stated found }
        ensures comes { (rows : Rows) (ask : Ask) (text : List ℕ) → IsHonest io.new → ComesFrom rows ask text (IsSparedBy io.old) (disk_of io.old).size batch.old.stage (IsSparedBy io.new) batch.new.stage }
        ensures unplanned { (fault : PlanFault) → result ≡ Err (RecvFault.Pool (PoolFault.Plan fault)) → is_planned fault ≡ false }
        ensures fills { Fills (io_of io.old) (io_of io.new) (stop_of result) }
        ensures spends { (records : List Covered) → IsPutOff self.old records → Spends records io.old.space io.new.space (stop_of result) }
        ensures none { IsPutOff self.new [] }
    {
        if self.is_empty() {
            self.clear();
            return Ok(());
        }
        let count = self.count as u64;
        match &mut batch.stage {
            Stage::Lives { partial, .. } => self.write(io, partial, number)?,
            Stage::Waits | Stage::Ends { .. } | Stage::Done { .. } | Stage::Over => unreachable!(),
        }
        batch.taken = true;
        batch.applied = batch.applied.saturating_add(count);
        Ok(())
    }
}
