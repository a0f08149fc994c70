use crate::call_log::{Call, Entry, count_before, fill_all, pending_ranges, undo_all};
use crate::places::{copy_out, overwrite};
use crate::plan::Plan;
use crate::{Disk, Fault};
use std::alloc::{AllocError, Global};

/// A disk in memory. Its calls are numbered from 0, and those that are listed fail, and so does
/// one that finds no memory. It keeps a record of its calls, by which each image that a crash may
/// have left can be made.
#[derive(Drop)]
pub struct MemDisk {
    bytes: Vec<u8>,
    log: Vec<Entry>,
    plan: Plan,
}

impl MemDisk {
    ghost use Rattle.std.specs.Prelude.{◌≡◌, ◌+◌, ◌≤◌, [], None, length, IsTrue, IfOk, OnOk, OnErr, if◌then◌else◌, ◌++◌, ◌∷◌};
    ghost use Rattle.zst_outside.specs.Ranges.{bytes_at, overwritten};
    ghost use Rattle.zst_outside.specs.Schedule.{fresh, with_want};
    ghost use Rattle.zst_outside.specs.CallLog.{IsImage, IsFilled, entries_before};
    ghost use Rattle.zst_outside.specs.MemDisk.{memory_state, schedule_of, log_of, pending_at, seen_at};

    /// A disk of these bytes, in which the calls of these numbers fail, and all from `stop` on.
    pub fn new(bytes: Vec<u8>, fail: Vec<u64>, stop: Option<u64>) -> Self
        ensures honest { (⟦<MemDisk as Disk>⟧.state result).honest }
        ensures tells_images { IsTrue ⟦<MemDisk as Disk>⟧.tells_images }
        ensures seen { (⟦<MemDisk as Disk>⟧.state result).seen ≡ bytes.items }
        ensures size { (⟦<MemDisk as Disk>⟧.state result).size ≡ length bytes.items }
        ensures schedule { schedule_of result ≡ fresh fail.items stop }
        ensures log { log_of result ≡ [] }
    {
        let alloc = *bytes.allocator();
        MemDisk {
            bytes,
            log: Vec::new(alloc),
            plan: Plan::new(fail, stop),
        }
    }

    /// How many of the faults were a want of memory.
    pub fn starved(&self) -> u64
        ensures { result ≡ (schedule_of self.now).starved }
    {
        self.plan.starved()
    }

    /// The calls, the first one first, but for those that found no memory.
    pub fn log(&self) -> &[Entry]
        ensures { result.now ≡ log_of self.now }
    {
        &self.log
    }

    /// The image before the call of this number, with every range filled that was not synced then.
    pub fn image(&self, alloc: Global, moment: u64, fill: u8) -> Result<MemDisk, AllocError>
        requires { moment ≤ (memory_state self.now).calls }
        ensures others { IfOk result (λ d. IsImage (pending_at moment self.now) (seen_at moment self.now) (memory_state d).seen) }
        ensures filled { IfOk result (λ d. IsFilled (pending_at moment self.now) fill (memory_state d).seen) }
        ensures left { IfOk result (λ d. (⟦<MemDisk as Disk>⟧.state self.now).left_since (entries_before moment (log_of self.now)) (memory_state d).seen) }
        ensures schedule { IfOk result (λ d. schedule_of d ≡ fresh [] None) }
        ensures log { IfOk result (λ d. log_of d ≡ []) }
    {
        let split = count_before(&self.log, moment);
        let mut bytes = self.bytes.to_vec(alloc)?;
        undo_all(&self.log[split..], &mut bytes);
        let ranges = pending_ranges(alloc, &self.log[..split])?;
        fill_all(&ranges, &mut bytes, fill);
        Ok(MemDisk::new(bytes, Vec::new(alloc), None))
    }

    // Keeps a call that was begun. Without memory it counts a fault.
    fn note(&mut self, number: u64, call: Call) -> Result<(), Fault>
        ensures bytes { self.new.bytes.items ≡ self.old.bytes.items }
        ensures log { OnOk result (self.new.log.items ≡ self.old.log.items ++ record { number = number; call = call } ∷ []) }
        ensures plan { OnOk result (self.new.plan ≡ self.old.plan) }
        ensures log_err { OnErr result (self.new.log.items ≡ self.old.log.items) }
        ensures plan_err { OnErr result (self.new.plan ≡ with_want self.old.plan) }
        ensures later { self.old.plan.faults ≤ self.new.plan.faults }
    {
        match self.log.push(Entry { number, call }) {
            Ok(()) => Ok(()),
            Err(_) => Err(self.plan.starve()),
        }
    }

    // Keeps a write with what stood there, and does it unless it is to fail. Without memory it
    // counts a fault.
    fn note_write(
        &mut self,
        number: u64,
        place: usize,
        from: &[u8],
        fails: bool,
    ) -> Result<(), Fault>
        requires { place + length from.now ≤ length self.old.bytes.items }
        ensures log { OnOk result ((before : _) × (before.items ≡ bytes_at self.old.bytes.items place (length from.now)) × (self.new.log.items ≡ self.old.log.items ++ record { number = number; call = Call.Write place before } ∷ [])) }
        ensures bytes { OnOk result (self.new.bytes.items ≡ (if fails then self.old.bytes.items else overwritten self.old.bytes.items place from.now)) }
        ensures plan { OnOk result (self.new.plan ≡ self.old.plan) }
        ensures bytes_err { OnErr result (self.new.bytes.items ≡ self.old.bytes.items) }
        ensures log_err { OnErr result (self.new.log.items ≡ self.old.log.items) }
        ensures plan_err { OnErr result (self.new.plan ≡ with_want self.old.plan) }
        ensures later { self.old.plan.faults ≤ self.new.plan.faults }
    {
        let alloc = *self.bytes.allocator();
        match self.bytes[place..place + from.len()].to_vec(alloc) {
            Ok(before) => self.note(number, Call::Write(place, before))?,
            Err(_) => return Err(self.plan.starve()),
        }
        if !fails {
            overwrite(&mut self.bytes, place, from);
        }
        Ok(())
    }
}

impl Disk for MemDisk {
    ghost use Rattle.std.specs.Prelude.{◌≡◌, ◌⊎◌, ◌+◌, ◌≤◌, true, false, length, OnOk, OnErr};
    ghost use Rattle.std.proofs.Common.{refl};
    ghost use Rattle.zst_outside.specs.Causes.{HasCause, next_count};
    ghost use Rattle.zst_outside.specs.Ranges.{bytes_at};
    ghost use Rattle.zst_outside.specs.Images.{Leaves, IsSynced, OnlyReads, WritesIn};
    ghost use Rattle.zst_outside.specs.Schedule.{MeetsSchedule};
    ghost use Rattle.zst_outside.specs.CallLog.{now_since, since_now, reads_as_image as at_rest, image_size as size_of_image};
    ghost use Rattle.zst_outside.specs.MemDisk.{memory_state, schedule_of, Logs, LogsWrite, IsStarved};

    ghost tells_images = { true };

    ghost state = { memory_state };

    ghost seen_size = { λ d. refl };

    ghost image_size = { λ d image now. size_of_image d.log.items d.bytes.items image now };

    ghost reads_as_image = { λ d told. at_rest d.log.items d.bytes.items };

    ghost counts_now = { λ d t image le now. now_since d.log.items d.bytes.items t image le now };

    ghost only_now = { λ d image left. since_now d.log.items d.bytes.items image left };

    fn bytes(&self) -> u64 {
        self.bytes.len() as u64
    }

    fn calls(&self) -> u64 {
        self.plan.calls()
    }

    fn faults(&self) -> u64 {
        self.plan.faults()
    }

    fn read(&mut self, place: u64, into: &mut [u8]) -> Result<(), Fault>
        requires { place + length into.old ≤ (memory_state self.old).size }
        ensures bytes { OnOk result (into.new ≡ bytes_at (memory_state self.old).seen place (length into.old)) }
        ensures reads { OnlyReads (memory_state self.old) (memory_state self.new) }
        ensures time { Leaves (memory_state self.old) (memory_state self.new) (memory_state self.new).images }
        ensures calls { (memory_state self.new).calls ≡ next_count (memory_state self.old).calls }
        ensures count_stays { OnOk result ((memory_state self.new).faults ≡ (memory_state self.old).faults) }
        ensures cause { HasCause (memory_state self.old).faults (memory_state self.new).faults result }

        // Its fault has one of two causes, and without memory it isn't in the record.
        ensures exact { MeetsSchedule (schedule_of self.old) (schedule_of self.new) result }
        ensures logged { Logs (Call.Read place (length into.old)) self.old self.new ⊎ IsStarved self.old self.new }
    {
        let number = self.plan.calls();
        let fails = self.plan.begin();
        self.note(number, Call::Read(place as usize, into.len()))?;
        if !fails {
            copy_out(&self.bytes, place as usize, into);
        }
        self.plan.end(fails)
    }

    fn write_at(&mut self, place: u64, from: &[u8]) -> Result<(), Fault>
        requires { place + length from.now ≤ (memory_state self.old).size }
        ensures written { OnOk result (bytes_at (memory_state self.new).seen place (length from.now) ≡ from.now) }
        ensures writes { WritesIn place (length from.now) (memory_state self.old) (memory_state self.new) }
        ensures time { Leaves (memory_state self.old) (memory_state self.new) (memory_state self.new).images }
        ensures calls { (memory_state self.new).calls ≡ next_count (memory_state self.old).calls }
        ensures count_stays { OnOk result ((memory_state self.new).faults ≡ (memory_state self.old).faults) }
        ensures cause { HasCause (memory_state self.old).faults (memory_state self.new).faults result }

        // A write that fails is in the record too, so that its range is pending, but writes nothing.
        ensures exact { MeetsSchedule (schedule_of self.old) (schedule_of self.new) result }
        ensures logged { LogsWrite place (length from.now) self.old self.new ⊎ IsStarved self.old self.new }
        ensures failed { OnErr result ((memory_state self.new).seen ≡ (memory_state self.old).seen) }
    {
        let number = self.plan.calls();
        let fails = self.plan.begin();
        self.note_write(number, place as usize, from, fails)?;
        self.plan.end(fails)
    }

    fn sync(&mut self) -> Result<(), Fault>
        ensures durable { OnOk result (IsSynced (memory_state self.new)) }
        ensures reads { OnlyReads (memory_state self.old) (memory_state self.new) }
        ensures time { Leaves (memory_state self.old) (memory_state self.new) (memory_state self.new).images }
        ensures calls { (memory_state self.new).calls ≡ next_count (memory_state self.old).calls }
        ensures count_stays { OnOk result ((memory_state self.new).faults ≡ (memory_state self.old).faults) }
        ensures cause { HasCause (memory_state self.old).faults (memory_state self.new).faults result }

        // A sync that fails is in the record as one that wasn't done.
        ensures exact { MeetsSchedule (schedule_of self.old) (schedule_of self.new) result }
        ensures done { OnOk result (Logs (Call.Sync true) self.old self.new) }
        ensures failed { OnErr result (Logs (Call.Sync false) self.old self.new ⊎ IsStarved self.old self.new) }
    {
        let number = self.plan.calls();
        let fails = self.plan.begin();
        self.note(number, Call::Sync(!fails))?;
        self.plan.end(fails)
    }
}
