ghost use Rattle.std.specs.Prelude.{◌<◌};

use crate::plan::Plan;
use crate::{Fault, Sink};

/// An output in memory. Its calls are numbered from 0, and those that are listed fail, and so
/// does one that finds no memory.
#[derive(Drop)]
pub struct MemSink {
    bytes: Vec<u8>,
    piece: usize,
    plan: Plan,
    ghost takes_some: { 0 < piece },
}

impl MemSink {
    ghost use Rattle.std.specs.Prelude.{◌≡◌, [], None};
    ghost use Rattle.zst_outside.specs.Schedule.{fresh};
    ghost use Rattle.zst_outside.specs.MemSink.{output_of};

    /// An empty output, in which the calls of these numbers fail.
    pub fn new(fail: Vec<u64>) -> Self
        ensures { output_of result ≡ record { written = []; piece = usize.MAX; schedule = fresh fail.items None } }
    {
        MemSink {
            bytes: Vec::new(*fail.allocator()),
            piece: usize::MAX,
            plan: Plan::new(fail, None),
        }
    }

    /// The same output, of which a call takes at most `size` bytes.
    pub fn in_pieces_of(mut self, size: usize) -> Self
        requires { 0 < size }
        ensures { output_of result ≡ record (output_of self) { piece = size } }
    {
        self.piece = size;
        self
    }

    /// What was written.
    pub fn bytes(&self) -> &[u8]
        ensures bytes { result.now ≡ (output_of self.now).written }
        ensures told { (⟦<MemSink as Sink>⟧.state self.now).written ≡ result.now }
    {
        &self.bytes
    }

    /// How many of the faults were a want of memory.
    pub fn starved(&self) -> u64
        ensures { result ≡ (output_of self.now).schedule.starved }
    {
        self.plan.starved()
    }
}

impl Sink for MemSink {
    ghost use Rattle.std.specs.Prelude.{◌≡◌, IfOk, IsOk, OnOk, OnErr, min, length, take};
    ghost use Rattle.std.specs.Io.{WritesAtMost};
    ghost use Rattle.zst_outside.specs.Causes.{HasCause};
    ghost use Rattle.zst_outside.specs.Schedule.{MeetsSchedule};
    ghost use Rattle.zst_outside.specs.States.{TakesFront};
    ghost use Rattle.zst_outside.specs.MemSink.{output_of, after_taking, sink_state};

    ghost state = { sink_state };

    fn write(&mut self, from: &[u8]) -> Result<usize, Fault>
        ensures bound { WritesAtMost result from.now }
        ensures some { IfOk result (λ n. 0 < length from.now → 0 < n) }
        ensures bytes { TakesFront (sink_state self.old) (sink_state self.new) result from.now }
        ensures count_stays { OnOk result ((output_of self.new).schedule.faults ≡ (output_of self.old).schedule.faults) }
        ensures cause { HasCause (output_of self.old).schedule.faults (output_of self.new).schedule.faults result }

        // It fails where its call is listed, and else only for want of memory.
        ensures exact { MeetsSchedule (output_of self.old).schedule (output_of self.new).schedule result }
        ensures count { IfOk result (λ n. n ≡ min (length from.now) (output_of self.old).piece) }
        ensures took { IfOk result (λ n. output_of self.new ≡ after_taking (take n from.now) (output_of self.old)) }
        ensures refused { OnErr result (output_of self.new ≡ record (output_of self.old) { schedule = (output_of self.new).schedule }) }
    {
        if self.plan.begin() {
            return Err(self.plan.refuse());
        }
        let count = from.len().min(self.piece);
        match self.bytes.extend_from_slice(&from[..count]) {
            Ok(()) => Ok(count),
            Err(_) => Err(self.plan.starve()),
        }
    }

    // Nothing waits, since each call keeps what it took.
    fn flush(&mut self) -> Result<(), Fault>
        ensures done { IsOk result }
        ensures same { self.new ≡ self.old }
    {
        Ok(())
    }

    fn faults(&self) -> u64 {
        self.plan.faults()
    }
}
