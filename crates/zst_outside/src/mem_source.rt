ghost use Rattle.std.specs.Prelude.{◌≡◌, ◌≤◌, ◌<◌, length, min, take};

use crate::plan::Plan;
use crate::{Fault, Source};

/// An input in memory. Its calls are numbered from 0, and those that are listed fail.
#[derive(Drop)]
pub struct MemSource {
    bytes: Vec<u8>,
    place: usize,
    piece: usize,
    plan: Plan,
    ghost inside: { place ≤ length bytes.items },
    ghost gives_some: { 0 < piece },
}

impl MemSource {
    ghost use Rattle.std.specs.Prelude.{◌≡◌, Some, None};
    ghost use Rattle.zst_outside.specs.Schedule.{fresh};
    ghost use Rattle.zst_outside.specs.MemSource.{input_of};

    /// An input of these bytes, in which the calls of these numbers fail.
    pub fn new(bytes: Vec<u8>, fail: Vec<u64>) -> Self
        ensures { input_of result ≡ record { left = bytes.items; piece = usize.MAX; schedule = fresh fail.items None } }
    {
        MemSource {
            bytes,
            place: 0,
            piece: usize::MAX,
            plan: Plan::new(fail, None),
        }
    }

    /// The same input, of which a call gives at most `size` bytes.
    pub fn in_pieces_of(mut self, size: usize) -> Self
        requires { 0 < size }
        ensures { input_of result ≡ record (input_of self) { piece = size } }
    {
        self.piece = size;
        self
    }

    /// What is left of it.
    pub fn left(&self) -> &[u8]
        ensures bytes { result.now ≡ (input_of self.now).left }
    {
        &self.bytes[self.place..]
    }
}

impl Source for MemSource {
    ghost use Rattle.std.specs.Prelude.{◌≡◌, ◌↔◌, Some, IsTrue, IsErr, IfOk, OnOk, OnErr, min};
    ghost use Rattle.std.specs.Io.{ReadsAtMost};
    ghost use Rattle.zst_outside.specs.States.{ReadGives};
    ghost use Rattle.zst_outside.specs.Causes.{HasCause};
    ghost use Rattle.zst_outside.specs.Schedule.{is_to_fail, after_refused};
    ghost use Rattle.zst_outside.specs.MemSource.{input_of, after_giving, source_state};

    ghost state = { source_state };

    fn read(&mut self, into: &mut [u8]) -> Result<usize, Fault>
        ensures bound { ReadsAtMost result into.new }
        ensures bytes { ReadGives (source_state self.old) (source_state self.new) result into.new }
        ensures count_stays { OnOk result ((input_of self.new).schedule.faults ≡ (input_of self.old).schedule.faults) }
        ensures cause { HasCause (input_of self.old).schedule.faults (input_of self.new).schedule.faults result }

        // It fails exactly where its call is listed, and else gives all that has room.
        ensures fails { IsErr result ↔ IsTrue (is_to_fail (input_of self.old).schedule) }
        ensures count { IfOk result (λ n. n ≡ min (length into.old) (min (input_of self.old).piece (length (input_of self.old).left))) }
        ensures gave { IfOk result (λ n. input_of self.new ≡ after_giving n (input_of self.old)) }
        ensures refused { OnErr result (input_of self.new ≡ record (input_of self.old) { schedule = after_refused (input_of self.old).schedule }) }
    {
        if self.plan.begin() {
            return Err(self.plan.refuse());
        }
        let count = copy_front(self.left(), into, self.piece);
        self.place += count;
        Ok(count)
    }

    fn faults(&self) -> u64 {
        self.plan.faults()
    }
}

// Copies a front of at most so many bytes, and counts it.
fn copy_front(from: &[u8], into: &mut [u8], most: usize) -> usize
    ensures count { result ≡ min (length into.old) (min most (length from.now)) }
    ensures front { take result into.new ≡ take result from.now }
{
    let count = into.len().min(most).min(from.len());
    into[..count].copy_from_slice(&from[..count]);
    count
}
