//! A writer as a sink, whose text is read off its calls and their answers: no hypothesis is needed.
ghost use Rattle.std.specs.Prelude.{◌≡◌, ◌+◌, ◌<◌, ◌≤◌, ◌++◌, drop, length, vec_capacity};
ghost use Rattle.zst_file.specs.declared.output.TheConstants.{ROOM};

use crate::pipe::Pipe;
use std::alloc::{AllocError, Global};
use std::io::Write;
use zst_outside::{Fault, Sink};

// How many bytes may wait.
const ROOM: usize = 65536;

/// A writer as a sink. It gathers what it takes, and hands it on where its buffer is full or it is
/// flushed. Flush it before it is dropped, which hands nothing on.
#[derive(Drop)]
pub struct Output<W> {
    pipe: Pipe<W>,
    buffer: Vec<u8>,
    ghost roomy: { ROOM ≤ vec_capacity buffer },
}

// Takes bytes off the front.
fn remove_front(buffer: &mut Vec<u8>, count: usize)
    requires { count ≤ length buffer.old.items }
    ensures rest { buffer.new.items ≡ drop count buffer.old.items }
    ensures capacity { vec_capacity buffer.new ≡ vec_capacity buffer.old }
{
    let len = buffer.len();
    buffer.as_mut_slice().copy_within(count..len, 0);
    buffer.truncate(len - count);
}

// Adds bytes, for which there is room.
fn append(buffer: &mut Vec<u8>, bytes: &[u8])
    requires { length buffer.old.items + length bytes.now ≤ vec_capacity buffer.old }
    ensures appended { buffer.new.items ≡ buffer.old.items ++ bytes.now }
    ensures capacity { vec_capacity buffer.old ≤ vec_capacity buffer.new }
{
    let Ok(()) = buffer.extend_from_slice(bytes) else {
        unreachable!()
    };
}

impl<W: Write> Output<W> {
    ghost use Rattle.std.specs.Prelude.{[], IfOk, take};
    ghost use Rattle.std.specs.Io.KnownBytes.{Appends};
    ghost use Rattle.zst_file.specs.Output.{Empties, TakesSome, held_by, output_state, writer_of};

    /// Nothing was written yet.
    pub fn new(alloc: Global, inner: W) -> Result<Output<W>, AllocError>
    where
        W: Drop,
        ensures fresh { IfOk result (λ out. output_state out ≡ record { written = []; waiting = 0; faults = 0 }) }
        ensures writer { IfOk result (λ out. writer_of out ≡ inner) }
    {
        let buffer = Vec::with_capacity(alloc, ROOM)?;
        Ok(Output {
            pipe: Pipe::new(inner),
            buffer,
        })
    }

    // Hands on all that waits.
    fn empty(&mut self) -> Result<(), Fault>
        ensures { Empties W.contents self.old self.new result }
    {
        while !self.buffer.is_empty() {
            match self.pipe.hand_on(&self.buffer) {
                Ok(count) => remove_front(&mut self.buffer, count),
                Err(fault) => return Err(fault),
            }
        }
        Ok(())
    }

    // Puts a front of the bytes into the buffer, as much as there is room for.
    fn gather(&mut self, from: &[u8]) -> usize
        requires { (output_state self.old).waiting < ROOM }
        ensures bound { result ≤ length from.now }
        ensures some { 0 < length from.now → 0 < result }
        ensures written { (output_state self.new).written ≡ (output_state self.old).written ++ take result from.now }
        ensures writer { Appends (held_by W.contents self.old) (held_by W.contents self.new) (take result from.now) }
        ensures count_stays { (output_state self.new).faults ≡ (output_state self.old).faults }
    {
        let count = from.len().min(ROOM - self.buffer.len());
        append(&mut self.buffer, &from[..count]);
        count
    }

    // A long piece that nothing waits before is handed on without a copy.
    fn take(&mut self, from: &[u8]) -> Result<usize, Fault>
        requires { (output_state self.old).waiting < ROOM }
        ensures { TakesSome W.contents self.old self.new from.now result }
    {
        if from.len() < ROOM || !self.buffer.is_empty() {
            return Ok(self.gather(from));
        }
        self.pipe.hand_on(from)
    }
}

impl<W: Write> Sink for Output<W> {
    ghost use Rattle.zst_file.specs.Output.{Empties, TakesSome, output_state};

    ghost state = { output_state };

    fn write(&mut self, from: &[u8]) -> Result<usize, Fault>
        ensures { TakesSome W.contents self.old self.new from.now result }
    {
        if self.buffer.len() < ROOM {
            return self.take(from);
        }
        self.empty()?;
        self.take(from)
    }

    fn flush(&mut self) -> Result<(), Fault>
        ensures { Empties W.contents self.old self.new result }
    {
        self.empty()?;
        self.pipe.flush()
    }

    fn faults(&self) -> u64 {
        self.pipe.faults()
    }
}
