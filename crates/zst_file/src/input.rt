//! A reader as a source, whose text is read off its calls and their answers: no hypothesis is needed.
ghost use Rattle.std.specs.Prelude.{◌≡◌, OnOk, length};
ghost use Rattle.std.specs.Io.{ReadsAtMost};
ghost use Rattle.std.specs.Io.KnownBytes.{ReadConsumes};

use crate::record::Record;
use std::io::{self, ErrorKind, Read};
use zst_outside::{Fault, Source};

/// A reader as a source. One read is one call of the reader, so that a fault takes no byte.
#[derive(Drop)]
pub struct Input<R> {
    inner: R,
    log: Record,
    faults: u64,
}

impl<R: Read> Input<R> {
    ghost use Rattle.std.specs.Prelude.{[], false};
    ghost use Rattle.zst_file.specs.Input.{input_state, reader_of};

    /// Nothing was read yet.
    pub fn new(inner: R) -> Input<R>
        ensures fresh { input_state result ≡ record { given = []; ended = false; faults = 0 } }
        ensures reader { reader_of result ≡ inner }
    {
        Input {
            inner,
            log: Record::new(),
            faults: 0,
        }
    }
}

// One call of the reader, made again where a signal interrupts it.
fn read_once<R: Read>(reader: &mut R, into: &mut [u8]) -> io::Result<usize>
    ensures bound { ReadsAtMost result into.new }
    ensures bytes { ReadConsumes (R.remaining reader.old) (R.remaining reader.new) result into.new }
{
    for _ in 0..u64::MAX {
        match reader.read(into) {
            Ok(count) => return Ok(count),
            Err(error) => {
                if error.kind() != ErrorKind::Interrupted {
                    return Err(error);
                }
            }
        }
    }
    Err(ErrorKind::TimedOut.into())
}

impl<R: Read> Source for Input<R> {
    ghost use Rattle.zst_outside.specs.Causes.{HasCause};
    ghost use Rattle.zst_outside.specs.States.{ReadGives};
    ghost use Rattle.zst_file.specs.Input.{input_state, reader_of};

    ghost state = { input_state };

    fn read(&mut self, into: &mut [u8]) -> Result<usize, Fault>
        ensures bound { ReadsAtMost result into.new }
        ensures bytes { ReadGives (input_state self.old) (input_state self.new) result into.new }
        ensures count_stays { OnOk result ((input_state self.new).faults ≡ (input_state self.old).faults) }
        ensures cause { HasCause (input_state self.old).faults (input_state self.new).faults result }

        // Of a reader whose bytes are known it drops none.
        ensures reader { ReadConsumes (R.remaining (reader_of self.old)) (R.remaining (reader_of self.new)) result into.new }
    {
        let room = into.len() as u64;
        match read_once(&mut self.inner, into) {
            Ok(count) => {
                self.log.gave(room, &into[..count]);
                Ok(count)
            }
            Err(_) => {
                self.faults = self.faults.saturating_add(1);
                Err(Fault)
            }
        }
    }

    fn faults(&self) -> u64 {
        self.faults
    }
}
