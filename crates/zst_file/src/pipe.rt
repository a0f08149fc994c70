//! A writer and its calls, each noted with the bytes that it took.
ghost use Rattle.std.specs.Prelude.{◌≡◌, ◌<◌, ◌++◌, IfOk, OnOk, MatchResult, take, length};
ghost use Rattle.std.specs.Io.{WritesAtMost};
ghost use Rattle.std.specs.Io.KnownBytes.{Keeps, WriteAppends};
ghost use Rattle.zst_outside.specs.Causes.{HasCause};

use crate::record::Record;
use std::io::{self, ErrorKind, Write};
use zst_outside::Fault;

/// A writer, the calls on it and the count of its faults.
#[derive(Drop)]
pub(crate) struct Pipe<W> {
    inner: W,
    log: Record,
    faults: u64,
}

// One call of the writer, made again where a signal interrupts it. It is to take a byte.
fn write_once<W: Write>(writer: &mut W, bytes: &[u8]) -> io::Result<usize>
    ensures bound { WritesAtMost result bytes.now }
    ensures bytes { WriteAppends (W.contents writer.old) (W.contents writer.new) result bytes.now }
{
    for _ in 0..u64::MAX {
        match writer.write(bytes) {
            Ok(count) => return Ok(count),
            Err(error) => {
                if error.kind() != ErrorKind::Interrupted {
                    return Err(error);
                }
            }
        }
    }
    Err(ErrorKind::TimedOut.into())
}

impl<W: Write> Pipe<W> {
    ghost use Rattle.std.specs.Prelude.{[]};
    ghost use Rattle.zst_file.specs.Streams.{text_of};

    pub(crate) fn new(inner: W) -> Pipe<W>
        ensures fresh { result.log.events ≡ [] }
        ensures count { result.faults ≡ 0 }
        ensures writer { result.inner ≡ inner }
    {
        Pipe {
            inner,
            log: Record::new(),
            faults: 0,
        }
    }

    // A call that takes no byte is a fault.
    pub(crate) fn hand_on(&mut self, bytes: &[u8]) -> Result<usize, Fault>
        ensures bound { WritesAtMost result bytes.now }
        ensures some { IfOk result (λ n. 0 < n) }
        ensures noted { MatchResult result
            (λ n. text_of self.new.log.events ≡ text_of self.old.log.events ++ take n bytes.now)
            (λ _. text_of self.new.log.events ≡ text_of self.old.log.events) }
        ensures writer { WriteAppends (W.contents self.old.inner) (W.contents self.new.inner) result bytes.now }
        ensures count_stays { OnOk result (self.new.faults ≡ self.old.faults) }
        ensures cause { HasCause self.old.faults self.new.faults result }
    {
        match write_once(&mut self.inner, bytes) {
            Ok(count) if 0 < count => {
                self.log.took(&bytes[..count]);
                Ok(count)
            }
            _ => {
                self.faults = self.faults.saturating_add(1);
                Err(Fault)
            }
        }
    }

    // The writer may keep bytes of its own.
    pub(crate) fn flush(&mut self) -> Result<(), Fault>
        ensures noted { text_of self.new.log.events ≡ text_of self.old.log.events }
        ensures writer { Keeps (W.contents self.old.inner) (W.contents self.new.inner) }
        ensures count_stays { OnOk result (self.new.faults ≡ self.old.faults) }
        ensures cause { HasCause self.old.faults self.new.faults result }
    {
        if self.inner.flush().is_ok() {
            return Ok(());
        }
        self.faults = self.faults.saturating_add(1);
        Err(Fault)
    }

    pub(crate) fn faults(&self) -> u64
        ensures { result ≡ self.now.faults }
    {
        self.faults
    }
}
