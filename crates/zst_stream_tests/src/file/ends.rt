// A reader that drips and a writer that is narrow, both with faults.
use std::io::{self, ErrorKind, Read, Write};

// How a fake reader or writer answers its calls: each other one is interrupted, and one fails.
#[derive(Drop)]
pub(super) struct Script {
    pub(super) calls: u64,
    pub(super) fails: u64,
}

impl Script {
    fn next(&mut self) -> io::Result<()> {
        self.calls = self.calls.saturating_add(1);
        if self.calls == self.fails {
            return Err(ErrorKind::BrokenPipe.into());
        }
        if self.calls % 2 == 1 {
            return Err(ErrorKind::Interrupted.into());
        }
        Ok(())
    }
}

// It gives two bytes a call.
#[derive(Drop)]
pub(super) struct DripReader {
    pub(super) left: &'static [u8],
    pub(super) script: Script,
}

impl Read for DripReader {
    fn read(&mut self, into: &mut [u8]) -> io::Result<usize> {
        self.script.next()?;
        let count = self.left.len().min(2).min(into.len());
        into[..count].copy_from_slice(&self.left[..count]);
        self.left = &self.left[count..];
        Ok(count)
    }
}

// It takes at most 40,000 bytes a call.
#[derive(Drop)]
pub(super) struct NarrowWriter<'a> {
    pub(super) got: &'a mut Vec<u8>,
    pub(super) script: Script,
}

impl Write for NarrowWriter<'_> {
    fn write(&mut self, from: &[u8]) -> io::Result<usize> {
        self.script.next()?;
        let count = from.len().min(40000);
        self.got.extend_from_slice(&from[..count])?;
        Ok(count)
    }

    fn flush(&mut self) -> io::Result<()> {
        Ok(())
    }
}
