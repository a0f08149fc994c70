// An output that keeps what it takes until it is flushed.
use super::items::written;
use super::round_trip::TEXT;
use std::alloc::Global;
use std::process::Abort;
use std::str;
use std::test::Fail;
use zst_outside::{Fault, MemSink, MemSource, Sink, SureDisk};
use zst_run::run;

/// An output that keeps what it takes until it is flushed. Its flushes are numbered from 0, and one of them fails.
#[derive(Drop)]
pub(super) struct BufferedSink {
    handed_on: Vec<u8>,
    waiting: Vec<u8>,
    failing: u64,
    flushes: u64,
    pub(super) faults: u64,
}

impl BufferedSink {
    fn new(alloc: Global, failing: u64) -> BufferedSink {
        BufferedSink {
            handed_on: Vec::new(alloc),
            waiting: Vec::new(alloc),
            failing,
            flushes: 0,
            faults: 0,
        }
    }
}

impl Sink for BufferedSink {
    ghost use Rattle.std.specs.Prelude.{◌++◌, length};

    ghost state = { λ s. record { written = s.handed_on.items ++ s.waiting.items; waiting = length s.waiting.items; faults = s.faults } };

    fn write(&mut self, from: &[u8]) -> Result<usize, Fault> {
        match self.waiting.extend_from_slice(from) {
            Ok(()) => Ok(from.len()),
            Err(_) => {
                self.faults = self.faults.saturating_add(1);
                Err(Fault)
            }
        }
    }

    fn flush(&mut self) -> Result<(), Fault> {
        let number = self.flushes;
        self.flushes = number.saturating_add(1);
        if number == self.failing || self.handed_on.extend_from_slice(&self.waiting).is_err() {
            self.faults = self.faults.saturating_add(1);
            return Err(Fault);
        }
        self.waiting.clear();
        Ok(())
    }

    fn faults(&self) -> u64 {
        self.faults
    }
}

/// What came of a dump.
#[derive(Drop)]
pub(super) struct Dumped {
    pub(super) status: u8,
    /// How many bytes of the input were taken.
    pub(super) taken: usize,
    pub(super) out: BufferedSink,
}

/// Dumps the items that were written, read in pieces of 1,000 bytes, where a read and a flush of these numbers fail.
pub(super) fn dump_items(alloc: Global, read: u64, flush: u64) -> Result<Dumped, Fail> {
    let words = vec![in alloc; String::from_str(alloc, "dump")?]?;
    let stream = written(alloc)?;
    let whole = stream.len();
    let mut input = MemSource::new(stream, vec![in alloc; read]?).in_pieces_of(1_000);
    let mut out = BufferedSink::new(alloc, flush);
    let mut note = MemSink::new(Vec::new(alloc));
    let mut here = SureDisk::new(Vec::new(alloc));
    let mut there = SureDisk::new(Vec::new(alloc));
    let status = run(
        alloc, &words, 0, &mut here, &mut there, &mut input, &mut out, &mut note,
    );
    let taken = whole.saturating_sub(input.left().len());
    Ok(Dumped { status, taken, out })
}

/// Compares what was handed on, and what waits.
pub(super) fn check_out(rt: &impl Abort, out: &BufferedSink, handed_on: &str, waiting: &str) {
    assert_eq!(rt;
        str::from_utf8(&out.handed_on).unwrap_or("no text"),
        handed_on
    );
    assert_eq!(rt; str::from_utf8(&out.waiting).unwrap_or("no text"), waiting);
}

/// How many bytes of the items cover each line of their dump.
const COVERED_AT: [usize; 14] = [
    624, 936, 1_248, 1_560, 2_896, 3_208, 3_688, 4_000, 135_384, 135_696, 136_008, 136_008,
    136_008, 136_008,
];

/// The lines that some bytes of the items cover.
pub(super) fn covered(count: usize) -> &'static str {
    let mut lines = 0usize;
    for end in COVERED_AT {
        if end <= count {
            lines = lines.saturating_add(1);
        }
    }
    if lines == 0 {
        return "";
    }
    match TEXT.match_indices("\n").nth(lines.saturating_sub(1)) {
        Some((place, _)) => TEXT.get(..place.saturating_add(1)).unwrap_or(TEXT),
        None => TEXT,
    }
}
