// Inputs that are read to their end.
use super::readers::open_reader;
use super::streams::Stream;
use std::alloc::Global;
use std::process::Abort;
use std::test::Fail;
use zst_model::StreamFault;
use zst_outside::{Fault, MemSource};
use zst_reader::{Reader, Step};

/// What was found of a stream.
#[derive(Clone, Copy, Debug, PartialEq, Eq)]
pub(super) struct ReadCounts {
    pub(super) records: u64,
    pub(super) payload: u64,
    pub(super) faults: u64,
    pub(super) finish: Result<(), StreamFault>,
}

/// Counts the records that a reader can hand out now, and their payloads' bytes.
pub(super) fn take_all(reader: &mut Reader, found: &mut ReadCounts) {
    for _ in 0..10_000 {
        match reader.next() {
            Ok(Step::Record(record)) => {
                found.records = found.records.saturating_add(1);
                found.payload = found.payload.saturating_add(record.payload.len() as u64);
            }
            _ => return,
        }
    }
}

pub(super) fn nothing() -> ReadCounts {
    ReadCounts {
        records: 0,
        payload: 0,
        faults: 0,
        finish: Ok(()),
    }
}

/// Reads an input to its end, and goes on after each fault.
pub(super) fn read_all(rt: &impl Abort, alloc: Global, input: &mut MemSource) -> ReadCounts {
    let mut reader = open_reader(rt, alloc);
    let mut found = nothing();
    for _ in 0..10_000 {
        take_all(&mut reader, &mut found);
        if reader.room() == 0 || reader.pushed() >= 1 << 40 {
            break;
        }
        match reader.fill(input) {
            Ok(0) => break,
            Ok(_) => {}
            Err(Fault) => found.faults = found.faults.saturating_add(1),
        }
    }
    found.finish = reader.finish();
    found
}

/// Two records without payload, after so many faults.
pub(super) fn whole(faults: u64) -> ReadCounts {
    ReadCounts {
        records: 2,
        payload: 0,
        faults,
        finish: Ok(()),
    }
}

/// Whether a stream is found so, read in pieces of at most so many bytes.
pub(super) fn is_found(
    rt: &impl Abort,
    alloc: Global,
    stream: &Stream,
    size: usize,
    want: ReadCounts,
) -> Result<bool, Fail> {
    assert!(rt; size > 0);
    let mut input = MemSource::new(stream.bytes.clone()?, Vec::new(alloc)).in_pieces_of(size);
    Ok(read_all(rt, alloc, &mut input) == want)
}
