// Streams that are refused, by how many of their bytes, and why.
use super::inputs::{nothing, take_all};
use super::readers::{hand_out_all, open_reader, push_all};
use super::streams::Stream;
use std::alloc::Global;
use std::process::Abort;
use zst_model::{Flaw, Lack, StreamFault};

/// E17 at this byte.
pub(super) fn grammar(at: u64, flaw: Flaw) -> StreamFault {
    StreamFault::Grammar { at, flaw }
}

/// E19 at this byte.
pub(super) fn unsupported(at: u64, lack: Lack) -> StreamFault {
    StreamFault::Unsupported { at, lack }
}

/// Whether the stream is refused so by so many bytes of it, behind so many covered records, and is only cut with one byte
/// less, before any record is covered.
pub(super) fn is_refused_by(
    rt: &impl Abort,
    alloc: Global,
    stream: &Stream,
    count: usize,
    records: u64,
    fault: StreamFault,
) -> bool {
    assert!(rt; count > 0 && count <= stream.bytes.len());
    let (front, rest) = stream.bytes.split_at(count - 1);
    let mut reader = open_reader(rt, alloc);
    push_all(rt, &mut reader, front);
    let at = front.len() as u64;
    let is_cut = hand_out_all(&mut reader) == Ok(0)
        && reader.finish() == Err(StreamFault::Truncated { at });
    let (last, _) = rest.split_at(1);
    push_all(rt, &mut reader, last);
    let mut found = nothing();
    take_all(&mut reader, &mut found);
    is_cut
        && found.records == records
        && hand_out_all(&mut reader) == Err(fault)
        && reader.finish() == Err(fault)
}
