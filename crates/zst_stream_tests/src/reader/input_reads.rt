// A reader that reads by itself.
use super::inputs::{ReadCounts, is_found, nothing, take_all};
use super::readers::open_reader;
use super::streams::{Stream, long_stream};
use std::alloc::Global;
use std::process::Abort;
use std::test::Fail;
use zst_outside::{MemSource, Source};
use zst_reader::CAPACITY;

/// A stream of so many holes.
fn holes(rt: &impl Abort, alloc: Global, count: u64) -> Result<Stream, Fail> {
    assert!(rt; count <= 10_000);
    let mut stream = Stream::begin(rt, alloc)?;
    for number in 0..count {
        stream.free(rt, 512 * number)?;
    }
    stream.end(rt)?;
    Ok(stream)
}

#[test]
fn a_stream_longer_than_the_window_is_read_whole(rt: HostRuntime) -> Result<(), Fail> {
    let alloc = rt.alloc();
    let stream = holes(&rt, alloc, 3_000)?;
    assert!(rt; stream.bytes.len() > CAPACITY);
    let want = ReadCounts {
        records: 3_002,
        payload: 0,
        faults: 0,
        finish: Ok(()),
    };
    for size in [4_096, 100_000, 1_000_000] {
        assert!(rt;
            is_found(&rt, alloc, &stream, size, want)?,
            "pieces of {size}"
        );
    }
    Ok(())
}

#[test]
fn large_records_are_asked_for_one_by_one(rt: HostRuntime) -> Result<(), Fail> {
    let alloc = rt.alloc();
    let stream = long_stream(&rt, alloc)?;
    let mut input = MemSource::new(stream.bytes.clone()?, Vec::new(alloc));
    let mut reader = open_reader(&rt, alloc);
    let mut found = nothing();
    // A piece, the rest of the first block and the head of the next, and then a block and a head at a time.
    for size in [131_072, 936, 131_384, 131_384] {
        take_all(&mut reader, &mut found);
        assert!(rt; reader.room() > 0 && reader.pushed() < 1 << 40);
        assert!(rt; reader.fill(&mut input) == Ok(size));
    }
    Ok(())
}
