// Streams whose BEGIN has a payload.
use super::payloads::{PAYLOAD, hand_out_resumed};
use super::readers::{open_reader, push_all};
use super::refusals::{grammar, is_refused_by, unsupported};
use super::streams::{PLAIN, REDACTED, RESUMED, Stream};
use std::alloc::Global;
use std::process::Abort;
use std::test::Fail;
use zst_model::{Flaw, Lack, Point};

const BOTH: u64 = RESUMED + (1 << 23);

/// Checks that a stream in pieces of this size is two records, resumed there.
fn check_pieces(rt: &impl Abort, alloc: Global, stream: &[u8], size: usize, point: Point) {
    assert!(rt; size > 0);
    let mut reader = open_reader(rt, alloc);
    let mut records = 0u64;
    for piece in stream.chunks(size) {
        push_all(rt, &mut reader, piece);
        records = records.saturating_add(hand_out_resumed(rt, &mut reader, point));
    }
    assert!(rt; records == 2, "pieces of {size}");
    assert!(rt; reader.finish() == Ok(()), "pieces of {size}");
}

#[test]
fn begin_says_where_a_stream_is_resumed(rt: HostRuntime) -> Result<(), Fail> {
    let mut stream = Stream::begin_with(&rt, rt.alloc(), RESUMED, PAYLOAD)?;
    stream.end(&rt)?;
    assert!(rt; stream.bytes.len() == 664);
    let point = Point {
        object: 1,
        offset: 512,
    };
    for size in [1, 664] {
        check_pieces(&rt, rt.alloc(), &stream.bytes, size, point);
    }
    Ok(())
}

#[test]
fn a_payload_of_begin_is_refused_for_what_it_says(rt: HostRuntime) -> Result<(), Fail> {
    let foreign = unsupported(312, Lack::ForeignPayload);
    let wrong = grammar(312, Flaw::Payload);
    // What a payload says is judged once it is whole.
    for (what, version, place, byte, fault) in [
        ("another magic", RESUMED, 0, b'z', foreign),
        ("an object over 2 ^ 48", RESUMED, 14, 1, wrong),
        ("a guid that isn't there", RESUMED, 32, 1, wrong),
        ("not resumed", PLAIN, 0, b'Z', wrong),
        ("redacted for no guid", BOTH, 0, b'Z', wrong),
    ] {
        let mut payload = *PAYLOAD;
        payload[place] = byte;
        let stream = Stream::begin_with(&rt, rt.alloc(), version, &payload)?;
        assert!(rt;
            is_refused_by(&rt, rt.alloc(), &stream, 352, 0, fault),
            "{what}"
        );
    }
    Ok(())
}

#[test]
fn a_payload_of_another_length_is_refused_before_it_is_read(rt: HostRuntime) -> Result<(), Fail> {
    let foreign = unsupported(4, Lack::ForeignPayload);
    for (length, version, fault) in [
        (0, RESUMED, grammar(4, Flaw::Payload)),
        (0, REDACTED, grammar(4, Flaw::Payload)),
        (32, RESUMED, foreign),
        (36, PLAIN, foreign),
    ] {
        let (payload, _) = PAYLOAD.split_at(length);
        let stream = Stream::begin_with(&rt, rt.alloc(), version, payload)?;
        assert!(rt;
            is_refused_by(&rt, rt.alloc(), &stream, 312, 0, fault),
            "{length} bytes"
        );
    }
    Ok(())
}
