// Streams that are redacted, or whose source is.
use super::payloads::{
    EMPTY_PAYLOAD, REDACTED_PAYLOAD, SOURCE_PAYLOAD, check_source, hand_out_redacted,
};
use super::readers::{hand_out_all, open_reader, push_all};
use super::refusals::{grammar, is_refused_by};
use super::streams::{PLAIN, REDACTED, Stream};
use std::test::Fail;
use zst_model::Flaw;

#[test]
fn what_is_redacted_is_read(rt: HostRuntime) -> Result<(), Fail> {
    let mut stream = Stream::begin_with(&rt, rt.alloc(), REDACTED, REDACTED_PAYLOAD)?;
    stream.redact(&rt, 512)?;
    stream.end(&rt)?;
    assert!(rt; stream.bytes.len() == 984);
    for size in [1, 984] {
        let mut reader = open_reader(&rt, rt.alloc());
        let mut records = 0u64;
        for piece in stream.bytes.chunks(size) {
            push_all(&rt, &mut reader, piece);
            records = records.saturating_add(hand_out_redacted(&rt, &mut reader));
        }
        assert!(rt; records == 3, "pieces of {size}");
        assert!(rt; reader.finish() == Ok(()), "pieces of {size}");
    }
    Ok(())
}

#[test]
fn begin_says_for_whom_its_source_is_redacted(rt: HostRuntime) -> Result<(), Fail> {
    let mut stream = Stream::begin_from(&rt, rt.alloc(), PLAIN, 9, SOURCE_PAYLOAD)?;
    stream.end(&rt)?;
    let mut reader = open_reader(&rt, rt.alloc());
    push_all(&rt, &mut reader, &stream.bytes);
    check_source(&rt, &mut reader, 9, &[3, 4]);
    assert!(rt; hand_out_all(&mut reader) == Ok(1));
    assert!(rt; reader.finish() == Ok(()));
    Ok(())
}

#[test]
fn a_payload_may_say_nothing(rt: HostRuntime) -> Result<(), Fail> {
    let mut stream = Stream::begin_with(&rt, rt.alloc(), PLAIN, EMPTY_PAYLOAD)?;
    stream.end(&rt)?;
    let mut reader = open_reader(&rt, rt.alloc());
    push_all(&rt, &mut reader, &stream.bytes);
    check_source(&rt, &mut reader, 0, &[]);
    assert!(rt; hand_out_all(&mut reader) == Ok(1));
    assert!(rt; reader.finish() == Ok(()));
    Ok(())
}

#[test]
fn guids_of_a_redaction_go_with_the_stream(rt: HostRuntime) -> Result<(), Fail> {
    let wrong = grammar(312, Flaw::Payload);
    let unredacted = Stream::begin_with(&rt, rt.alloc(), PLAIN, REDACTED_PAYLOAD)?;
    assert!(rt; is_refused_by(&rt, rt.alloc(), &unredacted, 360, 0, wrong));
    let without_source = Stream::begin_with(&rt, rt.alloc(), PLAIN, SOURCE_PAYLOAD)?;
    assert!(rt; is_refused_by(&rt, rt.alloc(), &without_source, 368, 0, wrong));
    let mut payload = *SOURCE_PAYLOAD;
    payload[40] = 4;
    let not_rising = Stream::begin_from(&rt, rt.alloc(), PLAIN, 9, &payload)?;
    assert!(rt; is_refused_by(&rt, rt.alloc(), &not_rising, 368, 0, wrong));
    Ok(())
}
