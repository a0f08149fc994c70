// Records behind BEGIN that fail a check: each fault is told at the byte of its field.
use super::payloads::REDACTED_PAYLOAD;
use super::readers::{hand_out_all, open_reader, push_all};
use super::refusals::{grammar, is_refused_by, unsupported};
use super::streams::{REDACTED, Stream, smallest_stream};
use crate::fields::{Field, set};
use std::alloc::Global;
use std::process::Abort;
use std::test::Fail;
use zst_model::{Flaw, Lack, StreamFault};

/// Checks that a record of these fields behind BEGIN is refused so.
fn check_refused(
    rt: &impl Abort,
    alloc: Global,
    fields: &[Field],
    fault: StreamFault,
) -> Result<(), Fail> {
    let mut stream = Stream::begin(rt, alloc)?;
    stream.put_fields(rt, fields)?;
    assert!(rt;
        is_refused_by(rt, alloc, &stream, 624, 1, fault),
        "{fault:?}"
    );
    Ok(())
}

#[test]
fn a_record_of_another_type_is_refused_at_its_place(rt: HostRuntime) -> Result<(), Fail> {
    for (kind, fault) in [
        (0, grammar(312, Flaw::SecondBegin)),
        (6, unsupported(312, Lack::ByReference)),
        (8, unsupported(312, Lack::Embedded)),
        (9, unsupported(312, Lack::ObjectRange)),
        (10, grammar(312, Flaw::Redact)),
        (11, grammar(312, Flaw::RecordType)),
    ] {
        check_refused(&rt, rt.alloc(), &[(0, 4, kind), (8, 8, 1)], fault)?;
    }
    Ok(())
}

#[test]
fn a_faulty_field_is_refused_at_its_byte(rt: HostRuntime) -> Result<(), Fail> {
    // The type of the record, its object, and two fields more.
    for (kind, object, first, second, at, flaw) in [
        (1, 0, (16, 4, 19), (24, 4, 512), 320, Flaw::Object),
        (1, 1, (16, 4, 19), (24, 4, 513), 336, Flaw::BlockSize),
        (3, 1, (32, 8, 0), (50, 1, 15), 344, Flaw::Size),
        (4, 1, (16, 8, u64::MAX), (24, 8, 1), 336, Flaw::Range),
        (7, 1, (16, 8, 513), (33, 1, 15), 328, Flaw::Size),
    ] {
        let fields = [(0, 4, kind), (8, 8, object), first, second];
        check_refused(&rt, rt.alloc(), &fields, grammar(at, flaw))?;
    }
    Ok(())
}

#[test]
fn what_is_compressed_is_refused_at_its_byte(rt: HostRuntime) -> Result<(), Fail> {
    // The type of the record, its size, and how it is compressed.
    for (kind, size, compression, at) in [
        (3, (32, 8, 512), (50, 1, 15), 362),
        (7, (16, 8, 512), (33, 1, 15), 345),
    ] {
        let fields = [(0, 4, kind), (8, 8, 1), size, compression];
        check_refused(&rt, rt.alloc(), &fields, unsupported(at, Lack::Compressed))?;
    }
    Ok(())
}

#[test]
fn what_is_redacted_stands_in_range(rt: HostRuntime) -> Result<(), Fail> {
    for (object, offset, fault) in [
        (0, 512, grammar(368, Flaw::Object)),
        (1, u64::MAX - 511, grammar(384, Flaw::Range)),
    ] {
        let mut stream = Stream::begin_with(&rt, rt.alloc(), REDACTED, REDACTED_PAYLOAD)?;
        let fields = [(0, 4, 10), (8, 8, object), (16, 8, offset), (24, 8, 512)];
        stream.put_fields(&rt, &fields)?;
        assert!(rt;
            is_refused_by(&rt, rt.alloc(), &stream, 672, 1, fault),
            "{fault:?}"
        );
    }
    Ok(())
}

#[test]
fn end_states_the_guid_of_begin(rt: HostRuntime) -> Result<(), Fail> {
    let mut stream = Stream::begin(&rt, rt.alloc())?;
    stream.end_to(&rt, 0x1_0000_0002)?;
    let fault = grammar(352, Flaw::Guid);
    assert!(rt; is_refused_by(&rt, rt.alloc(), &stream, 624, 1, fault));
    Ok(())
}

#[test]
fn a_wrong_sum_of_end_is_told_before_another_guid(rt: HostRuntime) -> Result<(), Fail> {
    let mut stream = Stream::begin(&rt, rt.alloc())?;
    stream.put_fields(&rt, &[(0, 4, 5), (40, 8, 0x1_0000_0002)])?;
    // What the END of the smallest stream states.
    let found = [
        6_902_770_870,
        504_849_252_908,
        18_777_133_574_465,
        473_262_148_586_970,
    ];
    let fault = StreamFault::Checksum {
        at: 320,
        stated: [0; 4],
        found,
    };
    assert!(rt; is_refused_by(&rt, rt.alloc(), &stream, 624, 1, fault));
    Ok(())
}

#[test]
fn a_wrong_sum_of_a_record_is_told_before_its_type(rt: HostRuntime) {
    let mut stream = smallest_stream(&rt);
    set(&rt, &mut stream, &(312, 4, 11));
    let mut reader = open_reader(&rt, rt.alloc());
    push_all(&rt, &mut reader, &stream);
    match hand_out_all(&mut reader) {
        Err(StreamFault::Checksum { at, .. }) => assert!(rt; at == 592),
        _ => panic!(&rt; "no wrong sum"),
    }
}
