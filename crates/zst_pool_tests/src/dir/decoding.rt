use super::texts::{
    is_dir, over_base, receiving, sample, sample_with, two_datasets, two_snapshots,
};
use crate::rows::read;
use std::test::Fail;
use zst_dir::Dir;

#[test]
fn an_empty_directory_is_three_counts(rt: HostRuntime) -> Result<(), Fail> {
    let dir = Dir::decode(rt.alloc(), &[0; 24])?;
    assert!(rt; dir.is_some_and(|dir| dir.datasets().is_empty() && dir.partials().is_empty()));
    Ok(())
}

#[test]
fn rows_are_read_and_spelled_as_they_were(rt: HostRuntime) -> Result<(), Fail> {
    let bytes = sample(rt.alloc())?;
    let dir = read(rt.alloc(), &bytes)?;
    assert!(rt; dir.datasets().len() == 2 && dir.snapshots().len() == 3);
    assert!(rt; dir.bookmarks().len() == 1 && dir.partials().len() == 1);
    assert!(rt; dir.encode(rt.alloc())?.as_slice() == bytes.as_slice());
    Ok(())
}

#[test]
fn snapshots_are_read_as_they_were_spelled(rt: HostRuntime) -> Result<(), Fail> {
    let dir = read(rt.alloc(), &sample(rt.alloc())?)?;
    let [first, second, third] = dir.snapshots() else {
        return Err(Fail::new("not three snapshots"));
    };
    assert_eq!(rt; first.name.text(), "t@b");
    assert_eq!(rt; second.name.text(), "t@a");
    assert_eq!(rt; third.name.text(), "t/c@a");
    assert!(rt; second.number == 2 && second.time == 1_700_000_000);
    assert!(rt; second.redact.as_slice() == [3, u64::MAX].as_slice());
    Ok(())
}

#[test]
fn a_partial_state_is_read_as_it_was_spelled(rt: HostRuntime) -> Result<(), Fail> {
    let dir = read(rt.alloc(), &sample(rt.alloc())?)?;
    let [partial] = dir.partials() else {
        return Err(Fail::new("not one partial state"));
    };
    assert!(rt; partial.keep && partial.header.kind == 3 && partial.header.features == 0x14);
    assert!(rt; partial.header.name.as_bytes() == b"a/b@\xff".as_slice());
    assert!(rt; partial.point.object == 1 << 47 && partial.point.offset == 4096);
    Ok(())
}

#[test]
fn a_guid_of_0_or_a_header_that_no_stream_states_is_none(rt: HostRuntime) -> Result<(), Fail> {
    for (place, number, lawful) in [
        // The guids of a snapshot, of the bookmark and of the partial state.
        (20, 1, true),
        (20, 0, false),
        (93, u64::MAX, true),
        (93, 0, false),
        (119, 1, true),
        (119, 0, false),
        // The kind, the flags and the features of the partial state.
        (115, 2, true),
        (115, 4, false),
        (116, (1 << 32) - 1, true),
        (116, 1 << 32, false),
        (117, (1 << 30) - 1 - (3 << 20), true),
        (117, 1 << 30, false),
        // Its name, whole and with a zero byte in it.
        (122, 0x0000_00fe_4062_2f61, true),
        (122, 0x0000_00fe_0062_2f61, false),
    ] {
        let bytes = sample_with(rt.alloc(), place, number)?;
        assert_eq!(rt; is_dir(rt.alloc(), &bytes)?, lawful, "{number} at {place}");
    }
    Ok(())
}

#[test]
fn guids_stand_only_beside_their_feature_and_their_source(rt: HostRuntime) -> Result<(), Fail> {
    const RESUMING: u64 = 1 << 20;
    const REDACTED: u64 = 1 << 21;
    let none: &[u64] = &[];
    let one: &[u64] = &[9];
    for (fields, redact, from_redact, lawful) in [
        // The source's guid of a full stream is 0, and it has no redaction guids then.
        ((4, 0), none, none, true),
        ((4, 0), none, one, false),
        ((4, 8), none, none, true),
        ((4, 8), none, one, true),
        // Redaction guids stand exactly where the stream has REDACTED.
        ((4, 0), one, none, false),
        ((4 | REDACTED, 0), one, none, true),
        ((4 | REDACTED, 0), none, none, false),
        ((4 | REDACTED, 8), one, one, true),
        // A stream that was asked for by a token is kept with the header of the first.
        ((4 | RESUMING, 0), none, none, false),
    ] {
        let bytes = receiving(rt.alloc(), fields, (redact, from_redact))?;
        assert_eq!(rt;
            is_dir(rt.alloc(), &bytes)?,
            lawful,
            "{fields:?} {redact:?} {from_redact:?}"
        );
    }
    Ok(())
}

#[test]
fn datasets_out_of_order_are_none(rt: HostRuntime) -> Result<(), Fail> {
    for (first, second, lawful) in [("a", "b", true), ("b", "a", false), ("a", "a", false)] {
        let bytes = two_datasets(rt.alloc(), (first, ""), &[("a", 100, 1)], second)?;
        assert_eq!(rt; is_dir(rt.alloc(), &bytes)?, lawful, "{first} {second}");
    }
    Ok(())
}

#[test]
fn snapshots_out_of_order_are_none(rt: HostRuntime) -> Result<(), Fail> {
    for (first, second, lawful) in [
        (("c", 1), ("b", 1), true),
        (("b", 2), ("c", 1), false),
        (("b", 1), ("b", 2), false),
    ] {
        let bytes = two_snapshots(rt.alloc(), first, second)?;
        assert_eq!(rt; is_dir(rt.alloc(), &bytes)?, lawful, "{first:?} {second:?}");
    }
    Ok(())
}

#[test]
fn an_origin_that_is_not_there_is_none(rt: HostRuntime) -> Result<(), Fail> {
    for (origin, lawful) in [("b@a", true), ("b@b", false)] {
        let bytes = two_datasets(rt.alloc(), ("a", origin), &[], "b")?;
        assert_eq!(rt; is_dir(rt.alloc(), &bytes)?, lawful, "{origin}");
    }
    Ok(())
}

#[test]
fn a_base_that_is_not_there_is_none(rt: HostRuntime) -> Result<(), Fail> {
    for (component, base, lawful) in [
        ("b", "", true),
        ("b", "t@a", true),
        ("b", "t@c", false),
        ("a", "t@a", false),
    ] {
        let bytes = over_base(rt.alloc(), component, base)?;
        assert_eq!(rt;
            is_dir(rt.alloc(), &bytes)?,
            lawful,
            "{component} on {base}"
        );
    }
    Ok(())
}
