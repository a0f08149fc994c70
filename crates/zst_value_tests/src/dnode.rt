//! Slots against bytes that were written out by the table, byte by byte.
mod examples;

use crate::dnode::examples::{dnode, example, is_slot_with, is_written_again, lay};
use std::process::Abort;
use zst_dnode::Slot;

#[test]
fn a_dnode_has_the_bytes_of_its_table(rt: HostRuntime) {
    let bytes = example();
    assert!(rt; Slot::get(&bytes, 0) == Some(Slot::There(dnode())));
    assert!(rt; is_written_again(&bytes));
}

// An absent object with a date.
fn absent() -> [u8; 512] {
    let mut bytes = [0; 512];
    lay(&mut bytes, 16, b"\x88\x77\x66\x55\x44\x33\x22\x11");
    bytes
}

// Checks that no byte of an absent object in this range may be set.
fn check_unset(rt: &impl Abort, from: usize, to: usize) {
    for at in from..to {
        let mut other = absent();
        lay(&mut other, at, b"\x01");
        assert!(rt; Slot::get(&other, 0).is_none(), "at {at}");
    }
}

#[test]
fn an_absent_object_has_its_date_alone(rt: HostRuntime) {
    let bytes = absent();
    assert!(rt; Slot::get(&[0; 512], 0) == Some(Slot::Absent { date: 0 }));
    assert!(rt;
        Slot::get(&bytes, 0)
            == Some(Slot::Absent {
                date: 0x1122_3344_5566_7788
            })
    );
    assert!(rt; is_written_again(&bytes));
    check_unset(&rt, 0, 16);
    check_unset(&rt, 24, 512);
}

// Checks that each byte in this range is zero in a slot.
fn check_zeros(rt: &impl Abort, from: usize, to: usize) {
    for at in from..to {
        assert!(rt; is_slot_with(at, b"\0"), "at {at}");
        assert!(rt; !is_slot_with(at, b"\x01"), "at {at}");
    }
}

#[test]
fn a_byte_that_no_field_names_is_zero(rt: HostRuntime) {
    for (from, to) in [
        (25, 32),
        (50, 52),
        (104, 112),
        (114, 116),
        (168, 176),
        (176, 192),
        (195, 512),
    ] {
        check_zeros(&rt, from, to);
    }
}

#[test]
fn each_range_ends_at_its_bound(rt: HostRuntime) {
    // the block size
    assert!(rt; is_slot_with(8, b"\0\x02\0\0") && !is_slot_with(8, b"\0\0\0\0"));
    assert!(rt; !is_slot_with(8, b"\0\x02\x02\0") && !is_slot_with(8, b"\x01\x02\0\0"));
    // the length of the bonus
    assert!(rt; is_slot_with(12, b"\x40\x01") && !is_slot_with(12, b"\x41\x01"));
    assert!(rt; !is_slot_with(12, b"\x02"));
    // the levels
    assert!(rt; is_slot_with(24, b"\x07") && !is_slot_with(24, b"\x08"));
    // the end: at most 2^43, and at most 1 where the block size is no power of two
    assert!(rt; is_slot_with(40, b"\0\0\0\0\0\x08") && !is_slot_with(40, b"\x01\0\0\0\0\x08"));
    let mut odd = example();
    lay(&mut odd, 8, b"\0\x06\0\0");
    lay(&mut odd, 40, b"\x01\0");
    assert!(rt; Slot::get(&odd, 0).is_some());
    lay(&mut odd, 40, b"\x02");
    assert!(rt; Slot::get(&odd, 0).is_none());
}

#[test]
fn a_root_is_of_a_kind_that_its_levels_allow(rt: HostRuntime) {
    let flat = [0; 16];
    for (levels, kind, wants) in [
        (b"\0", 0, true),
        (b"\0", 1, true),
        (b"\0", 2, true),
        (b"\0", 3, false),
        (b"\0", 4, false),
        (b"\x01", 0, true),
        (b"\x01", 1, false),
        (b"\x01", 2, true),
        (b"\x01", 3, true),
        (b"\x01", 4, true),
        (b"\x01", 5, false),
    ] {
        let mut bytes = example();
        lay(&mut bytes, 24, levels);
        // the block size as the length
        lay(&mut bytes, 48, &[kind, 0, 0, 0, 0, 0, 2, 0]);
        if kind == 0 || kind == 2 {
            assert!(rt; Slot::get(&bytes, 0).is_none());
            lay(&mut bytes, 52, b"\0\0\0\0\0\0\0\0\0\0\0\0");
            lay(&mut bytes, 72, &flat);
            lay(&mut bytes, 88, &flat);
        }
        assert!(rt; Slot::get(&bytes, 0).is_some() == wants, "kind {kind}");
    }
    // data of another length than the block size
    let mut bytes = example();
    lay(&mut bytes, 24, b"\0");
    lay(&mut bytes, 48, b"\x01\0\0\0\0\0\x01\0");
    assert!(rt; Slot::get(&bytes, 0).is_none());
}

#[test]
fn a_spill_is_a_block_of_a_spill_size_or_none(rt: HostRuntime) {
    assert!(rt; is_slot_with(112, &[0; 64]));
    for kind in 0..6 {
        assert!(rt; is_slot_with(112, &[kind]) == (kind == 1), "kind {kind}");
    }
    assert!(rt; is_slot_with(116, b"\0\0\x02\0") && !is_slot_with(116, b"\0\x02\x02\0"));
    assert!(rt; is_slot_with(116, b"\0\x02\0\0") && !is_slot_with(116, b"\0\0\0\0"));
    assert!(rt; !is_slot_with(116, b"\x01\x02\0\0"));
}
