// Records behind OBJECT, field by field, and the order of the checks.
use super::records::{Found, judge, judge_order, object_record, record_of};
use zst_model::{Flaw, Lack, StreamFault};
use zst_record::decode;

const AT: u64 = 624;

const LIMIT: u64 = 1 << 48;

#[test]
fn judges_a_write_field_by_field(rt: HostRuntime) {
    let table = [
        ((8, 8, 0), Found::Flaw(8, Flaw::Object)),
        ((8, 8, LIMIT - 1), Found::Nothing),
        ((8, 8, LIMIT), Found::Flaw(8, Flaw::Object)),
        ((16, 4, 0), Found::Nothing),
        ((24, 8, u64::MAX), Found::Nothing),
        ((32, 8, 0), Found::Flaw(32, Flaw::Size)),
        ((32, 8, 513), Found::Flaw(32, Flaw::Size)),
        ((32, 8, 131_072), Found::Nothing),
        ((32, 8, 131_584), Found::Flaw(32, Flaw::Size)),
        ((48, 2, 0xffff), Found::Nothing),
        ((50, 1, 1), Found::Lack(50, Lack::Compressed)),
    ];
    let write = record_of(&rt, &[(0, 4, 3), (8, 8, 1), (16, 4, 19), (32, 8, 512)]);
    judge(&rt, &write, AT, &table);
}

#[test]
fn judges_a_free_field_by_field(rt: HostRuntime) {
    let table = [
        ((8, 8, 0), Found::Flaw(8, Flaw::Object)),
        ((8, 8, LIMIT), Found::Flaw(8, Flaw::Object)),
        ((16, 8, u64::MAX - 512), Found::Nothing),
        ((16, 8, u64::MAX - 511), Found::Flaw(24, Flaw::Range)),
        ((24, 8, 0), Found::Nothing),
        ((24, 8, u64::MAX - 512), Found::Nothing),
        ((24, 8, u64::MAX - 511), Found::Flaw(24, Flaw::Range)),
        ((24, 8, u64::MAX), Found::Nothing),
    ];
    let free = record_of(&rt, &[(0, 4, 4), (8, 8, 1), (16, 8, 512), (24, 8, 512)]);
    judge(&rt, &free, AT, &table);
}

#[test]
fn judges_a_spill_field_by_field(rt: HostRuntime) {
    let table = [
        ((8, 8, 0), Found::Flaw(8, Flaw::Object)),
        ((8, 8, LIMIT), Found::Flaw(8, Flaw::Object)),
        ((16, 8, 0), Found::Flaw(16, Flaw::Size)),
        ((16, 8, 513), Found::Flaw(16, Flaw::Size)),
        ((16, 8, 131_072), Found::Nothing),
        ((16, 8, 131_584), Found::Flaw(16, Flaw::Size)),
        ((32, 1, 0xff), Found::Nothing),
        ((33, 1, 1), Found::Lack(33, Lack::Compressed)),
    ];
    let spill = record_of(&rt, &[(0, 4, 7), (8, 8, 1), (16, 8, 512)]);
    judge(&rt, &spill, AT, &table);
}

#[test]
fn judges_a_redact_field_by_field(rt: HostRuntime) {
    let table = [
        ((8, 8, 0), Found::Flaw(8, Flaw::Object)),
        ((8, 8, LIMIT), Found::Flaw(8, Flaw::Object)),
        ((16, 8, u64::MAX - 512), Found::Nothing),
        ((16, 8, u64::MAX - 511), Found::Flaw(24, Flaw::Range)),
        ((24, 8, 0), Found::Nothing),
        ((24, 8, u64::MAX - 512), Found::Nothing),
        ((24, 8, u64::MAX), Found::Flaw(24, Flaw::Range)),
    ];
    let redact = record_of(&rt, &[(0, 4, 10), (8, 8, 1), (16, 8, 512), (24, 8, 512)]);
    judge(&rt, &redact, AT, &table);
}

#[test]
fn a_redact_is_refused_in_a_stream_that_is_not_redacted(rt: HostRuntime) {
    let faulty = record_of(&rt, &[(0, 4, 10), (24, 8, u64::MAX)]);
    let fault = StreamFault::Grammar {
        at: AT,
        flaw: Flaw::Redact,
    };
    assert!(rt; decode(&faulty, AT, 0).err() == Some(fault));
}

#[test]
fn of_the_faults_of_an_object_the_first_is_told(rt: HostRuntime) {
    let table = [
        ((36, 4, 1), Found::Lack(36, Lack::Raw)),
        ((34, 1, 2), Found::Lack(34, Lack::LargeDnode)),
        ((28, 4, 321), Found::Flaw(28, Flaw::Bonus)),
        ((24, 4, 513), Found::Flaw(24, Flaw::BlockSize)),
        ((16, 4, 0), Found::Flaw(16, Flaw::ObjectType)),
        ((8, 8, 0), Found::Flaw(8, Flaw::Object)),
    ];
    judge_order(&rt, &object_record(&rt), AT, &table);
}

#[test]
fn of_the_faults_of_a_block_the_first_is_told(rt: HostRuntime) {
    let write_faults = [
        ((50, 1, 1), Found::Lack(50, Lack::Compressed)),
        ((32, 8, 0), Found::Flaw(32, Flaw::Size)),
        ((8, 8, 0), Found::Flaw(8, Flaw::Object)),
    ];
    let write = record_of(&rt, &[(0, 4, 3), (8, 8, 1), (32, 8, 512)]);
    judge_order(&rt, &write, AT, &write_faults);
    let spill_faults = [
        ((33, 1, 1), Found::Lack(33, Lack::Compressed)),
        ((16, 8, 0), Found::Flaw(16, Flaw::Size)),
        ((8, 8, 0), Found::Flaw(8, Flaw::Object)),
    ];
    let spill = record_of(&rt, &[(0, 4, 7), (8, 8, 1), (16, 8, 512)]);
    judge_order(&rt, &spill, AT, &spill_faults);
}
