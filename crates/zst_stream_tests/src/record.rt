mod later_records;
mod payload;
mod records;

use crate::fields::header_of;
use crate::record::records::{Found, begin_record, is_found, judge, object_record};
use zst_model::{Flaw, Lack};
use zst_record::{Head, decode, encode, get_sums, put_sums};

const AT: u64 = 624;

const REVERSED_MAGIC: u64 = 0xaccb_baf5_0200_0000;

const LIMIT: u64 = 1 << 48;

#[test]
fn judges_begin_field_by_field(rt: HostRuntime) {
    let table = [
        ((0, 4, 1), Found::Flaw(0, Flaw::RecordType)),
        ((8, 8, REVERSED_MAGIC), Found::Lack(8, Lack::BigEndian)),
        ((8, 8, 0x2_f5ba_cbad), Found::Flaw(8, Flaw::Magic)),
        ((16, 8, 18), Found::Lack(16, Lack::Compound)),
        ((16, 8, 16), Found::Flaw(16, Flaw::HeaderType)),
        ((16, 8, 19), Found::Flaw(16, Flaw::HeaderType)),
        ((32, 4, 3), Found::Nothing),
        ((32, 4, 1), Found::Flaw(32, Flaw::Kind)),
        ((32, 4, 4), Found::Flaw(32, Flaw::Kind)),
        ((36, 4, 0xffff_ffff), Found::Nothing),
        ((40, 8, 0), Found::Flaw(40, Flaw::Guid)),
        ((4, 4, 8), Found::Lack(4, Lack::ForeignPayload)),
        ((4, 4, 32), Found::Lack(4, Lack::ForeignPayload)),
        ((4, 4, 40), Found::Nothing),
        ((4, 4, 44), Found::Lack(4, Lack::ForeignPayload)),
        ((4, 4, 296), Found::Nothing),
        ((4, 4, 304), Found::Lack(4, Lack::ForeignPayload)),
    ];
    judge(&rt, &begin_record(&rt), 0, &table);
}

#[test]
fn a_name_without_an_end_is_refused(rt: HostRuntime) {
    let mut unending = begin_record(&rt);
    unending[56..].copy_from_slice(&[1; 256]);
    assert!(rt; is_found(&unending, 0, &Found::Flaw(56, Flaw::Name)));
}

#[test]
fn refuses_features_by_their_lowest_bit(rt: HostRuntime) {
    let table = [
        ((16, 8, 1), Found::Nothing),
        ((16, 8, 1 + (3 << 3)), Found::Lack(16, Lack::DedupProps)),
        ((16, 8, 1 + (9 << 21)), Found::Lack(16, Lack::Compressed)),
        ((16, 8, 1 + (1 << 22)), Found::Flaw(4, Flaw::Payload)),
        ((16, 8, 1 + (1 << 23)), Found::Flaw(4, Flaw::Payload)),
        ((20, 4, 0xffff_ffff), Found::Nothing),
    ];
    judge(&rt, &begin_record(&rt), 0, &table);
}

#[test]
fn judges_an_object_field_by_field(rt: HostRuntime) {
    let table = [
        ((8, 8, 0), Found::Flaw(8, Flaw::Object)),
        ((8, 8, LIMIT - 1), Found::Nothing),
        ((8, 8, LIMIT), Found::Flaw(8, Flaw::Object)),
        ((16, 4, 0), Found::Flaw(16, Flaw::ObjectType)),
        ((16, 4, 0xffff_ffff), Found::Nothing),
        ((20, 4, 0xffff_ffff), Found::Nothing),
        ((24, 4, 0), Found::Flaw(24, Flaw::BlockSize)),
        ((24, 4, 511), Found::Flaw(24, Flaw::BlockSize)),
        ((24, 4, 513), Found::Flaw(24, Flaw::BlockSize)),
        ((24, 4, 1536), Found::Nothing),
        ((24, 4, 131_072), Found::Nothing),
        ((24, 4, 131_584), Found::Flaw(24, Flaw::BlockSize)),
        ((28, 4, 320), Found::Nothing),
        ((28, 4, 321), Found::Flaw(28, Flaw::Bonus)),
        ((34, 1, 0), Found::Nothing),
        ((34, 1, 2), Found::Lack(34, Lack::LargeDnode)),
        ((36, 4, 1), Found::Lack(36, Lack::Raw)),
        ((36, 4, 1 << 31), Found::Lack(36, Lack::Raw)),
        ((0, 4, 0), Found::Flaw(0, Flaw::SecondBegin)),
        ((0, 4, 2), Found::Nothing),
        ((0, 4, 6), Found::Lack(0, Lack::ByReference)),
        ((0, 4, 8), Found::Lack(0, Lack::Embedded)),
        ((0, 4, 9), Found::Lack(0, Lack::ObjectRange)),
        ((0, 4, 11), Found::Flaw(0, Flaw::RecordType)),
        ((0, 4, 0x105), Found::Flaw(0, Flaw::RecordType)),
    ];
    judge(&rt, &object_record(&rt), AT, &table);
}

#[test]
fn writes_begin(rt: HostRuntime) {
    let head = Head::Begin {
        header: header_of(4, 0),
        payload_len: 0,
    };
    assert_eq!(rt; head.payload_len(), 0);
    let mut record = [0xff; 312];
    encode(&head, &mut record);
    let front = [0, 0, 0, 0, 0, 0, 0, 0, 0xac, 0xcb, 0xba, 0xf5, 2, 0, 0, 0];
    assert!(rt; &record[..16] == front.as_slice());
    assert!(rt; record == begin_record(&rt));
}

// An object with a bonus of 161 bytes.
const OBJECT: Head = Head::Object {
    object: 2,
    type_: 19,
    bonus_type: 44,
    block_size: 131_072,
    bonus_len: 161,
    max_block: 7,
    to: 0x0123_4567_89ab_cdef,
};

#[test]
fn writes_an_object(rt: HostRuntime) {
    assert_eq!(rt; OBJECT.payload_len(), 168);
    let mut record = [0xff; 312];
    encode(&OBJECT, &mut record);
    let mut want = [0; 312];
    want[..64].copy_from_slice(&[
        1, 0, 0, 0, 0, 0, 0, 0, 2, 0, 0, 0, 0, 0, 0, 0, 19, 0, 0, 0, 44, 0, 0, 0, 0, 0, 2, 0, 161,
        0, 0, 0, 0, 0, 1, 0, 0, 0, 0, 0, 0xef, 0xcd, 0xab, 0x89, 0x67, 0x45, 0x23, 1, 0, 0, 0, 0,
        0, 0, 0, 0, 7, 0, 0, 0, 0, 0, 0, 0,
    ]);
    assert!(rt; record == want);
}

#[test]
fn an_object_is_read_beside_its_sums(rt: HostRuntime) {
    let mut record = [0xff; 312];
    encode(&OBJECT, &mut record);
    put_sums(&mut record, 280, &[1, 2, 3, 1 << 63]);
    assert!(rt; get_sums(&record, 280) == [1, 2, 3, 1 << 63]);
    let read = decode(&record, AT, 0).is_ok_and(|head| match head {
        Head::Object { bonus_len, .. } => bonus_len == 161,
        _ => false,
    });
    assert!(rt; read);
}
