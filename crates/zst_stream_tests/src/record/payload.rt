use crate::fields::header_of;
use zst_model::Point;
use zst_record::{begin_payload, put_begin_payload};

/// Resumed at byte 512 of object 5, for one redaction guid, from a source with two.
const PAYLOAD: &[u8; 64] = b"ZSTBEG01\
    \x05\0\0\0\0\0\0\0\0\x02\0\0\0\0\0\0\
    \x01\0\0\0\0\0\0\0\x02\0\0\0\0\0\0\0\
    \x07\0\0\0\0\0\0\0\x03\0\0\0\0\0\0\0\x04\0\0\0\0\0\0\0";

const BOTH: u32 = 3 << 20;

#[test]
fn reads_a_payload_and_writes_it_again(rt: HostRuntime) {
    let Ok(read) = begin_payload(PAYLOAD, header_of(BOTH, 9)) else {
        panic!(&rt; "refused")
    };
    let point = Point {
        object: 5,
        offset: 512,
    };
    assert!(rt; read.resume == Some(point));
    assert!(rt; read.redact.as_slice() == [7].as_slice());
    assert!(rt; read.from_redact.as_slice() == [3, 4].as_slice());
    assert!(rt; read.features == BOTH && read.from == 9);
    let mut into = [0xee; 296];
    assert_eq!(rt; put_begin_payload(&read, &mut into), 64);
    assert!(rt; into.starts_with(PAYLOAD));
    assert!(rt; into[64] == 0xee && into[295] == 0xee);
}
