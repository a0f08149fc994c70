// Payloads of BEGIN, and what is handed out behind them.
use std::process::Abort;
use zst_model::Point;
use zst_reader::{Reader, Step};
use zst_record::Head;

/// Resumed at byte 512 of object 1.
pub(super) const PAYLOAD: &[u8; 40] = b"ZSTBEG01\
    \x01\0\0\0\0\0\0\0\0\x02\0\0\0\0\0\0\
    \0\0\0\0\0\0\0\0\0\0\0\0\0\0\0\0";

/// Redacted for the guid 7.
pub(super) const REDACTED_PAYLOAD: &[u8; 48] = b"ZSTBEG01\
    \0\0\0\0\0\0\0\0\0\0\0\0\0\0\0\0\
    \x01\0\0\0\0\0\0\0\0\0\0\0\0\0\0\0\
    \x07\0\0\0\0\0\0\0";

/// From a source that is redacted for the guids 3 and 4.
pub(super) const SOURCE_PAYLOAD: &[u8; 56] = b"ZSTBEG01\
    \0\0\0\0\0\0\0\0\0\0\0\0\0\0\0\0\
    \0\0\0\0\0\0\0\0\x02\0\0\0\0\0\0\0\
    \x03\0\0\0\0\0\0\0\x04\0\0\0\0\0\0\0";

/// Neither resumed nor redacted, nor from what is.
pub(super) const EMPTY_PAYLOAD: &[u8; 40] = b"ZSTBEG01\
    \0\0\0\0\0\0\0\0\0\0\0\0\0\0\0\0\
    \0\0\0\0\0\0\0\0\0\0\0\0\0\0\0\0";

/// How many records it hands out, where BEGIN says this point.
pub(super) fn hand_out_resumed(rt: &impl Abort, reader: &mut Reader, point: Point) -> u64 {
    for turn in 0..4 {
        match reader.next() {
            Ok(Step::Record(record)) => {
                if let Head::Begin { header, .. } = record.head {
                    assert!(rt; record.at == 0 && record.payload == PAYLOAD.as_slice());
                    assert!(rt; header.resume == Some(point) && header.features == 4 + (1 << 20));
                }
            }
            Ok(_) => return turn,
            Err(_) => panic!(rt; "a fault"),
        }
    }
    4
}

/// How many records it hands out, where BEGIN is redacted for the guid 7 and a block behind it is.
pub(super) fn hand_out_redacted(rt: &impl Abort, reader: &mut Reader) -> u64 {
    for turn in 0..4 {
        match reader.next() {
            Ok(Step::Record(record)) => match record.head {
                Head::Begin { header, .. } => {
                    assert!(rt; record.at == 0 && record.payload == REDACTED_PAYLOAD.as_slice());
                    assert!(rt; header.resume.is_none() && header.features == 4 + (1 << 21));
                    assert!(rt; header.redact.as_slice() == [7].as_slice());
                    assert!(rt; header.from_redact.as_slice().is_empty());
                }
                Head::Redact {
                    object,
                    offset,
                    length,
                    ..
                } => {
                    assert!(rt; record.at == 360 && record.payload.is_empty());
                    assert!(rt; *object == 1 && *offset == 512 && *length == 512);
                }
                _ => assert!(rt; record.at == 672),
            },
            Ok(_) => return turn,
            Err(_) => panic!(rt; "a fault"),
        }
    }
    4
}

/// Checks what BEGIN says of the redaction of its source.
pub(super) fn check_source(rt: &impl Abort, reader: &mut Reader, from: u64, guids: &[u64]) {
    match reader.next() {
        Ok(Step::Record(record)) => match record.head {
            Head::Begin { header, .. } => {
                assert!(rt; header.features == 4 && header.from == from);
                assert!(rt; header.resume.is_none() && header.redact.as_slice().is_empty());
                assert!(rt; header.from_redact.as_slice() == guids);
            }
            _ => panic!(rt; "no BEGIN"),
        },
        _ => panic!(rt; "no record"),
    }
}
