// Records, field by field, and what they are judged as.
use crate::fields::{Field, GUID, set, set_all};
use std::process::Abort;
use zst_model::{Flaw, Lack, StreamFault};
use zst_record::decode;

/// What is found in a record: nothing, or a flaw or a lack at a place of it.
#[derive(Drop)]
pub(super) enum Found {
    Nothing,
    Flaw(u64, Flaw),
    Lack(u64, Lack),
}

// REDACTED, bit 21 of the features: without it every REDACT is refused.
const FEATURES: u32 = 1 << 21;

/// What is judged of a record that begins there, in a redacted stream.
pub(super) fn fault_of(record: &[u8; 312], at: u64) -> Option<StreamFault> {
    if at > 1 << 62 {
        return None;
    }
    decode(record, at, FEATURES).err()
}

/// Whether a record that begins there is judged so.
pub(super) fn is_found(record: &[u8; 312], at: u64, want: &Found) -> bool {
    let fault = fault_of(record, at);
    match want {
        Found::Nothing => fault.is_none(),
        Found::Flaw(place, flaw) => {
            fault
                == Some(StreamFault::Grammar {
                    at: at.saturating_add(*place),
                    flaw: *flaw,
                })
        }
        Found::Lack(place, lack) => {
            fault
                == Some(StreamFault::Unsupported {
                    at: at.saturating_add(*place),
                    lack: *lack,
                })
        }
    }
}

/// Sets one field after the other in a record that passes, and compares what is found.
pub(super) fn judge(rt: &impl Abort, good: &[u8; 312], at: u64, table: &[(Field, Found)]) {
    assert!(rt; fault_of(good, at).is_none());
    for (field, want) in table {
        let mut record = *good;
        set(rt, &mut record, field);
        assert!(rt; is_found(&record, at, want), "{field:?}");
    }
}

/// Breaks one field after the other in a record that passes, those that are checked last first: what is found is always the
/// fault that is checked first.
pub(super) fn judge_order(rt: &impl Abort, good: &[u8; 312], at: u64, table: &[(Field, Found)]) {
    let mut record = *good;
    for (field, want) in table {
        set(rt, &mut record, field);
        assert!(rt; is_found(&record, at, want), "{field:?}");
    }
}

/// A record of these fields.
pub(super) fn record_of(rt: &impl Abort, fields: &[Field]) -> [u8; 312] {
    let mut record = [0; 312];
    set_all(rt, &mut record, fields);
    record
}

pub(super) fn object_record(rt: &impl Abort) -> [u8; 312] {
    let fields = [(0, 4, 1), (8, 8, 1), (16, 4, 19), (24, 4, 512), (34, 1, 1)];
    record_of(rt, &fields)
}

/// BEGIN of the smallest stream.
pub(super) fn begin_record(rt: &impl Abort) -> [u8; 312] {
    let fields = [
        (8, 8, 0x2_f5ba_cbac),
        (16, 8, 17),
        (24, 8, 1_700_000_000),
        (32, 4, 2),
        (36, 4, 12),
        (40, 8, GUID),
        (56, 5, 0x73_4061_2f74),
    ];
    record_of(rt, &fields)
}
