// Fields of records, as the tables of zfs_ioctl.h place them, and the header of the smallest stream.
use std::process::Abort;
use zst_model::{GuidSet, Header, NameText};

/// The guid of its snapshot.
pub(crate) const GUID: u64 = 0x1_0000_0001;

/// A place, a width in bytes, and a number.
pub(crate) type Field = (usize, usize, u64);

/// Writes a number of so many bytes.
pub(crate) fn set(rt: &impl Abort, bytes: &mut [u8], field: &Field) {
    let (place, width, number) = *field;
    assert!(rt; bytes.len() >= 312 && place <= bytes.len() - 8 && width <= 8);
    bytes[place..place + width].copy_from_slice(&number.to_le_bytes()[..width]);
}

/// Writes numbers, each at its place.
pub(crate) fn set_all(rt: &impl Abort, bytes: &mut [u8], fields: &[Field]) {
    for field in fields {
        set(rt, bytes, field);
    }
}

/// What BEGIN's 312 bytes say of the smallest stream, with these features and from this guid.
pub(crate) fn header_of(features: u32, from: u64) -> Header {
    Header {
        kind: 2,
        flags: 12,
        features,
        time: 1_700_000_000,
        to: GUID,
        from,
        name: NameText::new(b"t/a@s"),
        resume: None,
        redact: GuidSet::empty(),
        from_redact: GuidSet::empty(),
    }
}
