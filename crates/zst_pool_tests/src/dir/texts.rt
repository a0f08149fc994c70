// The bytes of directories, row by row.
use crate::rows::{
    PartialFields, SnapshotFields, push_bookmark, push_dataset, push_numbers, push_partial,
};
use std::alloc::{AllocError, Global};
use zst_bytes::push_word;
use zst_dir::Dir;

// Spells a dataset with redaction guids, whose snapshots have some too.
fn push_redacted(
    out: &mut Vec<u8>,
    names: (&str, &str),
    snapshots: &[SnapshotFields<'_>],
) -> Result<(), AllocError> {
    push_dataset(out, names, snapshots, (&[7], &[3, u64::MAX]))
}

// Spells a partial state: its features, the source's guid, and both sets of guids are given.
fn push_received(
    out: &mut Vec<u8>,
    (target, component, base): (&str, &str, &str),
    (features, from): (u64, u64),
    (redact, from_redact): (&[u64], &[u64]),
) -> Result<(), AllocError> {
    let fields = PartialFields {
        target,
        component,
        numbers: [1, 3, 0x4, features, 1_700_000_001, 101, from],
        name: b"a/b@\xff",
        redact,
        from_redact,
        base,
        point: [1 << 47, 4096],
    };
    push_partial(out, &fields)
}

// Two datasets, the second a clone, with three snapshots, a bookmark of one run and a partial state.
pub(super) fn sample(alloc: Global) -> Result<Vec<u8>, AllocError> {
    let mut out = Vec::new(alloc);
    push_word(&mut out, 2)?;
    push_redacted(&mut out, ("t", ""), &[("b", 100, 1), ("a", 100, 2)])?;
    push_redacted(&mut out, ("t/c", "t@b"), &[("a", 100, 2)])?;
    push_word(&mut out, 1)?;
    push_bookmark(&mut out, "t#b", [100, 1_700_000_000, 1], &[3, 4], 1)?;
    push_word(&mut out, 1)?;
    push_received(&mut out, ("t", "c", "t@a"), (0x14, 100), (&[], &[9]))?;
    Ok(out)
}

// A dataset and its origin, and another with a snapshot, without bookmarks and partial states.
pub(super) fn two_datasets(
    alloc: Global,
    first: (&str, &str),
    snapshots: &[SnapshotFields<'_>],
    second: &str,
) -> Result<Vec<u8>, AllocError> {
    let mut out = Vec::new(alloc);
    push_word(&mut out, 2)?;
    push_redacted(&mut out, first, snapshots)?;
    push_redacted(&mut out, (second, ""), &[("a", 100, 1)])?;
    push_numbers(&mut out, &[0, 0])?;
    Ok(out)
}

// A dataset with two snapshots.
pub(super) fn two_snapshots(
    alloc: Global,
    first: (&str, u64),
    second: (&str, u64),
) -> Result<Vec<u8>, AllocError> {
    let mut out = Vec::new(alloc);
    push_word(&mut out, 1)?;
    let snapshots = [(first.0, 100, first.1), (second.0, 100, second.1)];
    push_redacted(&mut out, ("a", ""), &snapshots)?;
    push_numbers(&mut out, &[0, 0])?;
    Ok(out)
}

// A dataset with a snapshot, and a partial state of it with this component and base.
pub(super) fn over_base(alloc: Global, component: &str, base: &str) -> Result<Vec<u8>, AllocError> {
    let mut out = Vec::new(alloc);
    push_word(&mut out, 1)?;
    push_redacted(&mut out, ("t", ""), &[("a", 100, 1)])?;
    push_numbers(&mut out, &[0, 1])?;
    push_received(&mut out, ("t", component, base), (0x14, 100), (&[], &[9]))?;
    Ok(out)
}

pub(super) fn is_dir(alloc: Global, bytes: &[u8]) -> Result<bool, AllocError> {
    Ok(Dir::decode(alloc, bytes)?.is_some())
}

// The sample's bytes with another number in the word at a place, counted in words.
pub(super) fn sample_with(alloc: Global, place: usize, number: u64) -> Result<Vec<u8>, AllocError> {
    let word = number.to_le_bytes();
    sample(alloc)?
        .iter()
        .enumerate()
        .map(|(at, byte)| if at / 8 == place { word[at % 8] } else { *byte })
        .collect(alloc)
}

// A partial state alone, of a full or incremental stream.
pub(super) fn receiving(
    alloc: Global,
    fields: (u64, u64),
    guids: (&[u64], &[u64]),
) -> Result<Vec<u8>, AllocError> {
    let mut out = Vec::new(alloc);
    push_numbers(&mut out, &[0, 0, 1])?;
    push_received(&mut out, ("t", "c", ""), fields, guids)?;
    Ok(out)
}
