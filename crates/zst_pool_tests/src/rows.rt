// Directories that are spelled by hand, row by row.
use std::alloc::{AllocError, Global};
use std::test::Fail;
use zst_block::Ptr;
use zst_bytes::{push_text, push_word, push_words};
use zst_dir::Dir;
use zst_tree::{ObjSet, push_ptr, push_set};

// A snapshot's component, guid and number.
pub(crate) type SnapshotFields<'a> = (&'a str, u64, u64);

// Spells numbers one behind another.
pub(crate) fn push_numbers(out: &mut Vec<u8>, numbers: &[u64]) -> Result<(), AllocError> {
    for number in numbers {
        push_word(out, *number)?;
    }
    Ok(())
}

// Spells a file system without objects, with these redaction guids, and how many snapshots stand behind it.
pub(crate) fn push_head(
    out: &mut Vec<u8>,
    (name, origin): (&str, &str),
    redact: &[u64],
    snapshots: u64,
) -> Result<(), AllocError> {
    push_text(out, name.as_bytes())?;
    push_word(out, 2)?;
    push_text(out, origin.as_bytes())?;
    push_set(out, &ObjSet::empty())?;
    push_words(out, redact)?;
    push_word(out, snapshots)
}

// Spells a snapshot without objects: its guid, its time and its number, and its redaction guids.
pub(crate) fn push_snapshot(
    out: &mut Vec<u8>,
    component: &str,
    numbers: [u64; 3],
    redact: &[u64],
) -> Result<(), AllocError> {
    push_text(out, component.as_bytes())?;
    push_numbers(out, &numbers)?;
    push_set(out, &ObjSet::empty())?;
    push_words(out, redact)
}

// Spells a file system, and behind it its snapshots; the redaction guids are its own and theirs.
pub(crate) fn push_dataset(
    out: &mut Vec<u8>,
    names: (&str, &str),
    snapshots: &[SnapshotFields<'_>],
    (own, theirs): (&[u64], &[u64]),
) -> Result<(), AllocError> {
    push_head(out, names, own, snapshots.len() as u64)?;
    for (component, guid, number) in snapshots {
        push_snapshot(out, component, [*guid, 1_700_000_000, *number], theirs)?;
    }
    Ok(())
}

// Spells a bookmark: its guid, its time and its number, its redaction guids, and a list of so many runs.
pub(crate) fn push_bookmark(
    out: &mut Vec<u8>,
    name: &str,
    numbers: [u64; 3],
    redact: &[u64],
    runs: u64,
) -> Result<(), AllocError> {
    push_text(out, name.as_bytes())?;
    push_numbers(out, &numbers)?;
    push_words(out, redact)?;
    push_numbers(out, &[runs, 0])?;
    push_ptr(out, &Ptr::hole(if runs == 0 { 0 } else { 5 }))
}

// What is spelled of a partial state.
#[derive(Drop)]
pub(crate) struct PartialFields<'a> {
    pub(crate) target: &'a str,
    pub(crate) component: &'a str,
    // Whether it is kept, the kind, the flags, the features, the time, and the guids of the snapshot and of its source.
    pub(crate) numbers: [u64; 7],
    pub(crate) name: &'a [u8],
    pub(crate) redact: &'a [u64],
    pub(crate) from_redact: &'a [u64],
    pub(crate) base: &'a str,
    // The object and the offset that it goes on from.
    pub(crate) point: [u64; 2],
}

// Spells a partial state without objects.
pub(crate) fn push_partial(
    out: &mut Vec<u8>,
    fields: &PartialFields<'_>,
) -> Result<(), AllocError> {
    push_text(out, fields.target.as_bytes())?;
    push_text(out, fields.component.as_bytes())?;
    push_numbers(out, &fields.numbers)?;
    push_text(out, fields.name)?;
    push_words(out, fields.redact)?;
    push_words(out, fields.from_redact)?;
    push_text(out, fields.base.as_bytes())?;
    push_set(out, &ObjSet::empty())?;
    push_numbers(out, &fields.point)
}

// The directory that is spelled so.
pub(crate) fn read(alloc: Global, bytes: &[u8]) -> Result<Dir, Fail> {
    match Dir::decode(alloc, bytes)? {
        Some(dir) => Ok(dir),
        None => Err(Fail::new("the bytes are no directory")),
    }
}
