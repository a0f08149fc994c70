mod decoding;
mod directories;
mod texts;

use crate::dir::directories::{add_dataset, add_snapshot, bytes_of};
use std::test::Fail;
use zst_dir::Dir;

// The words of the directory.
const WORDS: [u64; 35] = [
    // One dataset: its name of 6 bytes with padding, its kind, and no origin.
    1,
    6,
    0x0000_612f_6c6f_6f70,
    2,
    0,
    // Its head: levels, past, and the 64 bytes of a hole. No redaction guids.
    0,
    0,
    0,
    0,
    0,
    0,
    0,
    0,
    0,
    0,
    0,
    // One snapshot: its component, its guid, its time and its number.
    1,
    1,
    0x73,
    0x0102,
    8,
    9,
    // Its objects and no redaction guids.
    0,
    0,
    0,
    0,
    0,
    0,
    0,
    0,
    0,
    0,
    0,
    // No bookmarks and no partial states.
    0,
    0,
];

#[test]
fn a_snapshot_is_spelled_behind_its_dataset_by_its_component(rt: HostRuntime) -> Result<(), Fail> {
    let mut dir = Dir::new(rt.alloc());
    add_dataset(&mut dir, "pool/a")?;
    add_snapshot(&mut dir, "pool/a@s", 0x0102, 9)?;
    let bytes = dir.encode(rt.alloc())?;
    assert!(rt; bytes.as_slice() == bytes_of(rt.alloc(), &WORDS)?.as_slice());
    Ok(())
}
