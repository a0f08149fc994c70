// The bytes of a directory with redactions, row by row, and its list.
use crate::rows::{push_bookmark, push_head, push_snapshot, read};
use std::alloc::{AllocError, Global};
use std::test::Fail;
use zst_bytes::push_word;
use zst_listing::list_rows;
use zst_model::Reply;

// A file system with a redacted snapshot, and a redaction bookmark of four runs.
fn sample(alloc: Global) -> Result<Vec<u8>, AllocError> {
    let mut out = Vec::new(alloc);
    push_word(&mut out, 1)?;
    push_head(&mut out, ("a", ""), &[], 1)?;
    push_snapshot(&mut out, "r", [u64::MAX, 1_700_000_005, 9], &[7, 8])?;
    push_word(&mut out, 1)?;
    push_bookmark(&mut out, "a#m", [0x1f, 1_700_000_000, 3], &[3, 4, 5], 4)?;
    push_word(&mut out, 0)?;
    Ok(out)
}

pub(super) fn listed(alloc: Global) -> Result<Reply, Fail> {
    let dir = read(alloc, sample(alloc)?.as_slice())?;
    Ok(list_rows(alloc, &dir)?)
}
