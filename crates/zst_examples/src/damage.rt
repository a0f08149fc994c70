// The words for what came of a line on an image with a byte turned.

use crate::calls::Answer;
use crate::records::{Sums, sums_at, sums_of};
use std::alloc::{AllocError, Global};
use std::str;

/// The bytes of a sector.
const SECTOR: usize = 512;

/// The bytes of a body that its sums cover; they stand behind these.
const BODY: usize = 480;

/// The bytes of a small block, and of a leaf or a node of a tree.
const BLOCKS: [usize; 2] = [512, 8192];

/// The sector that a note on damage tells.
fn sector_of(note: &str) -> Option<usize> {
    let rest = note.strip_prefix("zst: E25 damaged at sector ")?;
    let (sector, _) = rest.split_once(':')?;
    sector.parse::<usize>().ok()
}

/// The note that a sector has other sums than are stated.
fn damage_note(
    alloc: Global,
    sector: usize,
    stated: Sums,
    found: Sums,
) -> Result<String, AllocError> {
    format!(in alloc; "zst: E25 damaged at sector {sector}: stated {stated}, found {found}")
}

/// Whether a note tells, of a body or of a block that begins at this sector, the sums that were right before the byte was turned, or
/// that stand in the body, and those of the bytes that are there.
fn has_sums(
    alloc: Global,
    note: &str,
    sector: usize,
    image: &[u8],
    turned: &[u8],
) -> Result<bool, AllocError> {
    let begin = sector.saturating_mul(SECTOR);
    let end = begin.saturating_add(BODY);
    let body = damage_note(
        alloc,
        sector,
        sums_at(turned, end),
        sums_of(turned, begin, end),
    )?;
    let mut holds = note == body.as_str();
    for length in BLOCKS {
        let end = begin.saturating_add(length);
        let (stated, found) = (sums_of(image, begin, end), sums_of(turned, begin, end));
        holds = holds || note == damage_note(alloc, sector, stated, found)?.as_str();
    }
    Ok(holds)
}

/// A note in one line, in which the sums of a damaged sector stand as words.
fn note_of(alloc: Global, note: &str, image: &[u8], turned: &[u8]) -> Result<String, AllocError> {
    let note = note.trim_end();
    match sector_of(note) {
        Some(sector) if has_sums(alloc, note, sector, image, turned)? => {
            format!(in alloc; "zst: E25 damaged at sector {sector}, with both sums")
        }
        _ => String::from_str(alloc, note),
    }
}

/// What came of a line on an image with a byte turned: that it is done, what it answers in place of that, or its refusal; and that a
/// line which was refused wrote.
pub(crate) fn damage_label(
    alloc: Global,
    whole: &Answer,
    found: &Answer,
    image: &[u8],
    turned: &[u8],
) -> Result<String, AllocError> {
    if found.status == whole.status && found.out == whole.out && found.note == whole.note {
        return String::from_str(alloc, "done");
    }
    if found.status == 0 {
        let text = str::from_utf8(&found.out).unwrap_or("").trim_end();
        let told = if text.contains("\n") {
            "other lines"
        } else {
            text
        };
        return String::from_str(alloc, told);
    }
    let mut label = note_of(alloc, found.note(), image, turned)?;
    label.push_str(format!(in alloc; " (status {})", found.status)?.as_str())?;
    if found.here.wrote() {
        label.push_str(", behind a write")?;
    }
    Ok(label)
}
