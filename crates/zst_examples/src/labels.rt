// The words for what came of a line that was tried otherwise.

use crate::calls::{Answer, Line};
use crate::records::{sums_at, sums_of};
use std::alloc::{AllocError, Global};

/// What came of a line, by what came of it where nothing was done to it.
pub(crate) fn label_of(
    alloc: Global,
    whole: &Answer,
    found: &Answer,
    number: u64,
    line: &Line,
) -> Result<String, AllocError> {
    if found.status == whole.status && found.out == whole.out && found.note == whole.note {
        return String::from_str(alloc, "done");
    }
    let mut label = note_of(alloc, found.note(), number, &line.input)?;
    if found.status > 0 {
        label.push_str(format!(in alloc; " (status {})", found.status)?.as_str())?;
    }
    if !found.out.is_empty() {
        label.push_str(front_of(alloc, &whole.out, &found.out, number, line.pieces.1)?.as_str())?;
    }
    Ok(label)
}

/// How what was written compares with the whole: all that went before the write of this number, so many lines or another front of
/// it, or other bytes.
fn front_of(
    alloc: Global,
    whole: &[u8],
    found: &[u8],
    number: u64,
    room: usize,
) -> Result<String, AllocError> {
    let taken = usize::try_from(number)
        .unwrap_or(usize::MAX)
        .saturating_mul(room);
    if !whole.starts_with(found) {
        String::from_str(alloc, " behind other bytes")
    } else if found.len() == taken {
        String::from_str(alloc, " behind what was written")
    } else if found.last() == Some(&b'\n') {
        let lines = found.iter().filter(|byte| **byte == b'\n').count();
        format!(in alloc; " behind {lines} lines")
    } else {
        String::from_str(alloc, " behind a front")
    }
}

/// A note in one line, in which the number of the try and the sums of its input stand as words.
fn note_of(alloc: Global, note: &str, number: u64, input: &[u8]) -> Result<String, AllocError> {
    let note = note.trim_end();
    if note == format!(in alloc; "zst: E20 truncated at {number}")?.as_str() {
        return String::from_str(alloc, "zst: E20 truncated there");
    }
    match place_of(note) {
        Some(place) if has_sums(alloc, note, place, input)? => {
            format!(in alloc; "zst: E18 checksum at {place}, with both sums")
        }
        _ => String::from_str(alloc, note),
    }
}

/// The place that a note on a checksum tells.
fn place_of(note: &str) -> Option<usize> {
    let rest = note.strip_prefix("zst: E18 checksum at ")?;
    let (place, _) = rest.split_once(':')?;
    place.parse::<usize>().ok()
}

/// Whether a note tells the sums that stand at the place, and those of all that stands before the place or before its record.
fn has_sums(alloc: Global, note: &str, place: usize, input: &[u8]) -> Result<bool, AllocError> {
    let own = sums_note(alloc, input, place, place)?;
    let sealed = sums_note(alloc, input, place, place.saturating_sub(8))?;
    Ok(note == own.as_str() || note == sealed.as_str())
}

fn sums_note(
    alloc: Global,
    input: &[u8],
    place: usize,
    before: usize,
) -> Result<String, AllocError> {
    let (stated, found) = (sums_at(input, place), sums_of(input, 0, before));
    format!(in alloc; "zst: E18 checksum at {place}: stated {stated}, found {found}")
}
