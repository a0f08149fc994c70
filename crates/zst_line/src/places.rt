//! The places of a line's words, and the first word that can't stand at its own.
ghost use Rattle.std.specs.Prelude.{◌≡◌, ◌↔◌, ◌+◌, ◌≤◌, ◌<◌, ◌++◌, length, map, string_bytes, IsTrue, IfOk, IfSome, MatchOption};
ghost use Rattle.std.specs.List.{AllZip};
ghost use Rattle.zst_line.specs.Grammar.{last_snapshots, option_places, places_of, word_at};
ghost use Rattle.zst_line.specs.WordFaults.{Fits, IsReadAt, Stops, FirstMisread};

use crate::kind::Kind;
use crate::line::LineFault;
use crate::options::{OptionValue, goes_on, option_at};
use crate::table::{LAST_SNAPSHOT, RESUME, front};
use crate::word_slot::{WordSlot, fits, misread};
use std::alloc::{AllocError, Global};

/// The most snapshots at the end of `redact`.
const MOST_SNAPSHOTS: usize = 16;

/// How many snapshots stand at the end of a line of which so many named words stand.
fn last_snapshots(kind: Kind, count: usize) -> usize
    ensures count { result ≡ last_snapshots kind count }
    ensures most { result ≤ 16 }
{
    match kind {
        Kind::Redact => count.saturating_sub(3).min(MOST_SNAPSHOTS).max(1),
        _ => 0,
    }
}

/// Puts the places of an option behind those before.
fn push_option(places: &mut Vec<WordSlot>, taking: OptionValue) -> Result<(), AllocError>
    ensures { IfOk result (λ done. places.new.items ≡ places.old.items ++ option_places taking) }
{
    places.push(WordSlot::Given)?;
    if let Some(value) = taking.value() {
        places.push(value)?;
    }
    Ok(())
}

/// The places of words: options in any order, then the named words.
pub fn places(alloc: Global, kind: Kind, words: &[String]) -> Result<Vec<WordSlot>, AllocError>
    ensures { IfOk result (λ places. places.items ≡ places_of kind (map string_bytes words.now)) }
{
    let mut places = Vec::new(alloc);
    if goes_on(kind, words) {
        places.extend_from_slice(&RESUME)?;
        return Ok(places);
    }
    while let Some(taking) = option_at(kind, words, places.len()) {
        push_option(&mut places, taking)?;
    }
    let count = words.len().saturating_sub(places.len());
    places.extend_from_slice(front(kind, count))?;
    let end = places.len() + last_snapshots(kind, count);
    places.resize(end, LAST_SNAPSHOT)?;
    Ok(places)
}

/// Whether there is a word at an index, and it fits this place.
fn fits_at(slot: WordSlot, words: &[String], index: usize) -> bool
    ensures { IsTrue result ↔ ((index < length words.now) × Fits slot (word_at (map string_bytes words.now) index)) }
{
    index < words.len() && fits(slot, words[index].as_str())
}

/// The index of the first word that can't stand at its place, or the count of words where one is missing.
pub fn first_misplaced(slots: &[WordSlot], words: &[String]) -> Option<usize>
    ensures place { MatchOption result
        (AllZip Fits slots.now (map string_bytes words.now))
        (λ index. Stops 1 slots.now (map string_bytes words.now) (index + 1)) }
    ensures within { IfSome result (λ index. index ≤ length slots.now) }
{
    for (index, slot) in slots.iter().enumerate() {
        if !fits_at(*slot, words, index) {
            return Some(index);
        }
    }
    if words.len() > slots.len() {
        return Some(slots.len());
    }
    None
}

/// The fault of the first word that has to be a name or a token and is none.
pub fn first_misread(slots: &[WordSlot], words: &[String]) -> Option<LineFault>
    requires { length words.now ≡ length slots.now }
    ensures { MatchOption result
        (AllZip IsReadAt slots.now (map string_bytes words.now))
        (λ fault. FirstMisread slots.now (map string_bytes words.now) fault) }
{
    for (index, slot) in slots.iter().enumerate() {
        if let Some(fault) = misread(*slot, words[index].as_str()) {
            return Some(fault);
        }
    }
    None
}
