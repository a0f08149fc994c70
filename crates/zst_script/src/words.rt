//! The words of a line, and what single ones say.
ghost use Rattle.std.specs.Prelude.{◌≡◌, ◌≢◌, ◌<◌, length, map, string_bytes, IfOk, MatchOption};
ghost use Rattle.zst_names.specs.Names.{IsDataset};
ghost use Rattle.zst_script.specs.EventWords.{BeginWith, Spells, TakesId, most_words, verb_word};
ghost use Rattle.zst_script.specs.Lines.{IsCount, IsId, word_for, words_of};
ghost use Rattle.zst_script.specs.declared.event.Side.{Side};
ghost use Rattle.zst_script.specs.declared.words.Verb.{Verb};

use crate::event::Side;
use std::alloc::{AllocError, Global};
use zst_bytes::decimal;
use zst_names::DatasetName;

/// The most bytes that are taken at once.
const MOST_BYTES: u64 = 1 << 20;

/// The most words that are kept of a line. No event has as many: a redaction to sixteen snapshots has 20.
const MOST_WORDS: usize = 32;

/// What stands behind the word for a pool where no command does.
#[derive(Clone, Copy)]
pub enum Verb {
    Send,
    Receive,
    Resume,
    Reopen,
}

/// The words of a text, which single blanks part; none where they are more than any event has.
pub fn words_of(alloc: Global, text: &str) -> Result<Option<Vec<String>>, AllocError>
    ensures { IfOk result (λ kept. MatchOption kept
        (most_words < length (words_of text.now))
        (λ words. map string_bytes words.items ≡ words_of text.now)) }
{
    let mut words = Vec::new(alloc);
    for word in text.split(' ') {
        if words.len() == MOST_WORDS {
            return Ok(None);
        }
        words.push(String::from_str(alloc, word)?)?;
    }
    Ok(Some(words))
}

/// The pool that a word stands for.
pub fn side_of(word: &str) -> Option<Side>
    ensures { MatchOption result ((side : Side) → word.now ≢ word_for side) (λ side. word.now ≡ word_for side) }
{
    match word {
        "here" => Some(Side::Here),
        "there" => Some(Side::There),
        _ => None,
    }
}

/// The verb that a word is.
fn verb_of(word: &str) -> Option<Verb>
    ensures { MatchOption result ((verb : Verb) → word.now ≢ verb_word verb) (λ verb. word.now ≡ verb_word verb) }
{
    match word {
        "send" => Some(Verb::Send),
        "receive" => Some(Verb::Receive),
        "resume" => Some(Verb::Resume),
        "reopen" => Some(Verb::Reopen),
        _ => None,
    }
}

/// The verb that words begin with.
pub fn first_verb(words: &[String]) -> Option<Verb>
    ensures { MatchOption result
        ((verb : Verb) → ¬ (BeginWith (verb_word verb) (map string_bytes words.now)))
        (λ verb. BeginWith (verb_word verb) (map string_bytes words.now)) }
{
    match words {
        [first, ..] => verb_of(first.as_str()),
        [] => None,
    }
}

/// The id of a session that a word spells.
pub fn id_of(word: &str) -> Option<u32>
    ensures { Spells IsId word.now result }
{
    let id = decimal(word)?;
    if id > u64::from(u32::MAX) {
        return None;
    }
    Some(id as u32)
}

/// The count of bytes that a word spells.
pub fn count_of(word: &str) -> Option<u32>
    ensures { Spells IsCount word.now result }
{
    let count = decimal(word)?;
    if count == 0 || count > MOST_BYTES {
        return None;
    }
    Some(count as u32)
}

/// The dataset that a word names.
pub fn dataset_of(word: &str) -> Option<DatasetName>
    ensures { MatchOption result (¬ (IsDataset word.now)) (λ name. (name ≡ word.now) × IsDataset word.now) }
{
    DatasetName::parse(word).ok()
}

/// Takes the id of a session out that stands behind a verb.
pub fn take_id(words: &mut Vec<String>) -> Option<u32>
    ensures { TakesId (map string_bytes words.old.items) (map string_bytes words.new.items) result }
{
    if words.len() < 2 {
        return None;
    }
    let id = id_of(words[1].as_str())?;
    words.remove(1);
    Some(id)
}
