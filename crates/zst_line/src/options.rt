//! The options of lines.
ghost use Rattle.std.specs.Prelude.{◌≡◌, map, string_bytes};
ghost use Rattle.zst_line.specs.Grammar.{option_of, stands_in, option_at, value_of, goes_on};

use crate::kind::Kind;
use crate::name_kinds::Names;
use crate::table::{BOOKMARK, SNAPSHOT, SNAPSHOT_OR_BOOKMARK};
use crate::word_slot::WordSlot;

/// What an option takes.
#[derive(Clone, Copy)]
pub enum OptionValue {
    Nothing,
    /// A name of one of these kinds, which is the next word.
    NameOf(Names),
}

impl OptionValue {
    /// The place of its value.
    pub fn value(self) -> Option<WordSlot>
        ensures { result ≡ value_of self }
    {
        match self {
            OptionValue::Nothing => None,
            OptionValue::NameOf(names) => Some(WordSlot::Name(names)),
        }
    }
}

/// What the option of a line takes that a word is.
fn option_of(kind: Kind, word: &str) -> Option<OptionValue>
    ensures { result ≡ option_of kind word.now }
{
    match (kind, word) {
        (Kind::Rollback, "-r") => Some(OptionValue::Nothing),
        (Kind::Send, "-i") => Some(OptionValue::NameOf(SNAPSHOT_OR_BOOKMARK)),
        (Kind::Send, "--redact") => Some(OptionValue::NameOf(BOOKMARK)),
        (Kind::Receive, "-s" | "-F") => Some(OptionValue::Nothing),
        (Kind::Receive, "--origin") => Some(OptionValue::NameOf(SNAPSHOT)),
        _ => None,
    }
}

/// Whether a word stands among these.
pub fn stands_in(words: &[String], word: &str) -> bool
    ensures { result ≡ stands_in (map string_bytes words.now) word.now }
{
    for other in words {
        if other.as_str() == word {
            return true;
        }
    }
    false
}

/// What the option takes that the word at an index is, unless it stands among those before. There may be no such word.
pub fn option_at(kind: Kind, words: &[String], index: usize) -> Option<OptionValue>
    ensures { result ≡ option_at kind (map string_bytes words.now) index }
{
    let word = words.get(index)?.as_str();
    let taking = option_of(kind, word)?;
    if stands_in(&words[..index], word) {
        return None;
    }
    Some(taking)
}

/// Whether a stream goes on from a token: `-t` stands directly behind `send`.
pub fn goes_on(kind: Kind, words: &[String]) -> bool
    ensures { result ≡ goes_on kind (map string_bytes words.now) }
{
    match (kind, words) {
        (Kind::Send, [first, ..]) => first.as_str() == "-t",
        _ => false,
    }
}
