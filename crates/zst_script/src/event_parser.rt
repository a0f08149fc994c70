//! The event that a line says.
ghost use Rattle.std.specs.Prelude.{◌≡◌, ◌∷◌, map, string_bytes, IfOk};
ghost use Rattle.zst_script.specs.EventWords.{WordsSay};
ghost use Rattle.zst_script.specs.Lines.{word_for, words_of};
ghost use Rattle.zst_script.specs.Scripts.{SaysOf};

use crate::LONGEST_LINE;
use crate::event::{Event, Side};
use crate::pool_lines::{command_event, receive_event, send_event};
use crate::session_lines::{reopen_event, resume_event, session_event};
use crate::words::{Verb, first_verb, side_of, words_of};
use std::alloc::{AllocError, Global};

/// The event of a line on a pool: these words stand behind the word for it, which is its image's too.
fn pool_event(
    alloc: Global,
    side: Side,
    image: String,
    words: Vec<String>,
) -> Result<Option<Event>, AllocError>
    requires { string_bytes image ≡ word_for side }
    ensures { IfOk result (WordsSay (word_for side ∷ map string_bytes words.items)) }
{
    match first_verb(words.as_slice()) {
        Some(Verb::Send) => send_event(alloc, side, image, words),
        Some(Verb::Receive) => receive_event(alloc, side, image, words),
        Some(Verb::Resume) => Ok(resume_event(side, words.as_slice())),
        Some(Verb::Reopen) => Ok(reopen_event(side, words.as_slice())),
        None => command_event(alloc, side, image, words),
    }
}

/// The event that words are.
fn event_of_words(alloc: Global, mut words: Vec<String>) -> Result<Option<Event>, AllocError>
    ensures { IfOk result (WordsSay (map string_bytes words.items)) }
{
    if words.is_empty() {
        return Ok(None);
    }
    let first = words.remove(0);
    match side_of(first.as_str()) {
        Some(side) => pool_event(alloc, side, first, words),
        None => Ok(session_event(first.as_str(), words.as_slice())),
    }
}

/// The event that the words of a text are.
fn event_of_text(alloc: Global, text: &str) -> Result<Option<Event>, AllocError>
    ensures { IfOk result (WordsSay (words_of text.now)) }
{
    match words_of(alloc, text)? {
        Some(words) => event_of_words(alloc, words),
        None => Ok(None),
    }
}

/// The event that a line says; none where it says none (E1). Single blanks part its words, so that two blanks have an
/// empty word between them, which stands nowhere.
///
/// The line of a command on a pool is one that `zst_line` reads, behind the word for the pool and without its image:
/// `write` of zst is `here write tank/a 1 0 aa` of a script.
pub fn event_of(alloc: Global, line: &[u8]) -> Result<Option<Event>, AllocError>
    ensures { IfOk result (SaysOf line.now) }
{
    if line.len() > LONGEST_LINE {
        return Ok(None);
    }
    match str::from_utf8(line) {
        Ok(text) => event_of_text(alloc, text),
        Err(_) => Ok(None),
    }
}
