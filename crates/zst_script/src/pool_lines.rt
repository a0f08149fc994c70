//! The lines of a pool that are read as command lines are: with the image put in, and without a session's id.
ghost use Rattle.std.specs.Prelude.{◌≡◌, ◌<◌, ◌∷◌, map, codes, string_bytes, vec_len, IfOk, IfSome, None};
ghost use Rattle.zst_script.specs.Asks.{NamesFit};
ghost use Rattle.zst_script.specs.EventWords.{BeginWith, LineOf, WordsSay, behind_options, event_of_command_line, event_of_receive_line, event_of_send_line, token_dataset_of, verb_word};
ghost use Rattle.zst_script.specs.Lines.{with_image, word_for};
ghost use Rattle.zst_script.specs.declared.event.Side.{Side};
ghost use Rattle.zst_script.specs.declared.words.Verb.{Verb};

use crate::asks::{ask_of, receipt_of};
use crate::event::{Event, Side};
use crate::words::take_id;
use std::alloc::{AllocError, Global};
use zst_line::{Line, LineFault, parse};
use zst_names::DatasetName;

/// The line that words are.
fn line_of(alloc: Global, words: &[String]) -> Result<Option<Line>, AllocError>
    ensures line { IfOk result (LineOf (map string_bytes words.now)) }
    ensures names { IfOk result (λ line. IfSome line NamesFit) }
{
    match parse(alloc, words) {
        Ok(line) => Ok(Some(line)),
        Err(LineFault::Usage { .. }) => Ok(None),
        Err(LineFault::BadName { .. }) => Ok(None),
        Err(LineFault::BadToken { .. }) => Ok(None),
        Err(LineFault::Memory) => Err(AllocError),
    }
}

/// Puts an image before the last of the words behind the first one.
fn put_behind_options(mut words: Vec<String>, image: String) -> Result<Vec<String>, AllocError>
    requires { 0 < vec_len words }
    ensures { IfOk result (λ line. map string_bytes line.items ≡ behind_options (string_bytes image) (map string_bytes words.items)) }
{
    let place = words.len().saturating_sub(1).max(1);
    words.insert(place, image)?;
    Ok(words)
}

/// Puts an image where it stands in the line of a command.
fn put_image(mut words: Vec<String>, image: String) -> Result<Vec<String>, AllocError>
    ensures { IfOk result (λ line. map string_bytes line.items ≡ with_image (string_bytes image) (map string_bytes words.items)) }
{
    if words.is_empty() {
        return Ok(words);
    }
    if words[0].as_str() == "rollback" {
        return put_behind_options(words, image);
    }
    words.insert(1, image)?;
    Ok(words)
}

/// The dataset whose token a line asks for.
fn token_dataset_of(line: &Line) -> Option<DatasetName>
    ensures { result ≡ token_dataset_of line.now }
{
    match line {
        Line::Token { dataset, .. } => Some(dataset.duplicate()),
        _ => None,
    }
}

/// The event of a line that asks for no token.
fn event_of_step_line(side: Side, line: Line) -> Option<Event>
    requires { token_dataset_of line ≡ None }
    ensures { result ≡ event_of_command_line side line }
{
    match line {
        Line::Step { command, .. } => Some(Event::Step { side, command }),
        Line::Check { .. } => Some(Event::Check { side }),
        _ => None,
    }
}

/// The event of a command's line.
fn event_of_command_line(side: Side, line: Line) -> Option<Event>
    ensures { result ≡ event_of_command_line side line }
{
    match token_dataset_of(&line) {
        Some(dataset) => Some(Event::Token { side, dataset }),
        None => event_of_step_line(side, line),
    }
}

/// The event of a line that opens a send, read without its id.
fn event_of_send_line(side: Side, send: u32, line: &Line) -> Option<Event>
    requires { NamesFit line.now }
    ensures { result ≡ event_of_send_line side send line.now }
{
    match line {
        Line::Send {
            from,
            redacts,
            snapshot,
            ..
        } => Some(Event::Send {
            side,
            send,
            ask: ask_of(from, redacts, snapshot),
        }),
        _ => None,
    }
}

/// The event of a line that opens a receive, read without its id.
fn event_of_receive_line(side: Side, receive: u32, line: &Line) -> Option<Event>
    requires { NamesFit line.now }
    ensures { result ≡ event_of_receive_line side receive line.now }
{
    match line {
        Line::Receive {
            keeps,
            forces,
            origin,
            target,
            ..
        } => Some(Event::Receive {
            side,
            receive,
            ask: receipt_of(*keeps, *forces, origin, target),
        }),
        _ => None,
    }
}

/// The event of a line that has a command, behind the word for the pool.
pub fn command_event(
    alloc: Global,
    side: Side,
    image: String,
    words: Vec<String>,
) -> Result<Option<Event>, AllocError>
    requires image { string_bytes image ≡ word_for side }
    requires command { (verb : Verb) → ¬ (BeginWith (verb_word verb) (map string_bytes words.items)) }
    ensures { IfOk result (WordsSay (word_for side ∷ map string_bytes words.items)) }
{
    let words = put_image(words, image)?;
    match line_of(alloc, words.as_slice())? {
        Some(line) => Ok(event_of_command_line(side, line)),
        None => Ok(None),
    }
}

/// The event of a line that opens a send, behind the word for the pool.
pub fn send_event(
    alloc: Global,
    side: Side,
    image: String,
    mut words: Vec<String>,
) -> Result<Option<Event>, AllocError>
    requires image { string_bytes image ≡ word_for side }
    requires verb { BeginWith (codes "send") (map string_bytes words.items) }
    ensures { IfOk result (WordsSay (word_for side ∷ map string_bytes words.items)) }
{
    let Some(send) = take_id(&mut words) else {
        return Ok(None);
    };
    let words = put_behind_options(words, image)?;
    match line_of(alloc, words.as_slice())? {
        Some(line) => Ok(event_of_send_line(side, send, &line)),
        None => Ok(None),
    }
}

/// The event of a line that opens a receive, behind the word for the pool.
pub fn receive_event(
    alloc: Global,
    side: Side,
    image: String,
    mut words: Vec<String>,
) -> Result<Option<Event>, AllocError>
    requires image { string_bytes image ≡ word_for side }
    requires verb { BeginWith (codes "receive") (map string_bytes words.items) }
    ensures { IfOk result (WordsSay (word_for side ∷ map string_bytes words.items)) }
{
    let Some(receive) = take_id(&mut words) else {
        return Ok(None);
    };
    let words = put_behind_options(words, image)?;
    match line_of(alloc, words.as_slice())? {
        Some(line) => Ok(event_of_receive_line(side, receive, &line)),
        None => Ok(None),
    }
}
