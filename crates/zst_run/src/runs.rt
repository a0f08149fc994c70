ghost use Rattle.std.specs.Prelude.{◌≡◌, None, false, map, string_bytes};
ghost use Rattle.zst_run.specs.Devices.{devices};
ghost use Rattle.zst_run.specs.LineEffects.{DoesLine, IsInRange, is_check, receive_of, send_of, token_dataset_of};
ghost use Rattle.zst_run.specs.Runs.{EndsWords, Runs};

use crate::checks::check_image;
use crate::dump::dump;
use crate::generate::generate;
use crate::note::{note_refusal, status_of};
use crate::pools::{create_pool, step_pool};
use crate::receive::receive;
use crate::replay::replay;
use crate::send::{SendRequest, ask_rest, send};
use crate::tokens::tell_token;
use std::alloc::Global;
use zst_line::{Line, parse};
use zst_model::Refusal;
use zst_names::DatasetName;
use zst_outside::{Disk, Sink, Source};
use zst_recv::RecvAsk;
use zst_script::{ask_of, receipt_of};

/// Does what the words after the program's name ask for, and answers the program's status. A refusal goes to `note`.
///
/// `here` is the image that a line names, `there` is the second one that `replay` names, and `now` is the time in seconds since 1970.
pub fn run<D: Disk, E: Disk, S: Source, K: Sink, N: Sink>(
    alloc: Global,
    words: &[String],
    now: u64,
    here: &mut D,
    there: &mut E,
    input: &mut S,
    out: &mut K,
    note: &mut N,
) -> u8
    ensures runs { Runs D.state D.tells_images E.state E.tells_images now (map string_bytes words.now)
        (devices here.old there.old (S.state input.old) (K.state out.old)) (devices here.new there.new (S.state input.new) (K.state out.new))
        (N.state note.old) (N.state note.new) result }
{
    match run_words(alloc, words, now, here, there, input, out) {
        Ok(status) => status,
        Err(refusal) => {
            note_refusal(&refusal, note);
            status_of(&refusal)
        }
    }
}

/// Does what words ask for that are a line, and answers the status that the program ends with.
fn run_words<D: Disk, E: Disk, S: Source, K: Sink>(
    alloc: Global,
    words: &[String],
    now: u64,
    here: &mut D,
    there: &mut E,
    input: &mut S,
    out: &mut K,
) -> Result<u8, Refusal>
    ensures { EndsWords D.state D.tells_images E.state E.tells_images now (map string_bytes words.now)
        (devices here.old there.old (S.state input.old) (K.state out.old)) (devices here.new there.new (S.state input.new) (K.state out.new)) result }
{
    match parse(alloc, words)? {
        Line::Check { .. } => check_image(alloc, here, out),
        line => {
            run_unchecked(alloc, line, now, here, there, input, out)?;
            Ok(0)
        }
    }
}

/// Does what a line asks for that checks nothing.
fn run_unchecked<D: Disk, E: Disk, S: Source, K: Sink>(
    alloc: Global,
    line: Line,
    now: u64,
    here: &mut D,
    there: &mut E,
    input: &mut S,
    out: &mut K,
) -> Result<(), Refusal>
    requires range { IsInRange line }
    requires no_check { is_check line ≡ false }
    ensures { DoesLine D.state D.tells_images E.state E.tells_images now line
        (devices here.old there.old (S.state input.old) (K.state out.old)) (devices here.new there.new (S.state input.new) (K.state out.new)) result }
{
    match send_of(&line) {
        Some(request) => send(alloc, here, &request, out),
        None => run_unsent(alloc, line, now, here, there, input, out),
    }
}

/// Does what a line asks for that checks and sends nothing.
fn run_unsent<D: Disk, E: Disk, S: Source, K: Sink>(
    alloc: Global,
    line: Line,
    now: u64,
    here: &mut D,
    there: &mut E,
    input: &mut S,
    out: &mut K,
) -> Result<(), Refusal>
    requires range { IsInRange line }
    requires no_check { is_check line ≡ false }
    requires no_send { send_of line ≡ None }
    ensures { DoesLine D.state D.tells_images E.state E.tells_images now line
        (devices here.old there.old (S.state input.old) (K.state out.old)) (devices here.new there.new (S.state input.new) (K.state out.new)) result }
{
    match receive_of(&line) {
        Some(ask) => receive(alloc, here, ask, input, out),
        None => run_here(alloc, line, now, here, there, input, out),
    }
}

/// Does what a line asks for that checks, sends and receives nothing.
fn run_here<D: Disk, E: Disk, S: Source, K: Sink>(
    alloc: Global,
    line: Line,
    now: u64,
    here: &mut D,
    there: &mut E,
    input: &mut S,
    out: &mut K,
) -> Result<(), Refusal>
    requires range { IsInRange line }
    requires no_check { is_check line ≡ false }
    requires no_send { send_of line ≡ None }
    requires no_receive { receive_of line ≡ None }
    ensures { DoesLine D.state D.tells_images E.state E.tells_images now line
        (devices here.old there.old (S.state input.old) (K.state out.old)) (devices here.new there.new (S.state input.new) (K.state out.new)) result }
{
    match token_dataset_of(&line) {
        Some(dataset) => tell_token(alloc, here, &dataset, out),
        None => run_line(alloc, line, now, here, there, input, out),
    }
}

/// What a line asks to be sent.
fn send_of(line: &Line) -> Option<SendRequest>
    requires { IsInRange line.now }
    ensures { result ≡ send_of line.now }
{
    match line {
        Line::Send {
            from,
            redacts,
            snapshot,
            ..
        } => Some(SendRequest::Named(ask_of(from, redacts, snapshot))),
        Line::Resume { token, .. } => Some(ask_rest(token)),
        _ => None,
    }
}

/// What a line asks to be received.
fn receive_of(line: &Line) -> Option<RecvAsk>
    requires { IsInRange line.now }
    ensures { result ≡ receive_of line.now }
{
    match line {
        Line::Receive {
            keeps,
            forces,
            origin,
            target,
            ..
        } => Some(receipt_of(*keeps, *forces, origin, target)),
        _ => None,
    }
}

/// The dataset whose token a line asks for.
fn token_dataset_of(line: &Line) -> Option<DatasetName>
    ensures { result ≡ token_dataset_of line.now }
{
    match line {
        Line::Token { dataset, .. } => Some(dataset.duplicate()),
        _ => None,
    }
}

/// Does what a line asks for that checks, sends, receives and tells nothing.
fn run_line<D: Disk, E: Disk, S: Source, K: Sink>(
    alloc: Global,
    line: Line,
    now: u64,
    here: &mut D,
    there: &mut E,
    input: &mut S,
    out: &mut K,
) -> Result<(), Refusal>
    requires range { IsInRange line }
    requires no_check { is_check line ≡ false }
    requires no_send { send_of line ≡ None }
    requires no_receive { receive_of line ≡ None }
    requires no_token { token_dataset_of line ≡ None }
    ensures { DoesLine D.state D.tells_images E.state E.tells_images now line
        (devices here.old there.old (S.state input.old) (K.state out.old)) (devices here.new there.new (S.state input.new) (K.state out.new)) result }
{
    match line {
        Line::Dump => dump(alloc, input, out),
        Line::Create { sectors, id, .. } => create_pool(alloc, here, sectors, id, out),
        Line::Step { command, .. } => step_pool(alloc, here, now, command, out),
        Line::Gen { steps, .. } => generate(alloc, here, now, steps, out),
        Line::Replay { .. } => replay(alloc, now, here, there, input, out),
        Line::Send { .. }
        | Line::Resume { .. }
        | Line::Receive { .. }
        | Line::Token { .. }
        | Line::Check { .. } => unreachable!(),
    }
}
