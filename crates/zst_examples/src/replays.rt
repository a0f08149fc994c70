// A script that is run over and over, each time with a call of one of its disks that fails, or with a disk that stops.

use crate::calls::{Answer, End, Failing, Line, Side, done};
use crate::counts::Counts;
use crate::labels::label_of;
use crate::pools::{Pool, opens, pool_of};
use crate::trials::Trial;
use std::alloc::{AllocError, Global};
use std::str;

/// The most times that a script is tried.
const TRIES: u64 = 1 << 16;

/// The reply of the event in which a call of its disk failed.
const FAULT: &str = "E28 disk fault";

/// The reply of an event on a pool that failed and wasn't opened again.
const FAILED: &str = "E31 failed: reopen the pool";

/// The front of the reply where a session isn't open, as one isn't that couldn't be opened or that a refusal ended.
const NO_SESSION: &str = "E3 no such session ";

/// Tries a script at each call of one of its disks, and tells what came of it. None where something else is tried, or no script.
pub(crate) fn replayed(
    alloc: Global,
    line: &Line,
    trial: &Trial,
    whole: &Answer,
) -> Result<Option<String>, AllocError> {
    if line.other.is_none() {
        return Ok(None);
    }
    match trial {
        Trial::DiskStops { side, fills } => stops(alloc, line, whole, *side, fills).map(Some),
        Trial::Fails {
            end: End::Disk(side),
            fills,
        } => fails(alloc, line, whole, *side, fills).map(Some),
        _ => Ok(None),
    }
}

/// The text of a script.
fn script_of(line: &Line) -> &str {
    str::from_utf8(&line.input).unwrap_or("")
}

/// The pool of a side behind a front of a script.
fn pool_behind(alloc: Global, line: &Line, front: &str, side: Side) -> Result<Pool, AllocError> {
    let line = line.with_input(alloc, front.as_bytes().to_vec(alloc)?)?;
    let mut answer = done(alloc, &line, None)?;
    let image = answer.image(alloc, side)?;
    pool_of(alloc, &image)
}

/// The pools of a side before a script and behind each of its lines.
fn way_of(alloc: Global, line: &Line, side: Side) -> Result<Vec<Pool>, AllocError> {
    let mut way = Vec::new(alloc);
    let mut front = String::new(alloc);
    way.push(pool_behind(alloc, line, "", side)?)?;
    for text in script_of(line).lines() {
        front.push_str(text)?;
        front.push('\n')?;
        way.push(pool_behind(alloc, line, front.as_str(), side)?)?;
    }
    Ok(way)
}

/// The words for the first line behind which a pool stands so, 0 for none.
fn add_place(alloc: Global, place: Option<usize>, text: &mut String) -> Result<(), AllocError> {
    if !text.is_empty() {
        text.push_str(" or ")?;
    }
    match place {
        None => text.push_str("otherwise"),
        Some(0) => text.push_str("as before"),
        Some(number) => text.push_str(format!(in alloc; "as behind line {number}")?.as_str()),
    }
}

/// Behind which lines the pools stand that a disk may hold which stopped before the call of this number.
fn stopped_at(
    alloc: Global,
    whole: &Answer,
    way: &[Pool],
    side: Side,
    number: u64,
    fills: &[u8],
) -> Result<String, AllocError> {
    let mut places = Vec::new(alloc);
    let mut text = String::new(alloc);
    for fill in fills {
        let image = whole.on(side).stopped(alloc, number, *fill)?;
        let pool = pool_of(alloc, &image)?;
        let place = way.iter().position(|one| *one == pool);
        if !places.contains(&place) {
            places.push(place)?;
            add_place(alloc, place, &mut text)?;
        }
    }
    Ok(text)
}

/// Stops a disk before each of its calls.
fn stops(
    alloc: Global,
    line: &Line,
    whole: &Answer,
    side: Side,
    fills: &[u8],
) -> Result<String, AllocError> {
    let way = way_of(alloc, line, side)?;
    let mut counts = Counts::new(alloc);
    for number in 0..=whole.on(side).calls {
        counts.add(stopped_at(alloc, whole, &way, side, number, fills)?)?;
    }
    counts.told(alloc, "stops")
}

/// Lets each call of a disk fail.
fn fails(
    alloc: Global,
    line: &Line,
    whole: &Answer,
    side: Side,
    fills: &[u8],
) -> Result<String, AllocError> {
    let mut counts = Counts::new(alloc);
    for number in 0..TRIES {
        match one_fails(alloc, line, whole, side, number, fills)? {
            Some(label) => counts.add(label)?,
            None => break,
        }
    }
    counts.told(alloc, "calls")
}

/// A script in which the call of this number fails, None where there is no such call.
fn one_fails(
    alloc: Global,
    line: &Line,
    whole: &Answer,
    side: Side,
    number: u64,
    fills: &[u8],
) -> Result<Option<String>, AllocError> {
    let end = End::Disk(side);
    let mut found = done(alloc, line, Some(Failing { end, number }))?;
    if found.faults == 0 {
        return Ok(None);
    }
    let mut label = if found.status > 0 {
        label_of(alloc, whole, &found, number, line)?
    } else {
        told_of(alloc, script_of(line), whole, &found, side)?
    };
    let both = both_open(alloc, &mut found, side, fills)?;
    label.push_str(if both {
        ", both open"
    } else {
        ", one doesn't open"
    })?;
    Ok(Some(label))
}

/// Whether both pools open behind a script, also where the disk that failed then stopped.
fn both_open(
    alloc: Global,
    found: &mut Answer,
    side: Side,
    fills: &[u8],
) -> Result<bool, AllocError> {
    let (here, there) = (
        found.image(alloc, Side::Here)?,
        found.image(alloc, Side::There)?,
    );
    let mut both = opens(alloc, &here)? && opens(alloc, &there)?;
    for fill in fills {
        let failed = found.on(side);
        let image = failed.stopped(alloc, failed.calls, *fill)?;
        both = opens(alloc, &image)? && both;
    }
    Ok(both)
}

/// How a pool stands to the fault of its disk.
#[derive(Clone, Copy)]
enum Fate {
    /// It didn't come yet.
    Works,
    Failed,
    Reopened,
}

/// An event of a script, with what it is answered where nothing fails, and what it was answered.
#[derive(Clone, Copy)]
struct Turn<'a> {
    event: &'a str,
    usual: &'a str,
    reply: &'a str,
}

/// The lines of a script that are events.
fn events_in<'a>(alloc: Global, script: &'a str) -> Result<Vec<&'a str>, AllocError> {
    let mut events = Vec::new(alloc);
    for line in script.lines() {
        if !line.is_empty() && !line.starts_with('#') {
            events.push(line)?;
        }
    }
    Ok(events)
}

/// The lines of what a script was answered.
fn replies_in<'a>(alloc: Global, out: &'a [u8]) -> Result<Vec<&'a str>, AllocError> {
    let mut replies = Vec::new(alloc);
    for line in str::from_utf8(out).unwrap_or("").lines() {
        replies.push(line)?;
    }
    Ok(replies)
}

/// The words for how a script, each of whose events is answered in one line, went on behind the fault of a side's disk.
fn told_of(
    alloc: Global,
    script: &str,
    whole: &Answer,
    found: &Answer,
    side: Side,
) -> Result<String, AllocError> {
    let events = events_in(alloc, script)?;
    let usual = replies_in(alloc, &whole.out)?;
    let replies = replies_in(alloc, &found.out)?;
    if usual.len() != events.len() || replies.len() != events.len() {
        return String::from_str(alloc, "another count of replies");
    }
    let mut fate = Fate::Works;
    for (i, ((event, usual), reply)) in events.iter().zip(&usual).zip(&replies).enumerate() {
        let turn = Turn {
            event: *event,
            usual: *usual,
            reply: *reply,
        };
        let before = events.get(..i).unwrap_or(&[]);
        match behind(fate, turn, before, name_of(side)) {
            Some(next) => fate = next,
            None => return format!(in alloc; "{event} is answered {reply}"),
        }
    }
    String::from_str(alloc, words_for(fate))
}

/// The words for a script that was answered as it must be.
fn words_for(fate: Fate) -> &'static str {
    match fate {
        Fate::Works => "done",
        Fate::Failed => "E28, and E31 to its end",
        Fate::Reopened => "E28, and E31 until it is opened again",
    }
}

/// The word for a pool in a script.
fn name_of(side: Side) -> &'static str {
    match side {
        Side::Here => "here",
        Side::There => "there",
    }
}

/// How a pool stands behind an event, None where it can't be answered so.
fn behind(fate: Fate, turn: Turn<'_>, before: &[&str], pool: &str) -> Option<Fate> {
    let works = works_on(turn.event, before, pool);
    let reopens = works && word_of(turn.event, 1) == "reopen";
    let is_refused = turn.reply == FAILED || turn.reply == FAULT;
    let holds = match fate {
        Fate::Works if works && turn.reply == FAULT => return Some(Fate::Failed),
        Fate::Works => turn.reply == turn.usual,
        Fate::Failed if reopens && turn.reply.starts_with("ok ") => return Some(Fate::Reopened),
        Fate::Failed if works => turn.reply == FAILED || turn.reply.starts_with(NO_SESSION),
        Fate::Failed | Fate::Reopened => !is_refused,
    };
    if holds { Some(fate) } else { None }
}

/// Whether an event works on a pool: it names it, or a session of it. A resume works on both.
fn works_on(event: &str, before: &[&str], pool: &str) -> bool {
    match word_of(event, 0) {
        "pump" => {
            pool_with(before, word_of(event, 1)) == pool
                || pool_with(before, word_of(event, 2)) == pool
        }
        "drop" => pool_with(before, word_of(event, 1)) == pool,
        "close" | "cut" => false,
        named => named == pool || word_of(event, 1) == "resume",
    }
}

/// The pool on which the session with this id was opened last.
fn pool_with<'a>(events: &[&'a str], id: &str) -> &'a str {
    for event in events.iter().rev() {
        let is_opened = matches!(word_of(event, 1), "send" | "resume" | "receive");
        if is_opened && word_of(event, 2) == id {
            return word_of(event, 0);
        }
    }
    ""
}

/// A word of a line, by its number from 0.
fn word_of(line: &str, number: usize) -> &str {
    line.split(' ').skip(number).next().unwrap_or("")
}
