//! Reads a script line by line, in a room that never grows.
ghost use Rattle.std.specs.Prelude.{◌≡◌, ◌+◌, ◌≤◌, ◌↔◌, IsTrue, length};
ghost use Rattle.zst_script.specs.declared.TheConstants.{SCRIPT_LIMIT};
ghost use Rattle.zst_script.specs.LineRoom.{items};
ghost use Rattle.zst_script.specs.LineStages.{DropsTo, IsOpen, IsToldOf};
ghost use Rattle.zst_script.specs.Scripts.{IsPassedOver};

use crate::line_room::{LineRoom, Span};
use crate::{LONGEST_LINE, SCRIPT_LIMIT};
use memchr::memchr;
use std::alloc::{AllocError, Global};
use zst_outside::{Fault, Source};

/// What comes next of a script.
#[derive(Clone, Copy)]
pub enum NextLine<'a> {
    /// A line that is passed over: it is empty, or a comment of any length.
    Passed,
    /// A line that isn't passed over, without its line feed, of at most `LONGEST_LINE` bytes.
    Line(&'a [u8]),
    /// A line of more bytes than any that says an event, which isn't passed over.
    Overlong,
    /// The script was read to its end, and all of its lines were given.
    End,
    /// The script has more bytes than one may have (E23), and the lines that end within these were given.
    Limit,
    /// The input failed (E29), and the lines that ended in what it gave were given.
    Fault,
}

/// Where the line stands that is read next.
#[derive(Clone, Copy)]
pub(crate) enum Stage {
    /// All that came of it is held.
    Kept,
    /// It is longer than any that says an event, and its front was dropped.
    Dropped { comment: bool },
    /// There is none: the input has ended.
    Ended,
    /// There is none: the script has more bytes than one may have.
    Limit,
}

/// What was found; the bytes of a line stand in the room.
#[derive(Clone, Copy)]
pub(crate) enum Found {
    Passed,
    Line(Span),
    Overlong,
    End,
    Limit,
    Fault,
}

/// Why no more comes of a line.
#[derive(Clone, Copy)]
pub(crate) enum Stop {
    End,
    Limit,
    Fault,
}

// Whether a line is passed over.
fn is_passed_over(line: &[u8]) -> bool
    ensures { IsTrue result ↔ IsPassedOver line.now }
{
    match line {
        [] => true,
        [first, ..] => *first == b'#',
    }
}

// Where a line stands once these bytes of it are dropped, behind those that were before.
fn stage_behind(stage: Stage, held: &[u8]) -> Stage
    ensures { DropsTo stage held.now result }
{
    match stage {
        Stage::Kept => Stage::Dropped {
            comment: is_passed_over(held),
        },
        Stage::Dropped { .. } | Stage::Ended | Stage::Limit => stage,
    }
}

// What a line is, of which these bytes were held, at these places.
fn told_of(stage: Stage, held: &[u8], span: Span) -> Found
    requires { IsOpen stage }
    ensures { IsToldOf stage held.now span result }
{
    match stage {
        Stage::Kept => {
            if is_passed_over(held) {
                Found::Passed
            } else {
                Found::Line(span)
            }
        }
        Stage::Dropped { comment: true } => Found::Passed,
        Stage::Dropped { comment: false } => Found::Overlong,
        Stage::Ended | Stage::Limit => unreachable!(),
    }
}

/// Reads a script line by line.
#[derive(Drop)]
pub struct ScriptLines {
    room: LineRoom,
    stage: Stage,
    /// How many bytes were read: one more than a script may have, where that was seen.
    read: u64,
    /// How many lines were given.
    number: u64,
    ghost bounded: { read ≤ SCRIPT_LIMIT + 1 },
    ghost numbered: { number ≤ read + 1 },
    ghost within: { IsOpen stage → read ≤ SCRIPT_LIMIT },
    ghost counted: { IsOpen stage → number + length (items room) ≤ read },
}

impl ScriptLines {
    ghost use Rattle.std.specs.Prelude.{List, [], ℕ, IfOk, drop, take};
    ghost use Rattle.std.specs.Borrow.{sem};
    ghost use Rattle.zst_outside.specs.States.{SourceState};
    ghost use Rattle.zst_script.specs.LineStages.{EndsAt, HasNoEnd};
    ghost use Rattle.zst_script.specs.ScriptLines.{GivesNext, HasLines, number_of};
    ghost use Rattle.zst_script.specs.LineReading.{Finds, Keeps, Reaches, ReadsMore, ReadsOn, Searched, StopsAt, TellsIn, Waits};

    /// A reader of a script of which nothing was read.
    pub fn new(alloc: Global) -> Result<ScriptLines, AllocError>
        ensures { IfOk result (λ lines. (input : SourceState) → HasLines input lines [] []) }
    {
        Ok(ScriptLines {
            room: LineRoom::new(alloc)?,
            stage: Stage::Kept,
            read: 0,
            number: 0,
        })
    }

    /// The number of the line that was given last, from 1, and 0 before the first.
    pub fn number(&self) -> u64
        ensures { result ≡ number_of self.now }
    {
        self.number
    }

    /// The next line, which stands in the room until the next call. Behind the last line feed stands a line, too, which may be
    /// empty. It reads only where no line ends in what it has, and no byte twice; after a fault the next call goes on.
    pub fn next<S: Source>(&mut self, input: &mut S) -> NextLine<'_>
        ensures* gives { sem 𝓛 (GivesNext (S.state input.old) (S.state input.new) self.entry result) }
    {
        match self.find(input) {
            Found::Passed => NextLine::Passed,
            Found::Line(span) => NextLine::Line(self.room.between(span)),
            Found::Overlong => NextLine::Overlong,
            Found::End => NextLine::End,
            Found::Limit => NextLine::Limit,
            Found::Fault => NextLine::Fault,
        }
    }

    // Finds the next line, or why there is none.
    fn find<S: Source>(&mut self, input: &mut S) -> Found
        ensures { Finds (S.state input.old) (S.state input.new) self.old self.new result }
    {
        match self.stage {
            Stage::Kept | Stage::Dropped { .. } => self.find_line(input),
            Stage::Ended => Found::End,
            Stage::Limit => Found::Limit,
        }
    }

    // The same, where more of the script may come.
    fn find_line<S: Source>(&mut self, input: &mut S) -> Found
        requires { IsOpen self.old.stage }
        ensures { Finds (S.state input.old) (S.state input.new) self.old self.new result }
    {
        match self.find_end(input) {
            Ok(count) => self.take_line(count),
            Err(Stop::End) => self.take_last(),
            Err(Stop::Limit) => Found::Limit,
            Err(Stop::Fault) => Found::Fault,
        }
    }

    // Takes the line that ends behind so many of the bytes that are held.
    fn take_line(&mut self, count: usize) -> Found
        requires open { IsOpen self.old.stage }
        requires ends { EndsAt (items self.old.room) count }
        ensures { (before input : SourceState) (text : List ℕ) (given : List (List ℕ)) → HasLines input self.old text given → TellsIn before input self.new text given result }
    {
        let stage = self.stage;
        let span = self.room.take_front(count, count + 1);
        self.stage = Stage::Kept;
        self.number += 1;
        told_of(stage, self.room.between(span), span)
    }

    // Takes what is held as the end of the last line.
    fn take_last(&mut self) -> Found
        requires { Waits self.old }
        ensures { (before input : SourceState) (text : List ℕ) (given : List (List ℕ)) → IsTrue input.ended → HasLines input self.old text given
            → TellsIn before input self.new text given result }
    {
        let stage = self.stage;
        let count = self.room.held().len();
        let span = self.room.take_front(count, count);
        self.stage = Stage::Ended;
        self.number += 1;
        told_of(stage, self.room.between(span), span)
    }

    // Reads on until the line ends in what is held, and tells behind how many of these bytes.
    fn find_end<S: Source>(&mut self, input: &mut S) -> Result<usize, Stop>
        requires { IsOpen self.old.stage }
        ensures reads { ReadsOn (S.state input.old) (S.state input.new) self.old self.new }
        ensures reaches { Reaches (S.state input.old) (S.state input.new) self.new result }
    {
        let mut searched = 0;
        'reads: loop {
            let held = self.room.held();
            match memchr(b'\n', &held[searched..]) {
                Some(place) => return Ok(searched + place),
                None => {}
            }
            match self.read_more(input) {
                Ok(count) => searched = count,
                Err(stop) => return Err(stop),
            }
        }
    }

    // Reads more of a line that has no end in what is held, and tells how many of the bytes that are held then stood there before.
    fn read_more<S: Source>(&mut self, input: &mut S) -> Result<usize, Stop>
        requires open { IsOpen self.old.stage }
        requires whole { HasNoEnd (items self.old.room) }
        ensures reads { ReadsOn (S.state input.old) (S.state input.new) self.old self.new }
        ensures more { Searched (S.state input.old) (S.state input.new) self.old self.new result }
    {
        self.make_way();
        let count = self.room.held().len();
        match self.read_piece(input) {
            Ok(()) => Ok(count),
            Err(stop) => Err(stop),
        }
    }

    // Drops what is held of a line that is longer than any that says an event.
    fn make_way(&mut self)
        requires open { IsOpen self.old.stage }
        requires whole { HasNoEnd (items self.old.room) }
        ensures keeps { Keeps self.old self.new }
        ensures waits { Waits self.new }
        ensures read { self.new.read ≡ self.old.read }
    {
        let held = self.room.held();
        if held.len() > LONGEST_LINE {
            let stage = stage_behind(self.stage, held);
            self.stage = stage;
            self.room.clear();
        }
    }

    // Reads a piece, up to the limit, and there one byte past it.
    fn read_piece<S: Source>(&mut self, input: &mut S) -> Result<(), Stop>
        requires { Waits self.old }
        ensures reads { ReadsOn (S.state input.old) (S.state input.new) self.old self.new }
        ensures more { ReadsMore (S.state input.old) (S.state input.new) self.old self.new result }
    {
        if self.read == SCRIPT_LIMIT {
            return Err(self.look_past(input));
        }
        let most = (SCRIPT_LIMIT - self.read) as usize;
        match self.room.read_from(input, most) {
            Ok(0) => Err(Stop::End),
            Ok(count) => {
                self.read += count as u64;
                Ok(())
            }
            Err(Fault) => Err(Stop::Fault),
        }
    }

    // Whether the script ends at the limit. A byte past that is read into a room of its own, and dropped.
    fn look_past<S: Source>(&mut self, input: &mut S) -> Stop
        requires waits { Waits self.old }
        requires full { self.old.read ≡ SCRIPT_LIMIT }
        ensures reads { ReadsOn (S.state input.old) (S.state input.new) self.old self.new }
        ensures stops { StopsAt (S.state input.old) (S.state input.new) self.new result }
    {
        match input.read(&mut [0; 1]) {
            Ok(0) => Stop::End,
            Ok(_) => {
                self.read += 1;
                self.stage = Stage::Limit;
                Stop::Limit
            }
            Err(Fault) => Stop::Fault,
        }
    }
}
