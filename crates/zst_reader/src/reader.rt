ghost use Rattle.std.specs.Prelude.{◌≡◌, ◌+◌, ◌*◌, ◌-◌, ◌^◌, ◌<◌, ◌≤◌, length, drop, IsTrue};
ghost use Rattle.zst_reader.specs.Window.{items};
ghost use Rattle.zst_record.specs.Formats.{record_len};
ghost use Rattle.zst_reader.specs.Verdict.{IsHeadOf};

use crate::mark::Mark;
use crate::place::Place;
use crate::verdict::{Verdict, judge, read_head};
use crate::window::Window;
use crate::{CAPACITY, STREAM_LIMIT};
use std::alloc::{AllocError, Global};
use zst_model::StreamFault;
use zst_outside::{Fault, Source};
use zst_record::{Head, RECORD_LEN, Record};

/// How many bytes are asked of an input at once. A record that is most of so many is asked for by itself.
const PIECE: usize = 131_072;

/// What `next` found.
#[derive(Clone, Copy)]
pub enum Step<'a> {
    /// The next covered record.
    Record(Record<'a>),
    /// The bytes that were pushed hold no further covered record.
    NeedMore,
    /// END was handed out.
    End,
}

/// What `find` found. The record's head is the reader's, and its payload stands behind its 312 bytes, at the window's front.
#[derive(Clone, Copy)]
pub(crate) enum ReadResult {
    Record { at: u64, index: u64 },
    NeedMore,
    End,
}

/// Reads a stream in whatever pieces it comes, in one buffer of `CAPACITY` bytes.
#[derive(Drop)]
pub struct Reader {
    window: Window,
    /// The record that was handed out last, or the next one once its head is known.
    head: Head,
    /// Whether the next record's head was read. Each is read but once, however often more is wanted.
    known: bool,
    /// How many bytes at the window's front are of the record that was handed out last.
    taken: usize,
    place: Place,
    handed: u64,
    pushed: u64,
    mark: Mark,
    ghost inside: { taken ≤ length (items window) },
    ghost counted: { place.at + (length (items window) - taken) ≡ pushed },
    ghost bounded: { pushed ≤ 2 ^ 62 },
    ghost numbered: { record_len * handed ≤ place.at },
    ghost read: { IsTrue known → IsHeadOf place (drop taken (items window)) head },
}

impl Reader {
    ghost use Rattle.std.specs.Prelude.{List, ℕ, IfOk, sum_by};
    ghost use Rattle.std.specs.Borrow.{sem};
    ghost use Rattle.zst_record.specs.Heads.{Covered, covered_of, size_of};
    ghost use Rattle.zst_stream.specs.Reading.{ruling};
    ghost use Rattle.zst_reader.specs.Mark.{finish_of};
    ghost use Rattle.zst_reader.specs.StandsFor.{IsUnread, StandsFor, mark_of, pushed_of, room_of};
    ghost use Rattle.zst_reader.specs.InputReads.{Fills, PushesFront, stream_limit};
    ghost use Rattle.zst_reader.specs.Verdict.{Judges};
    ghost use Rattle.zst_reader.specs.Steps.{Finds, FindsIn, GivesBack, IsSameBut, StandsBehind, StepsOn, TakesRecord, covered_in};

    /// A reader of the empty text.
    pub fn open(alloc: Global) -> Result<Reader, AllocError>
        ensures { IfOk result IsUnread }
    {
        Ok(Reader {
            window: Window::new(alloc)?,
            head: Head::End {
                sums: [0; 4],
                to: 0,
            },
            known: false,
            taken: 0,
            place: Place::first(),
            handed: 0,
            pushed: 0,
            mark: Mark::Open,
        })
    }

    /// Takes a front of a piece, as long as there is room.
    pub fn push(&mut self, piece: &[u8]) -> usize
        requires { pushed_of self.old + length piece.now ≤ 2 ^ 62 }
        ensures { PushesFront self.old self.new piece.now result }
    {
        self.settle();
        let count = piece.len().min(self.room());
        self.window.append(&piece[..count]);
        self.pushed += count as u64;
        count
    }

    /// Reads more of an input, straight into the room that it has, and answers how many bytes came: none only at the input's end.
    pub fn fill<S: Source>(&mut self, input: &mut S) -> Result<usize, Fault>
        requires room { 0 < room_of self.old }
        requires within { pushed_of self.old < stream_limit }
        ensures { Fills (S.state input.old) (S.state input.new) self.old self.new result }
    {
        self.settle();
        let left = STREAM_LIMIT - self.pushed;
        let most = left.min(self.room().min(self.wanted()) as u64) as usize;
        let got = self.window.read_from(input, most)?;
        self.pushed += got as u64;
        Ok(got)
    }

    // How many bytes are asked of an input at once: a piece, or where the record at hand is most of one, what completes it with
    // the next one's 312 bytes. So these alone are left behind a large block, and moved to the front.
    fn wanted(&self) -> usize
        ensures some { 0 < result }
    {
        let whole = (self.head.payload_len() as usize).saturating_add(2 * RECORD_LEN);
        let lacking = whole.saturating_sub(self.window.as_slice().len());
        if self.known && whole > PIECE / 2 && lacking > 0 {
            return lacking;
        }
        PIECE
    }

    /// How many more bytes it can take.
    pub fn room(&self) -> usize
        ensures { result ≡ room_of self.now }
    {
        CAPACITY - (self.window.as_slice().len() - self.taken)
    }

    /// How many bytes it has taken.
    pub fn pushed(&self) -> u64
        ensures { result ≡ pushed_of self.now }
    {
        self.pushed
    }

    /// How many bytes the records have that it has handed out.
    pub fn covered(&self) -> u64
        ensures { (text : List ℕ) (handed : List Covered) → StandsFor self.now text handed → result ≡ sum_by (λ c. size_of c.head) handed }
    {
        self.place.at
    }

    /// What it means that the input ends here: the stream is truncated, unless it has ended or was refused.
    pub fn finish(&self) -> Result<(), StreamFault>
        ensures { result ≡ finish_of (mark_of self.now) (pushed_of self.now) }
    {
        match self.mark {
            Mark::Open => Err(StreamFault::Truncated { at: self.pushed }),
            Mark::Failed(fault) => Err(fault),
            Mark::Ended => Ok(()),
        }
    }

    // Gives up the record that was handed out last.
    fn settle(&mut self)
        ensures { GivesBack self.old self.new }
    {
        let count = self.taken;
        self.taken = 0;
        self.window.consume(count);
    }

    // Judges what stands at the window's front.
    #[tactic(auto, unfolding(zst_stream::specs::Reading::ruling))]
    fn judge(&mut self) -> Verdict
        requires settled { self.old.taken ≡ 0 }
        ensures same { IsSameBut self.old self.new }
        ensures judged { Judges self.new.place (items self.new.window) self.new.head (λ before. ruling before (items self.new.window)) result }
    {
        let held = self.window.as_slice();
        if !self.known {
            match read_head(held, &self.place, &mut self.head) {
                Ok(true) => self.known = true,
                Ok(false) => return Verdict::Wait,
                Err(fault) => return Verdict::Refuse(fault),
            }
        }
        let verdict = judge(held, &self.place, &mut self.head);
        self.known = matches!(verdict, Verdict::Wait);
        verdict
    }

    // Takes the record at the window's front as handed out, before which this place stands.
    fn advance(&mut self, place: Place, mark: Mark)
        requires { StandsBehind self.old place }
        ensures { TakesRecord self.old self.new place mark }
    {
        self.taken = RECORD_LEN + self.head.payload_len() as usize;
        self.known = false;
        self.place = place;
        self.handed += 1;
        self.mark = mark;
    }

    // Finds the next covered record, and takes it as handed out.
    fn find(&mut self) -> Result<ReadResult, StreamFault>
        ensures moves { Finds self.old self.new result }
        ensures finds { (text : List ℕ) (handed : List Covered) → StandsFor self.old text handed → FindsIn self.new text handed result }
    {
        match self.mark {
            Mark::Failed(fault) => return Err(fault),
            Mark::Ended => return Ok(ReadResult::End),
            Mark::Open => {}
        }
        self.settle();
        let (at, index) = (self.place.at, self.handed);
        match self.judge() {
            Verdict::Wait => Ok(ReadResult::NeedMore),
            Verdict::Refuse(fault) => {
                self.mark = Mark::Failed(fault);
                Err(fault)
            }
            Verdict::Last(place) => {
                self.advance(place, Mark::Ended);
                Ok(ReadResult::Record { at, index })
            }
            Verdict::More(place) => {
                self.advance(place, Mark::Open);
                Ok(ReadResult::Record { at, index })
            }
        }
    }

    // The record that was handed out last, of this place and number.
    fn lent(&self, at: u64, index: u64) -> Record<'_>
        requires { self.now.taken ≡ size_of self.now.head }
        ensures { covered_of result ≡ covered_in self.now at index }
    {
        Record {
            head: &self.head,
            at,
            index,
            payload: &self.window.as_slice()[RECORD_LEN..self.taken],
        }
    }

    /// The next covered record, whose payload lies in the reader's buffer until the next call. A record is covered once
    /// the next record's 312 bytes are there with the right checksum, END by itself. After a fault it answers that fault.
    pub fn next(&mut self) -> Result<Step<'_>, StreamFault>
        ensures* steps { sem 𝓛 (StepsOn self.entry result) }
    {
        match self.find() {
            Ok(ReadResult::Record { at, index }) => Ok(Step::Record(self.lent(at, index))),
            Ok(ReadResult::NeedMore) => Ok(Step::NeedMore),
            Ok(ReadResult::End) => Ok(Step::End),
            Err(fault) => Err(fault),
        }
    }
}
