// One call of `run`: on images of these bytes, with this input, where some call outside may fail.

use std::alloc::{AllocError, Global};
use std::str;
use zst_outside::{Call, Disk, Entry, MemDisk, MemSink, MemSource, Sink, Source};
use zst_run::run;

/// The time of each run, in seconds since 1970.
const NOW: u64 = 1_700_000_000;

/// A line of `zst` and what it meets.
#[derive(Drop)]
pub(crate) struct Line {
    pub(crate) words: Vec<String>,
    /// The image, None where the line names none.
    pub(crate) image: Option<Vec<u8>>,
    /// The second image, which a replay names.
    pub(crate) other: Option<Vec<u8>>,
    pub(crate) input: Vec<u8>,
    /// The most bytes that a read of the input gives, and that a write of the output takes.
    pub(crate) pieces: (usize, usize),
}

impl Line {
    /// The same line with another input.
    pub(crate) fn with_input(&self, alloc: Global, input: Vec<u8>) -> Result<Line, AllocError> {
        Ok(Line {
            words: self.words.clone()?,
            image: copied(alloc, &self.image)?,
            other: copied(alloc, &self.other)?,
            input,
            pieces: self.pieces,
        })
    }

    /// The same line on another image.
    pub(crate) fn with_image(&self, alloc: Global, image: Vec<u8>) -> Result<Line, AllocError> {
        Ok(Line {
            words: self.words.clone()?,
            image: Some(image),
            other: copied(alloc, &self.other)?,
            input: self.input.to_vec(alloc)?,
            pieces: self.pieces,
        })
    }
}

/// The same image, if there is one.
fn copied(alloc: Global, image: &Option<Vec<u8>>) -> Result<Option<Vec<u8>>, AllocError> {
    Ok(match image {
        Some(image) => Some(image.to_vec(alloc)?),
        None => None,
    })
}

/// One of the two disks of a line: most lines have the first one alone.
#[derive(Clone, Copy, PartialEq, Eq)]
pub(crate) enum Side {
    Here,
    There,
}

/// An end of the world that a line calls.
#[derive(Clone, Copy, PartialEq, Eq)]
pub(crate) enum End {
    Disk(Side),
    Input,
    Output,
    Note,
}

/// A call outside that fails, by its number from 0 among those of its end.
#[derive(Clone, Copy)]
pub(crate) struct Failing {
    pub(crate) end: End,
    pub(crate) number: u64,
}

/// The numbers of the calls of an end that fail.
fn failing_at(alloc: Global, failing: Option<Failing>, end: End) -> Result<Vec<u64>, AllocError> {
    let mut numbers = Vec::new(alloc);
    match failing {
        Some(failing) if failing.end == end => numbers.push(failing.number)?,
        _ => {}
    }
    Ok(numbers)
}

/// A disk behind a line.
#[derive(Drop)]
pub(crate) struct UsedDisk {
    /// The disk as it then stands.
    disk: MemDisk,
    /// How many calls the line made on it.
    pub(crate) calls: u64,
}

impl UsedDisk {
    fn new(disk: MemDisk) -> UsedDisk {
        UsedDisk {
            calls: disk.calls(),
            disk,
        }
    }

    /// What it reads.
    pub(crate) fn image(&mut self, alloc: Global) -> Result<Vec<u8>, AllocError> {
        seen(alloc, &mut self.disk)
    }

    /// Its calls, the first one first.
    pub(crate) fn log(&self) -> &[Entry] {
        self.disk.log()
    }

    /// How many of the line's calls read.
    pub(crate) fn reads(&self) -> usize {
        let calls = self.calls;
        self.disk
            .log()
            .iter()
            .filter(|entry| entry.number < calls && matches!(entry.call, Call::Read(..)))
            .count()
    }

    /// Whether one of the line's calls wrote.
    pub(crate) fn wrote(&self) -> bool {
        self.disk
            .log()
            .iter()
            .any(|entry| matches!(entry.call, Call::Write(..)))
    }

    /// What it holds where it stopped before the call of this number, and each range that wasn't synced is filled.
    pub(crate) fn stopped(
        &self,
        alloc: Global,
        number: u64,
        fill: u8,
    ) -> Result<Vec<u8>, AllocError> {
        let number = number.min(self.disk.calls());
        let mut image = self.disk.image(alloc, number, fill)?;
        seen(alloc, &mut image)
    }
}

/// What came of a line.
#[derive(Drop)]
pub(crate) struct Answer {
    pub(crate) status: u8,
    pub(crate) out: Vec<u8>,
    pub(crate) note: Vec<u8>,
    pub(crate) here: UsedDisk,
    pub(crate) there: UsedDisk,
    /// How many calls outside failed.
    pub(crate) faults: u64,
}

impl Answer {
    pub(crate) fn note(&self) -> &str {
        str::from_utf8(&self.note).unwrap_or("")
    }

    pub(crate) fn on(&self, side: Side) -> &UsedDisk {
        match side {
            Side::Here => &self.here,
            Side::There => &self.there,
        }
    }

    /// What the disk of a side reads.
    pub(crate) fn image(&mut self, alloc: Global, side: Side) -> Result<Vec<u8>, AllocError> {
        match side {
            Side::Here => self.here.image(alloc),
            Side::There => self.there.image(alloc),
        }
    }
}

/// What a disk reads. Where the read is the call that was to fail, the next one isn't.
fn seen(alloc: Global, disk: &mut MemDisk) -> Result<Vec<u8>, AllocError> {
    let mut bytes = vec![in alloc; 0; disk.bytes() as usize]?;
    if disk.read(0, &mut bytes).is_err() {
        let _ = disk.read(0, &mut bytes);
    }
    Ok(bytes)
}

/// The ends of the world that a line meets.
#[derive(Drop)]
struct Outside {
    here: MemDisk,
    there: MemDisk,
    input: MemSource,
    out: MemSink,
    note: MemSink,
}

impl Outside {
    /// How many calls failed, at the end where some did.
    fn faults(&self) -> u64 {
        let streams = self.input.faults().max(self.out.faults());
        let disks = self.here.faults().max(self.there.faults());
        disks.max(self.note.faults()).max(streams)
    }
}

/// The output for what goes to standard error: one that is to fail takes a byte a call.
fn note_for(alloc: Global, failing: Option<Failing>) -> Result<MemSink, AllocError> {
    let numbers = failing_at(alloc, failing, End::Note)?;
    let room = if numbers.is_empty() { usize::MAX } else { 1 };
    Ok(MemSink::new(numbers).in_pieces_of(room))
}

/// A disk of this image, or of no bytes.
fn disk_of(
    alloc: Global,
    image: &Option<Vec<u8>>,
    failing: Option<Failing>,
    side: Side,
) -> Result<MemDisk, AllocError> {
    let bytes = match image {
        Some(image) => image.to_vec(alloc)?,
        None => Vec::new(alloc),
    };
    let numbers = failing_at(alloc, failing, End::Disk(side))?;
    Ok(MemDisk::new(bytes, numbers, None))
}

/// What a line meets, where one call fails.
fn outside_of(alloc: Global, line: &Line, failing: Option<Failing>) -> Result<Outside, AllocError> {
    let (piece, room) = line.pieces;
    let reads = failing_at(alloc, failing, End::Input)?;
    let writes = failing_at(alloc, failing, End::Output)?;
    Ok(Outside {
        here: disk_of(alloc, &line.image, failing, Side::Here)?,
        there: disk_of(alloc, &line.other, failing, Side::There)?,
        input: MemSource::new(line.input.to_vec(alloc)?, reads).in_pieces_of(piece.max(1)),
        out: MemSink::new(writes).in_pieces_of(room.max(1)),
        note: note_for(alloc, failing)?,
    })
}

/// Does a line.
pub(crate) fn done(
    alloc: Global,
    line: &Line,
    failing: Option<Failing>,
) -> Result<Answer, AllocError> {
    let mut outside = outside_of(alloc, line, failing)?;
    let status = run(
        alloc,
        &line.words,
        NOW,
        &mut outside.here,
        &mut outside.there,
        &mut outside.input,
        &mut outside.out,
        &mut outside.note,
    );
    let faults = outside.faults();
    let Outside {
        here,
        there,
        out,
        note,
        ..
    } = outside;
    Ok(Answer {
        status,
        out: out.bytes().to_vec(alloc)?,
        note: note.bytes().to_vec(alloc)?,
        here: UsedDisk::new(here),
        there: UsedDisk::new(there),
        faults,
    })
}
