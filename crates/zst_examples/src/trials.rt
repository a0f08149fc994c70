// A line that is done over and over, each time with something else done to it.

use crate::calls::{Answer, End, Failing, Line, Side, done};
use crate::counts::Counts;
use crate::damage::damage_label;
use crate::labels::label_of;
use crate::places::bytes_of;
use crate::pools::{Ends, Standing};
use crate::remnants::left_each_way;
use crate::replays::replayed;
use std::alloc::{AllocError, Global};

/// The most times that a line is tried.
const TRIES: u64 = 1 << 20;

/// What is done to a line, each time at another place.
#[derive(Drop)]
pub(crate) enum Trial {
    /// A disk stops before a call, and what wasn't synced is filled with each of these bytes.
    DiskStops {
        side: Side,
        fills: Vec<u8>,
    },
    /// The first disk stops before a call, and each range that wasn't synced is left in each way.
    DiskStopsEachWay,
    /// A call of an end fails, and then the disk stops as well, and what wasn't synced is filled with each of these bytes.
    Fails {
        end: End,
        fills: Vec<u8>,
    },
    /// A write of a byte to standard error fails.
    NoteFails,
    /// The input ends before a byte.
    Cut,
    /// These bits of a byte of the input are turned.
    Turned(u8),
    /// These bits of a byte of the image are turned, from a place to another, of every so many bytes.
    ImageTurned {
        bits: u8,
        from: usize,
        to: usize,
        every: usize,
    },
}

/// What is asked of the line that follows.
#[derive(Drop)]
pub(crate) enum Ask {
    Each(Trial),
    Fails(Failing),
    Stops { number: u64, fill: u8 },
    AtMostCalls(u64),
    AtMostReads(u64),
}

/// The bytes that words say, one a word.
fn fills_of(alloc: Global, words: &str) -> Result<Vec<u8>, AllocError> {
    let mut fills = Vec::new(alloc);
    for word in words.split(' ') {
        if let Some(bytes) = bytes_of(alloc, word)? {
            fills.extend_from_slice(&bytes)?;
        }
    }
    Ok(fills)
}

/// The bits that are turned in one of every so many bytes of the image, from a place to another, as words say them.
fn turned_image(alloc: Global, words: &str, every: usize) -> Result<Option<Ask>, AllocError> {
    let mut words = words.split(' ');
    let (Some(bits), Some(from), Some(to)) = (words.next(), words.next(), words.next()) else {
        return Ok(None);
    };
    let bits = bytes_of(alloc, bits)?.and_then(|bits| bits.first().copied());
    Ok(match (bits, from.parse::<usize>(), to.parse::<usize>()) {
        (Some(bits), Ok(from), Ok(to)) => Some(Ask::Each(Trial::ImageTurned {
            bits,
            from,
            to,
            every,
        })),
        _ => None,
    })
}

/// What the words of a line ask of the one that follows.
pub(crate) fn ask_of(alloc: Global, text: &str) -> Result<Option<Ask>, AllocError> {
    if let Some(words) = text.strip_prefix("each byte of the image turned ") {
        return turned_image(alloc, words, 1);
    }
    if let Some(words) = text.strip_prefix("each sector of the image turned ") {
        return turned_image(alloc, words, 512);
    }
    if let Some(bits) = text.strip_prefix("each byte turned ") {
        let bits = bytes_of(alloc, bits)?.and_then(|bits| bits.first().copied());
        return Ok(bits.map(|bits| Ask::Each(Trial::Turned(bits))));
    }
    if let Some(words) = text.strip_prefix("each disk call ") {
        return each_call(alloc, words, Side::Here);
    }
    if let Some(words) = text.strip_prefix("each second disk call ") {
        return each_call(alloc, words, Side::There);
    }
    Ok(match text {
        "each read fails" => Some(each_fails(alloc, End::Input)),
        "each write fails" => Some(each_fails(alloc, End::Output)),
        "each note fails" => Some(Ask::Each(Trial::NoteFails)),
        "each cut" => Some(Ask::Each(Trial::Cut)),
        _ => match text.strip_prefix("at most ") {
            Some(words) => at_most(words),
            None => one_of(text),
        },
    })
}

fn each_fails(alloc: Global, end: End) -> Ask {
    Ask::Each(Trial::Fails {
        end,
        fills: Vec::new(alloc),
    })
}

/// The same for each call of a disk.
fn each_call(alloc: Global, words: &str, side: Side) -> Result<Option<Ask>, AllocError> {
    if words == "stops each way" {
        return Ok(Some(Ask::Each(Trial::DiskStopsEachWay)));
    }
    Ok(match words.split_once(' ') {
        Some(("stops", fills)) => {
            let fills = fills_of(alloc, fills)?;
            Some(Ask::Each(Trial::DiskStops { side, fills }))
        }
        Some(("fails", fills)) => Some(Ask::Each(Trial::Fails {
            end: End::Disk(side),
            fills: fills_of(alloc, fills)?,
        })),
        _ => None,
    })
}

/// The same for how many calls there may be.
fn at_most(words: &str) -> Option<Ask> {
    let (count, what) = words.split_once(' ')?;
    let count = count.parse::<u64>().ok()?;
    match what {
        "calls" => Some(Ask::AtMostCalls(count)),
        "reads" => Some(Ask::AtMostReads(count)),
        _ => None,
    }
}

/// The same for one call.
fn one_of(text: &str) -> Option<Ask> {
    let (what, rest) = match text.split_once("disk call ") {
        Some((which, rest)) => (which, rest),
        None => text.split_once(' ')?,
    };
    let (number, does) = rest.split_once(' ')?;
    let number = number.parse::<u64>().ok()?;
    let end = match what {
        "" => End::Disk(Side::Here),
        "second " => End::Disk(Side::There),
        "read" => End::Input,
        "write" => End::Output,
        "note" => End::Note,
        _ => return None,
    };
    match does {
        "fails" => Some(Ask::Fails(Failing { end, number })),
        "stops 00" => Some(Ask::Stops { number, fill: 0 }),
        "stops ff" => Some(Ask::Stops { number, fill: 0xff }),
        _ => None,
    }
}

impl Trial {
    /// What there is one of for each try.
    fn places(&self) -> &'static str {
        match self {
            Trial::DiskStops { .. } | Trial::DiskStopsEachWay => "stops",
            Trial::Fails { end, .. } => match end {
                End::Disk(_) => "calls",
                End::Input => "reads",
                End::Output | End::Note => "writes",
            },
            Trial::NoteFails => "writes",
            Trial::Cut => "cuts",
            Trial::Turned(_) | Trial::ImageTurned { .. } => "bytes",
        }
    }
}

/// The pools before and after a line that names one image.
fn ends_of(alloc: Global, line: &Line, whole: &mut Answer) -> Result<Option<Ends>, AllocError> {
    Ok(match (&line.image, &line.other) {
        (Some(before), None) => {
            let after = whole.image(alloc, Side::Here)?;
            Some(Ends::new(alloc, before.to_vec(alloc)?, after)?)
        }
        _ => None,
    })
}

/// Tries a line at each place, and tells what came of it.
pub(crate) fn tried(
    alloc: Global,
    line: &Line,
    trial: &Trial,
    whole: &mut Answer,
) -> Result<String, AllocError> {
    if let Some(told) = replayed(alloc, line, trial, whole)? {
        return Ok(told);
    }
    let ends = ends_of(alloc, line, whole)?;
    if let (Trial::DiskStopsEachWay, Some(ends)) = (trial, &ends) {
        return left_each_way(alloc, whole, ends);
    }
    let mut counts = Counts::new(alloc);
    for number in 0..TRIES {
        match one_try(alloc, line, trial, whole, &ends, number)? {
            Some(label) => counts.add(label)?,
            None => break,
        }
    }
    counts.told(alloc, trial.places())
}

/// One try: what came of it, None where there is no such place.
fn one_try(
    alloc: Global,
    line: &Line,
    trial: &Trial,
    whole: &Answer,
    ends: &Option<Ends>,
    number: u64,
) -> Result<Option<String>, AllocError> {
    match trial {
        Trial::DiskStops { fills, .. } => stopped(alloc, whole, ends, number, fills),
        Trial::Fails { end, fills } => {
            let failing = Failing { end: *end, number };
            failed(alloc, line, whole, ends, failing, fills)
        }
        Trial::NoteFails => noted(alloc, line, whole, ends, number),
        Trial::DiskStopsEachWay => Ok(None),
        Trial::ImageTurned {
            bits,
            from,
            to,
            every,
        } => {
            let skipped = number.saturating_mul(*every as u64);
            on_turned_image(alloc, line, whole, *bits, (*from, *to), skipped)
        }
        Trial::Cut | Trial::Turned(_) => given(alloc, line, trial, whole, ends, number),
    }
}

/// How the pools compare that a disk may hold which stopped before the call of this number.
fn standing_of(
    alloc: Global,
    found: &Answer,
    ends: &Option<Ends>,
    number: u64,
    fills: &[u8],
) -> Result<Standing, AllocError> {
    let mut standing = Standing::none();
    if let Some(ends) = ends {
        for fill in fills {
            let image = found.here.stopped(alloc, number, *fill)?;
            standing = standing.or(ends.standing(alloc, &image)?);
        }
    }
    Ok(standing)
}

fn stopped(
    alloc: Global,
    whole: &Answer,
    ends: &Option<Ends>,
    number: u64,
    fills: &[u8],
) -> Result<Option<String>, AllocError> {
    if number > whole.here.calls {
        return Ok(None);
    }
    let mut label = String::new(alloc);
    standing_of(alloc, whole, ends, number, fills)?.add_to(&mut label)?;
    Ok(Some(label))
}

/// A line of which one call fails.
fn failed(
    alloc: Global,
    line: &Line,
    whole: &Answer,
    ends: &Option<Ends>,
    failing: Failing,
    fills: &[u8],
) -> Result<Option<String>, AllocError> {
    let mut found = done(alloc, line, Some(failing))?;
    if found.faults == 0 {
        return Ok(None);
    }
    let mut label = label_of(alloc, whole, &found, failing.number, line)?;
    let mut standing = standing_of(alloc, &found, ends, found.here.calls, fills)?;
    if let Some(ends) = ends {
        let image = found.image(alloc, Side::Here)?;
        standing = standing.or(ends.standing(alloc, &image)?);
    }
    standing.add_to(&mut label)?;
    Ok(Some(label))
}

/// A line whose note fails at a byte.
fn noted(
    alloc: Global,
    line: &Line,
    whole: &Answer,
    ends: &Option<Ends>,
    number: u64,
) -> Result<Option<String>, AllocError> {
    let end = End::Note;
    let mut found = done(alloc, line, Some(Failing { end, number }))?;
    if found.faults == 0 {
        return Ok(None);
    }
    let written = usize::try_from(number).unwrap_or(usize::MAX);
    let is_front = whole
        .note
        .get(..written)
        .is_some_and(|front| front == found.note.as_slice());
    let is_same = found.status == whole.status && found.out == whole.out;
    let told = if is_front && is_same {
        "the note as far as it went"
    } else {
        "another answer"
    };
    let mut label = String::from_str(alloc, told)?;
    if let Some(ends) = ends {
        let image = found.image(alloc, Side::Here)?;
        ends.standing(alloc, &image)?.add_to(&mut label)?;
    }
    Ok(Some(label))
}

/// A line whose input is cut or has a byte turned.
fn given(
    alloc: Global,
    line: &Line,
    trial: &Trial,
    whole: &Answer,
    ends: &Option<Ends>,
    number: u64,
) -> Result<Option<String>, AllocError> {
    let place = usize::try_from(number).unwrap_or(usize::MAX);
    let Some(front) = line.input.get(..place) else {
        return Ok(None);
    };
    if place == line.input.len() {
        return Ok(None);
    }
    let mut input = front.to_vec(alloc)?;
    if let Trial::Turned(bits) = trial {
        input = line.input.to_vec(alloc)?;
        if let Some(byte) = input.get_mut(place) {
            *byte ^= *bits;
        }
    }
    let line = line.with_input(alloc, input)?;
    let mut found = done(alloc, &line, None)?;
    let mut label = label_of(alloc, whole, &found, number, &line)?;
    if let Some(ends) = ends {
        let image = found.image(alloc, Side::Here)?;
        ends.standing(alloc, &image)?.add_to(&mut label)?;
    }
    Ok(Some(label))
}

/// A line on whose image these bits of a byte in a range are turned, behind so many others; None where the range has no such byte.
fn on_turned_image(
    alloc: Global,
    line: &Line,
    whole: &Answer,
    bits: u8,
    (from, to): (usize, usize),
    skipped: u64,
) -> Result<Option<String>, AllocError> {
    let place = usize::try_from(skipped)
        .unwrap_or(usize::MAX)
        .saturating_add(from);
    let Some(image) = &line.image else {
        return Ok(None);
    };
    if place >= to {
        return Ok(None);
    }
    let mut turned = image.to_vec(alloc)?;
    match turned.get_mut(place) {
        Some(byte) => *byte ^= bits,
        None => return Ok(None),
    }
    let line = line.with_image(alloc, turned)?;
    let found = done(alloc, &line, None)?;
    let turned = match &line.image {
        Some(turned) => turned.as_slice(),
        None => &[],
    };
    Ok(Some(damage_label(alloc, whole, &found, image, turned)?))
}
