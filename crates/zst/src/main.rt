//! OpenZFS send streams: the program `zst`.
#![tactic(auto)]

ghost use Rattle.std.specs.Prelude.{◌≡◌, []};
ghost use Rattle.zst_file.specs.FileDisk.{history_of};

use std::env::{self, Env};
use std::io::{self, Stderr, Stdin, Stdout, Write};
use std::process::ExitCode;
use std::str;
use std::time::{SystemTime, UNIX_EPOCH};
use zst_file::{FileDisk, Input, Output, Start, UnknownStart};
use zst_outside::SureDisk;
use zst_run::{OpenMode, Opening, open, opening_of, run, run_on_file, run_on_files};

/// The status where a file can't be opened.
const CANNOT_OPEN: u8 = 11;

/// The status where no memory is left (E32).
const NO_MEMORY: u8 = 10;

/// The status where a word is none (E1).
const NO_WORD: u8 = 2;

/// No word that the system hands on is longer, in bytes (MAX_ARG_STRLEN of linux/binfmts.h).
const LONGEST_WORD: usize = 131_072;

/// The words of the command line, the time, and the standard streams, of which nothing was read or written yet: all that a
/// run takes before its images are opened, so that want of memory for it leaves no image changed or made.
#[derive(Drop)]
struct Invocation {
    words: Vec<String>,
    now: u64,
    input: Input<Stdin>,
    out: Output<Stdout>,
    note: Output<Stderr>,
}

impl Invocation {
    fn new(rt: &HostRuntime) -> io::Result<Invocation> {
        let alloc = rt.alloc();
        Ok(Invocation {
            words: env::args(rt)?.skip(1).collect(alloc)?,
            now: seconds(rt)?,
            input: Input::new(rt.stdin()),
            out: Output::new(alloc, rt.stdout())?,
            note: Output::new(alloc, rt.stderr())?,
        })
    }
}

/// The seconds since 1970, 0 where the clock stands before that.
fn seconds(rt: &HostRuntime) -> io::Result<u64> {
    let now = SystemTime::now(rt)?;
    Ok(match now.duration_since(UNIX_EPOCH) {
        Ok(since) => since.as_secs(),
        Err(_) => 0,
    })
}

/// Runs the words over this image, which was just opened, and the standard streams.
fn run_over_file<F: Start>(
    rt: &HostRuntime,
    asked: &mut Invocation,
    here: &mut FileDisk<F>,
) -> ExitCode
    requires { history_of here.old ≡ [] }
{
    let mut there = SureDisk::new(Vec::new(rt.alloc()));
    ExitCode::from(run_on_file(
        rt.alloc(),
        &asked.words,
        asked.now,
        here,
        &mut there,
        &mut asked.input,
        &mut asked.out,
        &mut asked.note,
    ))
}

/// Runs the words over these two images, which were just opened, and the standard streams.
fn run_over_files<F: Start, G: Start>(
    rt: &HostRuntime,
    asked: &mut Invocation,
    here: &mut FileDisk<F>,
    there: &mut FileDisk<G>,
) -> ExitCode
    requires here { history_of here.old ≡ [] }
    requires there { history_of there.old ≡ [] }
{
    ExitCode::from(run_on_files(
        rt.alloc(),
        &asked.words,
        asked.now,
        here,
        there,
        &mut asked.input,
        &mut asked.out,
        &mut asked.note,
    ))
}

/// Runs words that name no image over the standard streams.
fn run_over_none(rt: &HostRuntime, asked: &mut Invocation) -> ExitCode {
    let mut here = SureDisk::new(Vec::new(rt.alloc()));
    let mut there = SureDisk::new(Vec::new(rt.alloc()));
    ExitCode::from(run(
        rt.alloc(),
        &asked.words,
        asked.now,
        &mut here,
        &mut there,
        &mut asked.input,
        &mut asked.out,
        &mut asked.note,
    ))
}

/// Opens the image that the words name, and runs them over it.
fn run_over_one(
    rt: &HostRuntime,
    asked: &mut Invocation,
    path: &str,
    mode: OpenMode,
) -> io::Result<ExitCode> {
    match open(rt, path, mode, UnknownStart) {
        Ok(mut disk) => Ok(run_over_file(rt, asked, &mut disk)),
        Err(error) => cannot_open(rt, error),
    }
}

/// Opens the two images that the words name, the first one first, and runs them over both. Where they are one file, the
/// second can't be locked.
fn run_over_two(
    rt: &HostRuntime,
    asked: &mut Invocation,
    here: &str,
    there: &str,
) -> io::Result<ExitCode> {
    let mut first = match open(rt, here, OpenMode::Alone, UnknownStart) {
        Ok(disk) => disk,
        Err(error) => return cannot_open(rt, error),
    };
    match open(rt, there, OpenMode::Alone, UnknownStart) {
        Ok(mut second) => Ok(run_over_files(rt, asked, &mut first, &mut second)),
        Err(error) => cannot_open(rt, error),
    }
}

/// The place of the first word that isn't UTF-8, as E1 counts words: the program's name isn't one.
fn place_of_no_text(rt: &HostRuntime) -> io::Result<usize> {
    let mut bytes = vec![in rt.alloc(); 0; LONGEST_WORD]?;
    for place in 0..LONGEST_WORD {
        match rt.arg(place + 1, &mut bytes) {
            Ok(count) if str::from_utf8(&bytes[..count]).is_err() => return Ok(place),
            Ok(_) => {}
            Err(_) => return Ok(place),
        }
    }
    Ok(LONGEST_WORD)
}

/// Notes that a word isn't UTF-8, and so is none of a line (E1).
fn no_text(rt: &HostRuntime) -> io::Result<ExitCode> {
    let place = place_of_no_text(rt)?;
    eprintln!(rt; "zst: E1 usage: {place}")?;
    Ok(ExitCode::from(NO_WORD))
}

/// Runs the words of the command line.
fn run_words(rt: &HostRuntime) -> io::Result<ExitCode> {
    let mut asked = match Invocation::new(rt) {
        Ok(asked) => asked,
        Err(error) if error.kind() == io::ErrorKind::InvalidData => return no_text(rt),
        Err(error) => return Err(error),
    };
    match opening_of(rt.alloc(), &asked.words)? {
        None => Ok(run_over_none(rt, &mut asked)),
        Some(Opening::One(path, mode)) => run_over_one(rt, &mut asked, path.as_str(), mode),
        Some(Opening::Two { here, there }) => {
            run_over_two(rt, &mut asked, here.as_str(), there.as_str())
        }
    }
}

/// Notes that an image can't be opened, unless no memory was left for that.
fn cannot_open(rt: &HostRuntime, error: io::Error) -> io::Result<ExitCode> {
    if error.kind() == io::ErrorKind::OutOfMemory {
        return Err(error);
    }
    let _ = rt.stderr().write_all(b"zst: cannot open\n");
    Ok(ExitCode::from(CANNOT_OPEN))
}

fn main(rt: HostRuntime) -> io::Result<ExitCode> {
    match run_words(&rt) {
        // before an image was opened: behind that a run tells it itself
        Err(error) if error.kind() == io::ErrorKind::OutOfMemory => {
            let _ = rt.stderr().write_all(b"zst: E32 no memory\n");
            Ok(ExitCode::from(NO_MEMORY))
        }
        other => other,
    }
}
