// A session: the lines of an example one after the other, over its images and streams.

use crate::calls::{Answer, Failing, Line, Side, done};
use crate::documents::Document;
use crate::filters::filtered;
use crate::pipes::{Files, Stage, bytes_in, stages_of};
use crate::trials::{Ask, tried};
use crate::{UNREAD, trials};
use std::alloc::{AllocError, Global};
use std::collections::BTreeMap;
use std::{mem, str};
use zst_run::{OpenMode, Opening, opening_of};

/// What the program says where an image can't be opened, and its status then.
const CANNOT_OPEN: &str = "zst: cannot open\n(status 11)\n";

/// The most bytes of an image that is made.
const LARGEST: u64 = 1 << 26;

#[derive(Drop)]
pub(crate) struct Session {
    alloc: Global,
    files: Files,
    /// What is asked of the line that follows.
    ask: Option<Ask>,
    /// The line so far, where it goes on in the next one.
    begun: String,
    /// The text below that line so far, where it takes one.
    document: Option<Document>,
    /// What is to be printed.
    told: String,
}

/// What a pipe hands on, and what it told beside.
#[derive(Drop)]
struct Handed {
    bytes: Vec<u8>,
    notes: String,
}

impl Session {
    pub(crate) fn new(alloc: Global) -> Session {
        Session {
            alloc,
            files: BTreeMap::new(alloc),
            ask: None,
            begun: String::new(alloc),
            document: None,
            told: String::new(alloc),
        }
    }

    /// What the last line is answered.
    pub(crate) fn told(&self) -> &str {
        self.told.as_str()
    }

    /// Nothing is to be printed.
    pub(crate) fn forget(&mut self) {
        self.told.clear();
    }

    /// Takes a line.
    pub(crate) fn take(&mut self, line: &str) -> Result<(), AllocError> {
        let alloc = self.alloc;
        self.told.push_str(line)?;
        self.told.push('\n')?;
        match self.document.take() {
            Some(document) => self.read_on(alloc, document, line),
            None => self.take_own(alloc, line),
        }
    }

    /// Takes a line that stands in no text: a comment begins an example, of which nothing is there yet.
    fn take_own(&mut self, alloc: Global, line: &str) -> Result<(), AllocError> {
        if line.starts_with("# ") {
            self.files.clear();
            self.ask = None;
            Ok(())
        } else if let Some(asked) = line.strip_prefix("% ") {
            self.ask = trials::ask_of(alloc, asked)?;
            if self.ask.is_none() {
                self.told.push_str(UNREAD)?;
            }
            Ok(())
        } else if let Some(more) = line.strip_prefix("$ ").or(line.strip_prefix("> ")) {
            self.go_on(alloc, more)
        } else if line.is_empty() {
            Ok(())
        } else {
            self.told.push_str(UNREAD)
        }
    }

    /// Takes a line of the text below a line, and does that line where the text ends there.
    fn read_on(
        &mut self,
        alloc: Global,
        mut document: Document,
        line: &str,
    ) -> Result<(), AllocError> {
        if document.ends_at(line) {
            return self.finish(alloc, document.text());
        }
        document.add(line)?;
        self.document = Some(document);
        Ok(())
    }

    /// Takes a part of a line, and does the line where it ends there and takes no text below it.
    fn go_on(&mut self, alloc: Global, more: &str) -> Result<(), AllocError> {
        self.begun.push_str(more)?;
        if more.ends_with('|') {
            return self.begun.push(' ');
        }
        self.document = Document::begun_by(alloc, self.begun.as_str())?;
        if self.document.is_some() {
            return Ok(());
        }
        self.finish(alloc, "")
    }

    /// Does the line that was begun, over the text below it.
    fn finish(&mut self, alloc: Global, text: &str) -> Result<(), AllocError> {
        let line = self.begun.clone()?;
        self.begun.clear();
        let stages = stages_of(alloc, line.as_str(), &self.files)?;
        self.pipe(alloc, &stages, text)
    }

    /// Does the commands of a pipe, each with what the one before it gave. What is asked is asked of its last `zst`.
    fn pipe(&mut self, alloc: Global, stages: &[Stage], text: &str) -> Result<(), AllocError> {
        let (ask, none) = (self.ask.take(), None);
        let last = stages.iter().rposition(is_zst);
        let mut handed = Handed {
            bytes: Vec::new(alloc),
            notes: String::new(alloc),
        };
        for (i, stage) in stages.iter().enumerate() {
            if let Some(name) = &stage.from {
                handed.bytes = bytes_in(&self.files, name.as_str()).to_vec(alloc)?;
            }
            if stage.takes_text {
                handed.bytes = text.as_bytes().to_vec(alloc)?;
            }
            let asked = if last == Some(i) { &ask } else { &none };
            handed = self.command(alloc, stage, handed, pieces_at(stages, i), asked)?;
            if let Some(name) = &stage.to {
                let bytes = mem::replace(&mut handed.bytes, Vec::new(alloc));
                self.files.insert(name.clone()?, bytes)?;
            }
        }
        self.tell(alloc, &handed)
    }

    /// Prints what a pipe gave.
    fn tell(&mut self, alloc: Global, handed: &Handed) -> Result<(), AllocError> {
        match str::from_utf8(&handed.bytes) {
            Ok(text) => self.told.push_str(text)?,
            Err(_) => {
                let count = handed.bytes.len();
                self.told
                    .push_str(format!(in alloc; "({count} bytes)\n")?.as_str())?;
            }
        }
        self.told.push_str(handed.notes.as_str())
    }

    /// Does one command of a pipe.
    fn command(
        &mut self,
        alloc: Global,
        stage: &Stage,
        handed: Handed,
        pieces: (usize, usize),
        ask: &Option<Ask>,
    ) -> Result<Handed, AllocError> {
        if is_zst(stage) {
            let words = words_behind(alloc, &stage.words)?;
            return self.zst(alloc, words, handed, pieces, ask);
        }
        let Handed { bytes, mut notes } = handed;
        match filtered(alloc, &stage.words, bytes, &self.files)? {
            Some(bytes) => Ok(Handed { bytes, notes }),
            None => {
                notes.push_str(UNREAD)?;
                let bytes = Vec::new(alloc);
                Ok(Handed { bytes, notes })
            }
        }
    }

    /// Whether an image is there, with zeros for it where the line makes it.
    fn finds(&mut self, alloc: Global, name: &str, mode: OpenMode) -> Result<bool, AllocError> {
        if self.files.contains_key(name) {
            return Ok(true);
        }
        match mode {
            OpenMode::Made { bytes } if bytes <= LARGEST => {
                let zeros = vec![in alloc; 0; bytes as usize]?;
                self.files.insert(String::from_str(alloc, name)?, zeros)?;
                Ok(true)
            }
            _ => Ok(false),
        }
    }

    /// The names of the images of a line, None where one can't be opened: it isn't there, or it is both, and the second can't be
    /// locked.
    fn images_of(
        &mut self,
        alloc: Global,
        words: &[String],
    ) -> Result<Option<Vec<String>>, AllocError> {
        let mut names = Vec::new(alloc);
        let is_found = match opening_of(alloc, words)? {
            None => true,
            Some(Opening::One(path, mode)) => {
                names.push(String::from_str(alloc, path.as_str())?)?;
                self.finds(alloc, path.as_str(), mode)?
            }
            Some(Opening::Two { here, there }) => {
                names.push(String::from_str(alloc, here.as_str())?)?;
                names.push(String::from_str(alloc, there.as_str())?)?;
                here.as_str() != there.as_str()
                    && self.files.contains_key(here.as_str())
                    && self.files.contains_key(there.as_str())
            }
        };
        Ok(if is_found { Some(names) } else { None })
    }

    /// The bytes of the image of a line at a place among those that it names.
    fn image_at(
        &self,
        alloc: Global,
        names: &[String],
        place: usize,
    ) -> Result<Option<Vec<u8>>, AllocError> {
        Ok(match names.get(place) {
            Some(name) => Some(bytes_in(&self.files, name.as_str()).to_vec(alloc)?),
            None => None,
        })
    }

    /// Keeps what stands on the images of a line, the first one first, and tells which of them it wrote to.
    fn keep(
        &mut self,
        alloc: Global,
        names: Vec<String>,
        left: Vec<Vec<u8>>,
    ) -> Result<String, AllocError> {
        let mut written = String::new(alloc);
        for (name, image) in names.into_iter().zip(left) {
            if bytes_in(&self.files, name.as_str()) != image.as_slice() {
                if !written.is_empty() {
                    written.push_str(" and ")?;
                }
                written.push_str(name.as_str())?;
            }
            self.files.insert(name, image)?;
        }
        Ok(written)
    }

    /// Does a line of `zst`.
    fn zst(
        &mut self,
        alloc: Global,
        words: Vec<String>,
        handed: Handed,
        pieces: (usize, usize),
        ask: &Option<Ask>,
    ) -> Result<Handed, AllocError> {
        let Handed { bytes, mut notes } = handed;
        let Some(names) = self.images_of(alloc, &words)? else {
            notes.push_str(CANNOT_OPEN)?;
            let bytes = Vec::new(alloc);
            return Ok(Handed { bytes, notes });
        };
        let line = Line {
            words,
            image: self.image_at(alloc, &names, 0)?,
            other: self.image_at(alloc, &names, 1)?,
            input: bytes,
            pieces,
        };
        let mut answer = done(alloc, &line, failing_of(ask))?;
        let left = left_of(alloc, &mut answer, ask)?;
        let written = self.keep(alloc, names, left)?;
        add_note(alloc, &mut notes, &mut answer, ask)?;
        add_status(alloc, &mut notes, &answer, written.as_str())?;
        add_asked(alloc, &mut notes, &line, ask, &mut answer)?;
        let bytes = answer.out;
        Ok(Handed { bytes, notes })
    }
}

/// The call that is to fail.
fn failing_of(ask: &Option<Ask>) -> Option<Failing> {
    match ask {
        Some(Ask::Fails(failing)) => Some(*failing),
        _ => None,
    }
}

/// What the disks hold behind a line.
fn left_of(
    alloc: Global,
    answer: &mut Answer,
    ask: &Option<Ask>,
) -> Result<Vec<Vec<u8>>, AllocError> {
    let mut left = Vec::new(alloc);
    left.push(match ask {
        Some(Ask::Stops { number, fill }) => answer.here.stopped(alloc, *number, *fill)?,
        _ => answer.image(alloc, Side::Here)?,
    })?;
    left.push(answer.image(alloc, Side::There)?)?;
    Ok(left)
}

/// Tells what goes to standard error. A line whose disk stopped says nothing but that.
fn add_note(
    alloc: Global,
    notes: &mut String,
    answer: &mut Answer,
    ask: &Option<Ask>,
) -> Result<(), AllocError> {
    match ask {
        Some(Ask::Stops { number, .. }) => {
            answer.out.clear();
            notes.push_str(format!(in alloc; "(stopped at call {number})\n")?.as_str())
        }
        _ => notes.push_str(answer.note()),
    }
}

/// Whether a command is a line of `zst`.
fn is_zst(stage: &Stage) -> bool {
    stage
        .words
        .first()
        .is_some_and(|name| name.as_str() == "zst")
}

/// The words behind the first one.
fn words_behind(alloc: Global, words: &[String]) -> Result<Vec<String>, AllocError> {
    let mut behind = Vec::new(alloc);
    for word in words.iter().skip(1) {
        behind.push(word.clone()?)?;
    }
    Ok(behind)
}

/// The size of the pieces in which the command at a place reads, and in which what it writes is taken.
fn pieces_at(stages: &[Stage], place: usize) -> (usize, usize) {
    let before = place.checked_sub(1).and_then(|place| stages.get(place));
    let behind = stages.get(place.saturating_add(1));
    (piece_of(before), piece_of(behind))
}

/// The size of the pieces that a command asks for.
fn piece_of(stage: Option<&Stage>) -> usize {
    let words = match stage {
        Some(stage) => stage.words.as_slice(),
        None => &[],
    };
    match words {
        [name, size] if name.as_str() == "pieces" => {
            size.as_str().parse::<usize>().unwrap_or(usize::MAX)
        }
        _ => usize::MAX,
    }
}

/// Whether a line is told as done, so that nothing need be said of what it wrote.
fn is_told(answer: &Answer) -> bool {
    answer.out.starts_with(b"ok ")
        || answer.out.starts_with(b"received ")
        || answer.out.starts_with(b"gen ")
}

/// Tells a status other than 0, and the images that were written to by a line that isn't told as done.
fn add_status(
    alloc: Global,
    notes: &mut String,
    answer: &Answer,
    written: &str,
) -> Result<(), AllocError> {
    let status = answer.status;
    let were = if written.contains(" ") { "were" } else { "was" };
    let text = if !written.is_empty() && !is_told(answer) {
        format!(in alloc; "(status {status}, {written} {were} written to)\n")?
    } else if status > 0 {
        format!(in alloc; "(status {status})\n")?
    } else {
        String::new(alloc)
    };
    notes.push_str(text.as_str())
}

/// Tells what was asked of a line.
fn add_asked(
    alloc: Global,
    notes: &mut String,
    line: &Line,
    ask: &Option<Ask>,
    answer: &mut Answer,
) -> Result<(), AllocError> {
    let text = match ask {
        Some(Ask::Each(trial)) => tried(alloc, line, trial, answer)?,
        Some(Ask::AtMostCalls(most)) => bounded(alloc, answer.here.calls, *most, "calls")?,
        Some(Ask::AtMostReads(most)) => bounded(alloc, answer.here.reads() as u64, *most, "reads")?,
        _ => String::new(alloc),
    };
    notes.push_str(text.as_str())
}

fn bounded(alloc: Global, count: u64, most: u64, what: &str) -> Result<String, AllocError> {
    if count <= most {
        format!(in alloc; "at most {most} {what}\n")
    } else {
        format!(in alloc; "{count} {what}\n")
    }
}
