// What an image holds: its pool as the program itself tells it.

use crate::calls::{Answer, Line, done};
use std::alloc::{AllocError, Global};
use std::str;

/// The first blocks of each object are looked at, so many of them.
const BLOCKS: u64 = 8;

/// What the pool of an image says of itself.
#[derive(Drop, PartialEq, Eq)]
pub(crate) struct Pool {
    /// What a command that is to be next is answered, which has the pool's number.
    number: Vec<u8>,
    /// Its rows, the objects of each dataset and snapshot, and the first blocks of each object.
    rows: Vec<u8>,
}

/// How pools compare with those before and after a line: whether some of them stand so.
#[derive(Clone, Copy)]
pub(crate) struct Standing {
    before: bool,
    /// It has all that it had before, and another number.
    renumbered: bool,
    after: bool,
    other: bool,
}

impl Standing {
    pub(crate) fn none() -> Standing {
        Standing {
            before: false,
            renumbered: false,
            after: false,
            other: false,
        }
    }

    /// How the pools of both compare.
    pub(crate) fn or(self, other: Standing) -> Standing {
        Standing {
            before: self.before || other.before,
            renumbered: self.renumbered || other.renumbered,
            after: self.after || other.after,
            other: self.other || other.other,
        }
    }

    /// The words for it, behind what else is told.
    pub(crate) fn add_to(self, text: &mut String) -> Result<(), AllocError> {
        let mut between = if text.is_empty() { "" } else { ", " };
        for (holds, words) in [
            (self.before, "as before"),
            (self.renumbered, "as before but for its number"),
            (self.after, "as after"),
            (self.other, "otherwise"),
        ] {
            if holds {
                text.push_str(between)?;
                text.push_str(words)?;
                between = " or ";
            }
        }
        Ok(())
    }
}

fn line_on(alloc: Global, image: &[u8], text: &str) -> Result<Line, AllocError> {
    let mut words = Vec::new(alloc);
    for word in text.split(' ') {
        words.push(String::from_str(alloc, word)?)?;
    }
    Ok(Line {
        words,
        image: Some(image.to_vec(alloc)?),
        other: None,
        input: Vec::new(alloc),
        pieces: (usize::MAX, usize::MAX),
    })
}

/// Whether an image has a pool that opens.
pub(crate) fn opens(alloc: Global, image: &[u8]) -> Result<bool, AllocError> {
    let line = line_on(alloc, image, "list I")?;
    Ok(done(alloc, &line, None)?.status == 0)
}

/// What a line that only answers says of an image.
fn asked(alloc: Global, image: &[u8], text: &str) -> Result<Vec<u8>, AllocError> {
    let line = line_on(alloc, image, text)?;
    let Answer { mut out, note, .. } = done(alloc, &line, None)?;
    out.extend_from_slice(&note)?;
    Ok(out)
}

fn add_blocks(
    alloc: Global,
    image: &[u8],
    name: &str,
    object: &str,
    rows: &mut Vec<u8>,
) -> Result<(), AllocError> {
    for index in 0..BLOCKS {
        let text = format!(in alloc; "read I {name} {object} {index}")?;
        rows.extend_from_slice(&asked(alloc, image, text.as_str())?)?;
    }
    Ok(())
}

fn add_objects(
    alloc: Global,
    image: &[u8],
    name: &str,
    rows: &mut Vec<u8>,
) -> Result<(), AllocError> {
    let text = format!(in alloc; "list I {name}")?;
    let objects = asked(alloc, image, text.as_str())?;
    rows.extend_from_slice(&objects)?;
    for line in str::from_utf8(&objects).unwrap_or("").lines() {
        if let Some(object) = line
            .strip_prefix("object ")
            .and_then(|rest| rest.split(' ').next())
        {
            add_blocks(alloc, image, name, object, rows)?;
        }
    }
    Ok(())
}

/// The name of a dataset or a snapshot in a line of a list.
fn named(line: &str) -> Option<&str> {
    let (kind, rest) = line.split_once(' ')?;
    match kind {
        "fs" | "volume" | "snapshot" => rest.split(' ').next(),
        _ => None,
    }
}

/// What the pool of an image says of itself.
pub(crate) fn pool_of(alloc: Global, image: &[u8]) -> Result<Pool, AllocError> {
    let number = asked(alloc, image, "fs I zz/next")?;
    let list = asked(alloc, image, "list I")?;
    let mut rows = list.clone()?;
    for line in str::from_utf8(&list).unwrap_or("").lines() {
        if let Some(name) = named(line) {
            add_objects(alloc, image, name, &mut rows)?;
        }
    }
    Ok(Pool { number, rows })
}

/// The images before and after a line, and what their pools say.
#[derive(Drop)]
pub(crate) struct Ends {
    before: Vec<u8>,
    after: Vec<u8>,
    pools: (Pool, Pool),
}

impl Ends {
    pub(crate) fn new(alloc: Global, before: Vec<u8>, after: Vec<u8>) -> Result<Ends, AllocError> {
        let pools = (pool_of(alloc, &before)?, pool_of(alloc, &after)?);
        Ok(Ends {
            before,
            after,
            pools,
        })
    }

    /// The image after the line.
    pub(crate) fn after(&self) -> &[u8] {
        &self.after
    }

    /// How the pool of an image compares with both.
    pub(crate) fn standing(&self, alloc: Global, image: &[u8]) -> Result<Standing, AllocError> {
        let (first, last) = &self.pools;
        let mut standing = Standing::none();
        if image == self.before.as_slice() {
            standing.before = true;
            return Ok(standing);
        }
        let found = pool_of(alloc, image)?;
        if found == *first {
            standing.before = true;
        } else if found == *last {
            standing.after = true;
        } else if found.rows == first.rows {
            standing.renumbered = true;
        } else {
            standing.other = true;
        }
        Ok(standing)
    }
}
