// What stands between the commands of a pipe: a few words of the shell, and the examples' own for streams and images.

use crate::pipes::{Files, bytes_in};
use crate::places::{MOST, Patch, Way, bytes_of, patches_of, put_all};
use crate::records::{RECORD, compared, seal, sums_of};
use std::alloc::{AllocError, Global};
use std::str;

/// A command that isn't `zst`, over its input: what it gives, None where no command has these words.
pub(crate) fn filtered(
    alloc: Global,
    words: &[String],
    input: Vec<u8>,
    files: &Files,
) -> Result<Option<Vec<u8>>, AllocError> {
    let Some((name, rest)) = words.split_first() else {
        return Ok(None);
    };
    match name.as_str() {
        "cat" => joined(alloc, rest, input, files).map(Some),
        "head" | "tail" | "cut" | "wc" => shortened(alloc, name.as_str(), rest, input, files),
        "zeros" | "payload" | "record" => appended(alloc, name.as_str(), rest, input),
        "set" | "turn" => patched(alloc, name.as_str(), rest, input),
        "seal" => sealed(alloc, rest, input).map(Some),
        "pieces" => Ok(Some(input)),
        "compare" | "sums" => told(alloc, name.as_str(), rest, &input, files),
        _ => Ok(None),
    }
}

/// The bytes of files, one after the other, or the input where none is named.
fn joined(
    alloc: Global,
    names: &[String],
    input: Vec<u8>,
    files: &Files,
) -> Result<Vec<u8>, AllocError> {
    if names.is_empty() {
        return Ok(input);
    }
    let mut bytes = Vec::new(alloc);
    for name in names {
        bytes.extend_from_slice(bytes_in(files, name.as_str()))?;
    }
    Ok(bytes)
}

/// The word at a place.
fn word(words: &[String], place: usize) -> &str {
    match words.get(place) {
        Some(word) => word.as_str(),
        None => "",
    }
}

fn number(text: &str) -> Option<usize> {
    text.parse::<usize>().ok().filter(|number| *number <= MOST)
}

/// The first and last place of a range such as `1-16`, counted from 1.
fn range(text: &str) -> Option<(usize, usize)> {
    let (first, last) = text.split_once('-')?;
    Some((number(first)?, number(last)?))
}

/// A part of the input, or of a file that is named.
fn shortened(
    alloc: Global,
    name: &str,
    rest: &[String],
    input: Vec<u8>,
    files: &Files,
) -> Result<Option<Vec<u8>>, AllocError> {
    let input = match rest.get(2) {
        Some(file) if name != "cut" => bytes_in(files, file.as_str()).to_vec(alloc)?,
        _ => input,
    };
    let text = str::from_utf8(&input).unwrap_or("");
    match (name, word(rest, 0), word(rest, 1)) {
        ("head", "-c", count) => match number(count) {
            Some(count) => input
                .get(..count.min(input.len()))
                .unwrap_or(&[])
                .to_vec(alloc)
                .map(Some),
            None => Ok(None),
        },
        ("head", "-n", count) => lines_in(alloc, text, 0, number(count)),
        ("tail", "-n", count) => {
            let count = number(count);
            let before = text.lines().count().saturating_sub(count.unwrap_or(0));
            lines_in(alloc, text, before, count)
        }
        ("cut", "-c", places) => cut(alloc, text, range(places)),
        ("cut", "-d", "'") => fields(alloc, text, range(word(rest, 4))),
        ("wc", "-c", "") => format!(in alloc; "{}\n", input.len()).map(bytes_of_text),
        _ => Ok(None),
    }
}

fn bytes_of_text(text: String) -> Option<Vec<u8>> {
    Some(text.into_bytes())
}

/// So many lines of a text behind some that are passed over.
fn lines_in(
    alloc: Global,
    text: &str,
    before: usize,
    count: Option<usize>,
) -> Result<Option<Vec<u8>>, AllocError> {
    let Some(count) = count else {
        return Ok(None);
    };
    let mut lines = String::new(alloc);
    for line in text.lines().skip(before).take(count) {
        lines.push_str(line)?;
        lines.push('\n')?;
    }
    Ok(bytes_of_text(lines))
}

/// The letters of each line from one place to another, counted from 1.
fn cut(
    alloc: Global,
    text: &str,
    range: Option<(usize, usize)>,
) -> Result<Option<Vec<u8>>, AllocError> {
    let Some((first, last)) = range else {
        return Ok(None);
    };
    let mut cut = Vec::new(alloc);
    for line in text.lines() {
        let line = line.as_bytes();
        let line = line.get(..last.min(line.len())).unwrap_or(line);
        cut.extend_from_slice(line.get(first.saturating_sub(1)..).unwrap_or(&[]))?;
        cut.push(b'\n')?;
    }
    Ok(Some(cut))
}

/// The words of each line from one place to another, counted from 1.
fn fields(
    alloc: Global,
    text: &str,
    range: Option<(usize, usize)>,
) -> Result<Option<Vec<u8>>, AllocError> {
    let Some((first, last)) = range else {
        return Ok(None);
    };
    let mut cut = String::new(alloc);
    for line in text.lines() {
        fields_of(&mut cut, line, first, last)?;
    }
    Ok(bytes_of_text(cut))
}

fn fields_of(into: &mut String, line: &str, first: usize, last: usize) -> Result<(), AllocError> {
    for (i, word) in line
        .split(' ')
        .take(last)
        .enumerate()
        .skip(first.saturating_sub(1))
    {
        if i >= first {
            into.push(' ')?;
        }
        into.push_str(word)?;
    }
    into.push('\n')
}

/// The input with more behind it: bytes that are zero, a payload, or a record.
fn appended(
    alloc: Global,
    name: &str,
    rest: &[String],
    mut input: Vec<u8>,
) -> Result<Option<Vec<u8>>, AllocError> {
    let more = match name {
        "record" => record_of(alloc, rest)?,
        "payload" => payload_of(alloc, number(word(rest, 0)), word(rest, 1))?,
        _ => zeros(alloc, number(word(rest, 0)))?,
    };
    let Some(more) = more else {
        return Ok(None);
    };
    input.extend_from_slice(&more)?;
    Ok(Some(input))
}

/// So many bytes that are zero.
fn zeros(alloc: Global, count: Option<usize>) -> Result<Option<Vec<u8>>, AllocError> {
    Ok(match count {
        Some(count) => Some(vec![in alloc; 0; count]?),
        None => None,
    })
}

/// A record that is zero but for what words say.
fn record_of(alloc: Global, words: &[String]) -> Result<Option<Vec<u8>>, AllocError> {
    let mut record = vec![in alloc; 0; RECORD]?;
    Ok(patches_of(alloc, words)?.map(|patches| {
        put_all(&patches, &mut record, Way::Set);
        record
    }))
}

/// A payload of so many bytes: the numbers from 0 to 250 over and over, or these bytes and then zeros.
fn payload_of(
    alloc: Global,
    count: Option<usize>,
    form: &str,
) -> Result<Option<Vec<u8>>, AllocError> {
    let Some(mut payload) = zeros(alloc, count)? else {
        return Ok(None);
    };
    if form == "counted" {
        for (i, byte) in payload.iter_mut().enumerate() {
            *byte = (i % 251) as u8;
        }
        return Ok(Some(payload));
    }
    Ok(bytes_of(alloc, form)?.map(|bytes| {
        put_all(&[Patch::front(bytes)], &mut payload, Way::Set);
        payload
    }))
}

/// The input with other bytes at some places.
fn patched(
    alloc: Global,
    name: &str,
    rest: &[String],
    mut input: Vec<u8>,
) -> Result<Option<Vec<u8>>, AllocError> {
    let way = if name == "set" { Way::Set } else { Way::Turn };
    Ok(patches_of(alloc, rest)?.map(|patches| {
        put_all(&patches, &mut input, way);
        input
    }))
}

/// The input with right sums: in each of its records, or behind the bytes that are named.
fn sealed(alloc: Global, rest: &[String], mut input: Vec<u8>) -> Result<Vec<u8>, AllocError> {
    match (number(word(rest, 0)), number(word(rest, 1))) {
        (Some(from), Some(to)) => {
            let sums = sums_of(&input, from, to);
            sums.put(&mut input, to);
        }
        _ => seal(alloc, &mut input)?,
    }
    Ok(input)
}

/// What is told of the input, of it and a file, or of two files.
fn told(
    alloc: Global,
    name: &str,
    rest: &[String],
    input: &[u8],
    files: &Files,
) -> Result<Option<Vec<u8>>, AllocError> {
    if name == "compare" {
        let other = match rest.get(1) {
            Some(other) => files.get(other.as_str()).map(|bytes| bytes.as_slice()),
            None => Some(input),
        };
        return match (files.get(word(rest, 0)), other) {
            (Some(one), Some(other)) => compared(alloc, one, other).map(bytes_of_text),
            _ => Ok(None),
        };
    }
    match (number(word(rest, 0)), number(word(rest, 1))) {
        (Some(from), Some(to)) => {
            format!(in alloc; "{}\n", sums_of(input, from, to)).map(bytes_of_text)
        }
        _ => Ok(None),
    }
}
