// The words of a line, and the files that it names.

use std::alloc::{AllocError, Global};
use std::collections::BTreeMap;
use std::str;

/// The images and streams of an example, by name.
pub(crate) type Files = BTreeMap<String, Vec<u8>>;

/// One command of a pipe: its words, and the files that it takes its input from and gives its output to.
#[derive(Drop)]
pub(crate) struct Stage {
    pub(crate) words: Vec<String>,
    pub(crate) from: Option<String>,
    /// Whether its input is the text below the line.
    pub(crate) takes_text: bool,
    pub(crate) to: Option<String>,
}

/// The bytes of a file, none where it isn't there.
pub(crate) fn bytes_in<'a>(files: &'a Files, name: &str) -> &'a [u8] {
    match files.get(name) {
        Some(bytes) => bytes,
        None => &[],
    }
}

/// What stands for `$(cat NAME)`, the text of a file without the ends of its last lines, or for `$(repeat WORD N)`.
fn answer_of(alloc: Global, asked: &str, files: &Files) -> Result<String, AllocError> {
    let mut words = asked.split(' ');
    match (words.next(), words.next(), words.next()) {
        (Some("cat"), Some(name), None) => {
            let text = str::from_utf8(bytes_in(files, name)).unwrap_or("");
            String::from_str(alloc, text.trim_end())
        }
        (Some("repeat"), Some(word), Some(count)) => {
            let count = count.parse::<usize>().unwrap_or(0).min(1 << 20);
            let mut text = String::new(alloc);
            for _ in 0..count {
                text.push_str(word)?;
            }
            Ok(text)
        }
        _ => Ok(String::new(alloc)),
    }
}

/// A line in which each `$(..)` is what it stands for.
fn substituted(alloc: Global, line: &str, files: &Files) -> Result<String, AllocError> {
    let mut text = String::new(alloc);
    for (place, part) in line.split("$(").enumerate() {
        match part.split_once(')') {
            Some((asked, rest)) if place > 0 => {
                text.push_str(answer_of(alloc, asked, files)?.as_str())?;
                text.push_str(rest)?;
            }
            _ => text.push_str(part)?,
        }
    }
    Ok(text)
}

/// A word without the quotes round it.
fn unquoted(word: &str) -> &str {
    word.strip_prefix('"')
        .and_then(|word| word.strip_suffix('"'))
        .unwrap_or(word)
}

/// The command that stands between two bars.
fn stage_of(alloc: Global, text: &str) -> Result<Stage, AllocError> {
    let mut stage = Stage {
        words: Vec::new(alloc),
        from: None,
        takes_text: false,
        to: None,
    };
    for word in text.split(' ') {
        if word.starts_with("<<") {
            stage.takes_text = true;
        } else if let Some(name) = word.strip_prefix('<') {
            stage.from = Some(String::from_str(alloc, name)?);
        } else if let Some(name) = word.strip_prefix('>') {
            stage.to = Some(String::from_str(alloc, name)?);
        } else if !word.is_empty() {
            stage.words.push(String::from_str(alloc, unquoted(word))?)?;
        }
    }
    Ok(stage)
}

/// The commands of a line, in their order.
pub(crate) fn stages_of(
    alloc: Global,
    line: &str,
    files: &Files,
) -> Result<Vec<Stage>, AllocError> {
    let line = substituted(alloc, line, files)?;
    let mut stages = Vec::new(alloc);
    for part in line.as_str().split('|') {
        stages.push(stage_of(alloc, part)?)?;
    }
    Ok(stages)
}
