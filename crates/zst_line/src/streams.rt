//! What the words of the lines on streams, and those with options, say that fit their places.
ghost use Rattle.std.specs.Prelude.{◌≡◌, ◌∷◌, [], None, length, map, codes, string_bytes, false, true, All, IfOk, IfSome, option_map};
ghost use Rattle.std.specs.List.{AllZip};
ghost use Rattle.zst_line.specs.Grammar.{named, places_behind, places_of, goes_on, bookmark, snapshot, snapshot_or_bookmark};
ghost use Rattle.zst_line.specs.WordFaults.{Takes};
ghost use Rattle.zst_line.specs.Line.{LineIs, first_of, name_of, value_behind};
ghost use Rattle.zst_line.specs.declared.word_slot.WordSlot.TheVariants as slots;

use crate::kind::Kind;
use crate::line::Line;
use crate::options::stands_in;
use crate::word_values::{bookmark, name, snapshot, text, token};
use std::alloc::{AllocError, Global};
use zst_model::{Command, Name, Snapshots};
use zst_names::{BookName, SnapName};

fn first_of(words: &[String]) -> Option<&str>
    ensures { option_map (λ word. word.now) result ≡ first_of (map string_bytes words.now) }
{
    match words {
        [first, ..] => Some(first.as_str()),
        [] => None,
    }
}

/// The word behind an option.
fn value_behind<'a>(words: &'a [String], option: &str) -> Option<&'a str>
    ensures { option_map (λ word. word.now) result ≡ value_behind option.now (map string_bytes words.now) }
{
    for (index, word) in words.iter().enumerate() {
        if word.as_str() == option {
            return first_of(&words[index + 1..]);
        }
    }
    None
}

/// The name behind an option that a stream may begin from.
fn name_behind(words: &[String], option: &str) -> Option<Name>
    requires { IfSome (value_behind option.now (map string_bytes words.now)) (Takes (slots.Name snapshot_or_bookmark)) }
    ensures { result ≡ option_map name_of (value_behind option.now (map string_bytes words.now)) }
{
    let word = value_behind(words, option)?;
    Some(name(word))
}

/// The bookmark behind an option.
fn bookmark_behind(words: &[String], option: &str) -> Option<BookName>
    requires { IfSome (value_behind option.now (map string_bytes words.now)) (Takes (slots.Name bookmark)) }
    ensures { result ≡ value_behind option.now (map string_bytes words.now) }
{
    let word = value_behind(words, option)?;
    Some(bookmark(word))
}

/// The snapshot behind an option.
fn snapshot_behind(words: &[String], option: &str) -> Option<SnapName>
    requires { IfSome (value_behind option.now (map string_bytes words.now)) (Takes (slots.Name snapshot)) }
    ensures { result ≡ value_behind option.now (map string_bytes words.now) }
{
    let word = value_behind(words, option)?;
    Some(snapshot(word))
}

pub fn rollback(alloc: Global, words: &[String]) -> Result<Line, AllocError>
    requires { AllZip Takes (places_behind Kind.Rollback [] None (map string_bytes words.now)) (map string_bytes words.now) }
    ensures { IfOk result (λ line. LineIs line (codes "rollback" ∷ map string_bytes words.now)) }
{
    let [.., image, name] = words else {
        unreachable!()
    };
    Ok(Line::Step {
        image: text(alloc, image.as_str())?,
        command: Command::Rollback {
            destroys: stands_in(words, "-r"),
            snapshot: snapshot(name.as_str()),
        },
    })
}

/// The names of snapshots that words are known to be.
fn snapshots(alloc: Global, words: &[String]) -> Result<Snapshots, AllocError>
    requires { All (Takes (slots.Name snapshot)) (map string_bytes words.now) }
    ensures { IfOk result (λ snapshots. snapshots ≡ map string_bytes words.now) }
{
    let mut names = Vec::new(alloc);
    for word in words {
        names.push(snapshot(word.as_str()))?;
    }
    Ok(Snapshots::new(names))
}

pub fn redact(alloc: Global, words: &[String]) -> Result<Line, AllocError>
    requires { AllZip Takes (named Kind.Redact (length words.now)) (map string_bytes words.now) }
    ensures { IfOk result (λ line. LineIs line (codes "redact" ∷ map string_bytes words.now)) }
{
    let [image, of, name, kept @ ..] = words else {
        unreachable!()
    };
    Ok(Line::Step {
        image: text(alloc, image.as_str())?,
        command: Command::Redact {
            snapshot: snapshot(of.as_str()),
            bookmark: bookmark(name.as_str()),
            redactions: snapshots(alloc, kept)?,
        },
    })
}

pub fn send(alloc: Global, words: &[String]) -> Result<Line, AllocError>
    requires fits { AllZip Takes (places_behind Kind.Send [] None (map string_bytes words.now)) (map string_bytes words.now) }
    requires whole { goes_on Kind.Send (map string_bytes words.now) ≡ false }
    ensures { IfOk result (λ line. LineIs line (codes "send" ∷ map string_bytes words.now)) }
{
    let [.., image, last] = words else {
        unreachable!()
    };
    Ok(Line::Send {
        image: text(alloc, image.as_str())?,
        from: name_behind(words, "-i"),
        redacts: bookmark_behind(words, "--redact"),
        snapshot: snapshot(last.as_str()),
    })
}

pub fn resume(alloc: Global, words: &[String]) -> Result<Line, AllocError>
    requires fits { AllZip Takes (places_of Kind.Send (map string_bytes words.now)) (map string_bytes words.now) }
    requires goes_on { goes_on Kind.Send (map string_bytes words.now) ≡ true }
    ensures { IfOk result (λ line. LineIs line (codes "send" ∷ map string_bytes words.now)) }
{
    let [_, word, image] = words else {
        unreachable!()
    };
    Ok(Line::Resume {
        image: text(alloc, image.as_str())?,
        token: token(word.as_str()),
    })
}

pub fn receive(alloc: Global, words: &[String]) -> Result<Line, AllocError>
    requires { AllZip Takes (places_behind Kind.Receive [] None (map string_bytes words.now)) (map string_bytes words.now) }
    ensures { IfOk result (λ line. LineIs line (codes "receive" ∷ map string_bytes words.now)) }
{
    let [.., image, target] = words else {
        unreachable!()
    };
    Ok(Line::Receive {
        image: text(alloc, image.as_str())?,
        keeps: stands_in(words, "-s"),
        forces: stands_in(words, "-F"),
        origin: snapshot_behind(words, "--origin"),
        target: name(target.as_str()),
    })
}
