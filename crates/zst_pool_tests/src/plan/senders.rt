// Directories to send from, and what is asked of them.
ghost use Rattle.std.specs.Prelude.{IfOk};
ghost use Rattle.zst_plan.specs.Plans.{IsInside};

use crate::rows::{push_bookmark, push_dataset, push_numbers, read};
use std::alloc::{AllocError, Global};
use std::test::Fail;
use zst_bytes::push_word;
use zst_dir::Dir;
use zst_names::{BookName, SnapName};
use zst_plan::{FromName, SendAsk, SendPlan, send_plan};

// `b` is a clone of `a@s`, and `c` of `b@u`; the snapshots of `d` are redacted.
fn push_clones(out: &mut Vec<u8>) -> Result<(), AllocError> {
    let snapshots = [("q", 16, 2), ("s", 17, 3), ("t", 18, 5)];
    push_word(out, 4)?;
    push_dataset(out, ("a", ""), &snapshots, (&[], &[]))?;
    push_dataset(
        out,
        ("b", "a@s"),
        &[("u", 33, 8), ("v", 34, 12)],
        (&[], &[]),
    )?;
    push_dataset(out, ("c", "b@u"), &[("w", 49, 10)], (&[], &[]))?;
    push_dataset(out, ("d", ""), &[("x", 65, 6), ("y", 66, 9)], (&[], &[7]))
}

// Their directory. Of `a@s` and of `d@x` there are a plain bookmark and a redaction bookmark, and `a#o` has the number of `a@s` and another guid.
pub(super) fn clones(alloc: Global) -> Result<Dir, Fail> {
    let mut out = Vec::new(alloc);
    push_clones(&mut out)?;
    push_word(&mut out, 5)?;
    for (name, guid, number, redact) in [
        ("a#o", 99, 3, [].as_slice()),
        ("a#r", 17, 3, [7, 9].as_slice()),
        ("a#s", 17, 3, [].as_slice()),
        ("d#x", 65, 6, [].as_slice()),
        ("d#z", 65, 6, [9].as_slice()),
    ] {
        push_bookmark(&mut out, name, [guid, 1_700_000_000, number], redact, 0)?;
    }
    push_word(&mut out, 0)?;
    read(alloc, out.as_slice())
}

// `e` and `f` are clones of one another, which no pool has.
pub(super) fn circle(alloc: Global, (e, f): (u64, u64)) -> Result<Dir, Fail> {
    let mut out = Vec::new(alloc);
    push_word(&mut out, 3)?;
    push_dataset(&mut out, ("a", ""), &[("s", 17, 3)], (&[], &[]))?;
    push_dataset(&mut out, ("e", "f@x"), &[("x", 33, e)], (&[], &[]))?;
    push_dataset(&mut out, ("f", "e@x"), &[("x", 34, f)], (&[], &[]))?;
    push_numbers(&mut out, &[0, 0])?;
    read(alloc, out.as_slice())
}

// The snapshot or the bookmark of this name; an empty text names nothing.
fn source(text: &str) -> Result<Option<FromName>, Fail> {
    if text.is_empty() {
        return Ok(None);
    }
    if text.contains("#") {
        return Ok(Some(FromName::Book(BookName::parse(text)?)));
    }
    Ok(Some(FromName::Snap(SnapName::parse(text)?)))
}

// What is asked for; an empty text asks for nothing.
pub(super) fn ask(snap: &str, from: &str, redact: &str) -> Result<SendAsk, Fail> {
    let redact = if redact.is_empty() {
        None
    } else {
        Some(BookName::parse(redact)?)
    };
    Ok(SendAsk {
        snap: SnapName::parse(snap)?,
        from: source(from)?,
        redact,
    })
}

pub(super) fn planned(dir: &Dir, snap: &str, from: &str) -> Result<SendPlan, Fail>
    ensures { IfOk result (IsInside dir.now) }
{
    match send_plan(dir, &ask(snap, from, "")?) {
        Ok(plan) => Ok(plan),
        Err(_) => Err(Fail::new("it is refused")),
    }
}

// Whether it is refused with this text.
pub(super) fn is_refused(dir: &Dir, ask: &SendAsk, text: &str) -> bool {
    match send_plan(dir, ask) {
        Ok(_) => false,
        Err(fault) => fault.text().as_str() == text,
    }
}
