// A directory with guids that stand twice and with redaction bookmarks, and tokens.
use crate::rows::{push_bookmark, push_dataset, read};
use std::alloc::Global;
use std::test::Fail;
use zst_bytes::push_word;
use zst_dir::Dir;
use zst_model::{GuidSet, Point};
use zst_plan::{SendPlan, resume_plan};
use zst_token::Token;

// `a@s` and `b@s` have one guid, and so have `a@q` and `b@q`. Of `a@s` and of `b@q` there are redaction bookmarks.
pub(super) fn twins(alloc: Global) -> Result<Dir, Fail> {
    let of_a = [("q", 16, 2), ("s", 17, 3)];
    let of_b = [("q", 16, 4), ("s", 17, 5), ("t", 18, 7)];
    let mut out = Vec::new(alloc);
    push_word(&mut out, 2)?;
    push_dataset(&mut out, ("a", ""), &of_a, (&[], &[]))?;
    push_dataset(&mut out, ("b", ""), &of_b, (&[], &[]))?;
    push_word(&mut out, 2)?;
    push_bookmark(&mut out, "a#r", [17, 1_700_000_000, 3], &[7, 9], 0)?;
    push_bookmark(&mut out, "b#r", [16, 1_700_000_000, 4], &[7], 0)?;
    push_word(&mut out, 0)?;
    read(alloc, out.as_slice())
}

fn set(guids: &[u64]) -> GuidSet {
    let mut set = GuidSet::empty();
    for guid in guids {
        let _ = set.insert_last(*guid);
    }
    set
}

// A token with these guids.
pub(super) fn token(to: u64, from: u64, redact: &[u64], from_redact: &[u64]) -> Token {
    Token {
        large: false,
        to,
        from,
        point: Point {
            object: 4,
            offset: 512,
        },
        redact: set(redact),
        from_redact: set(from_redact),
    }
}

pub(super) fn planned(dir: &Dir, token: &Token) -> Result<SendPlan, Fail> {
    match resume_plan(dir, token) {
        Ok(plan) => Ok(plan),
        Err(_) => Err(Fail::new("it is refused")),
    }
}

// Whether it is refused with this text.
pub(super) fn is_refused(dir: &Dir, token: &Token, text: &str) -> bool {
    match resume_plan(dir, token) {
        Ok(_) => false,
        Err(fault) => fault.text().as_str() == text,
    }
}
