// What is asked of a receive, what its stream states, and what comes of both.
use std::test::Fail;
use zst_dir::Dir;
use zst_model::{GuidSet, Header, NameText, Point};
use zst_names::{DatasetName, SnapName};
use zst_plan::{RecvAsk, RecvPlan, recv_plan};

// What is asked for; an empty text asks for nothing.
pub(super) fn ask(target: &str, snap: &str, origin: &str) -> Result<RecvAsk, Fail> {
    Ok(RecvAsk {
        target: DatasetName::parse(target)?,
        snap: if snap.is_empty() {
            None
        } else {
            Some(SnapName::parse(snap)?)
        },
        keep: true,
        force: false,
        origin: if origin.is_empty() {
            None
        } else {
            Some(SnapName::parse(origin)?)
        },
    })
}

// These guids, which rise.
pub(super) fn guids(numbers: &[u64]) -> GuidSet {
    let mut set = GuidSet::empty();
    for number in numbers {
        let _ = set.insert_last(*number);
    }
    set
}

// What a stream states of a file system's snapshot `x@n` of the guid 99, from this guid.
pub(super) fn from(from: u64) -> Header {
    Header {
        kind: 2,
        flags: 12,
        features: 4,
        time: 1_700_000_000,
        to: 99,
        from,
        name: NameText::new(b"x@n"),
        resume: None,
        redact: GuidSet::empty(),
        from_redact: GuidSet::empty(),
    }
}

// The same with redaction guids of its own.
pub(super) fn redacted(source: u64, numbers: &[u64]) -> Header {
    let mut header = from(source);
    header.features = 0x20_0004;
    header.redact = guids(numbers);
    header
}

// And from a redaction bookmark.
pub(super) fn from_redacted(source: u64, numbers: &[u64]) -> Header {
    let mut header = from(source);
    header.from_redact = guids(numbers);
    header
}

// The rest of what the partial state has begun: RESUMING is bit 20.
pub(super) fn rest() -> Header {
    let mut header = redacted(16, &[7, 9]);
    header.features = 0x30_0004;
    header.from_redact = guids(&[11]);
    header.resume = Some(Point {
        object: 5,
        offset: 1024,
    });
    header
}

// Whether it is refused with this text.
pub(super) fn is_refused(dir: &Dir, ask: &RecvAsk, header: &Header, text: &str) -> bool {
    match recv_plan(dir, ask, header) {
        Ok(_) => false,
        Err(fault) => fault.text().as_str() == text,
    }
}

// Whether a snapshot of this name comes over the one at this place.
pub(super) fn begins(
    dir: &Dir,
    ask: &RecvAsk,
    header: &Header,
    name: &str,
    base: Option<usize>,
) -> bool {
    match recv_plan(dir, ask, header) {
        Ok(
            RecvPlan::Begins {
                name: found,
                base: place,
                rolls,
            },
        ) => found.text() == name && place == base && !rolls,
        Ok(RecvPlan::Resumes { .. }) => false,
        Err(_) => false,
    }
}
