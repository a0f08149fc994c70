// Records beside their lines.
use super::records::Shown;
use std::alloc::Global;
use std::process::Abort;
use std::str;
use zst_dump::line_of;
use zst_model::{GuidSet, Header, NameText, Point};
use zst_outside::MemSink;
use zst_record::{Head, Record};

pub(super) fn text_of(sink: &MemSink) -> &str {
    str::from_utf8(sink.bytes()).unwrap_or("no text")
}

pub(super) fn check_line(
    rt: &impl Abort,
    alloc: Global,
    head: &Head,
    at: u64,
    payload: &[u8],
    want: &str,
) {
    let mut out = MemSink::new(Vec::new(alloc));
    let record = Record {
        head,
        at,
        index: 1,
        payload,
    };
    assert_eq!(rt; line_of(&record, &mut out), Ok(()), "{want}");
    assert_eq!(rt; text_of(&out), want);
}

// Checks the line of each of these records, whose payloads are zeros.
pub(super) fn check_lines(rt: &impl Abort, alloc: Global, records: &[Shown]) {
    for (head, length, at, line) in records {
        let payload = [0; 512];
        assert!(rt; *length <= 512);
        check_line(rt, alloc, head, *at, &payload[..*length], line);
    }
}

pub(super) fn header_of(name: NameText, resume: Option<Point>) -> Header {
    Header {
        kind: 3,
        flags: 4_294_967_295,
        features: 1_048_580,
        time: 18_446_744_073_709_551_615,
        to: 0xfedc_ba98_7654_3210,
        from: 0xa0b,
        name,
        resume,
        redact: GuidSet::empty(),
        from_redact: GuidSet::empty(),
    }
}
