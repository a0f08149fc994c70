use std::alloc::Global;
use std::process::Abort;
use std::test::Fail;
use zst_model::{
    AbsentSubject, ApplyFault, Flaw, Holder, Lack, Name, PlanFault, Point, PresentSubject,
    Quantity, Refusal, ResumePlace, StreamFault,
};
use zst_names::{BookName, DatasetName, NameFault, SnapName};

const GUID: u64 = 0x0123_4567_89ab_cdef;

const SMALL_GUID: u64 = 0xa;

/// The longest name of a snapshot: 190 bytes of dataset, `@` and 64 bytes.
const SNAPSHOT: &str = "\
    xxxxxxxxxxxxxxxxxxxxxxxxxxxxxxxxxxxxxxxxxxxxxxxxxxxxxxxxxxxxxxxx/\
    xxxxxxxxxxxxxxxxxxxxxxxxxxxxxxxxxxxxxxxxxxxxxxxxxxxxxxxxxxxxxxxx/\
    xxxxxxxxxxxxxxxxxxxxxxxxxxxxxxxxxxxxxxxxxxxxxxxxxxxxxxxxxxxx@\
    xxxxxxxxxxxxxxxxxxxxxxxxxxxxxxxxxxxxxxxxxxxxxxxxxxxxxxxxxxxxxxxx";

/// The longest name of a bookmark: 190 bytes of dataset, `#` and 64 bytes.
const BOOKMARK: &str = "\
    xxxxxxxxxxxxxxxxxxxxxxxxxxxxxxxxxxxxxxxxxxxxxxxxxxxxxxxxxxxxxxxx/\
    xxxxxxxxxxxxxxxxxxxxxxxxxxxxxxxxxxxxxxxxxxxxxxxxxxxxxxxxxxxxxxxx/\
    xxxxxxxxxxxxxxxxxxxxxxxxxxxxxxxxxxxxxxxxxxxxxxxxxxxxxxxxxxxx#\
    xxxxxxxxxxxxxxxxxxxxxxxxxxxxxxxxxxxxxxxxxxxxxxxxxxxxxxxxxxxxxxxx";

fn dataset(rt: &impl Abort, text: &str) -> DatasetName {
    DatasetName::parse(text).expect(rt, text)
}

fn snapshot(rt: &impl Abort, text: &str) -> SnapName {
    SnapName::parse(text).expect(rt, text)
}

fn bookmark(rt: &impl Abort, text: &str) -> BookName {
    BookName::parse(text).expect(rt, text)
}

/// A number and a text are those that are wanted.
fn check_both(rt: &impl Abort, found: u8, found_text: &str, number: u8, text: &str) {
    assert_eq!(rt; found, number, "the number of {text}");
    assert_eq!(rt; found_text, text);
}

fn check(rt: &impl Abort, refusal: &Refusal, number: u8, text: &str) {
    check_both(rt, refusal.number(), refusal.text().as_str(), number, text);
}

/// A fault of a plan has its number and text as a refusal too.
fn check_plan(rt: &impl Abort, fault: PlanFault, number: u8, text: &str) {
    check_both(rt, fault.number(), fault.text().as_str(), number, text);
    check(rt, &Refusal::from(fault), number, text);
}

/// A fault of a stream has its number and text as a refusal too.
fn check_stream(rt: &impl Abort, fault: StreamFault, number: u8, text: &str) {
    check_both(rt, fault.number(), fault.text().as_str(), number, text);
    check(rt, &Refusal::from(fault), number, text);
}

fn check_word(rt: &impl Abort, refusal: &Refusal, front: &str, word: &str) {
    let text = refusal.text();
    assert!(rt; text.as_str().strip_prefix(front) == Some(word), "{word}");
}

#[test]
fn what_is_absent(rt: HostRuntime) {
    let dataset = Name::Dataset(dataset(&rt, "tank/a"));
    let snapshot = Name::Snapshot(snapshot(&rt, "tank/a@s"));
    let bookmark = Name::Bookmark(bookmark(&rt, "tank/a#b"));
    let table = [
        (AbsentSubject::Named(dataset), "no such tank/a"),
        (AbsentSubject::Named(snapshot), "no such tank/a@s"),
        (AbsentSubject::Named(bookmark), "no such tank/a#b"),
        (AbsentSubject::Guid(GUID), "no such guid 0123456789abcdef"),
        (
            AbsentSubject::Session(u32::MAX),
            "no such session 4294967295",
        ),
    ];
    for (subject, text) in table {
        check_plan(&rt, PlanFault::NoSuch(subject), 3, text);
    }
}

#[test]
fn what_is_there(rt: HostRuntime) {
    let snapshot = PresentSubject::Named(Name::Snapshot(snapshot(&rt, "tank@s")));
    check_plan(&rt, PlanFault::Exists(snapshot), 4, "exists: tank@s");
    check_plan(
        &rt,
        PlanFault::Exists(PresentSubject::Pool),
        4,
        "exists: pool",
    );
}

#[test]
fn what_is_in_use(rt: HostRuntime) {
    let partial = Holder::Partial(dataset(&rt, "tank"));
    let clone = Holder::Clone(dataset(&rt, "tank/c"));
    let bookmark = Holder::Bookmark(bookmark(&rt, "tank#b"));
    let snapshot = Holder::Snapshot(snapshot(&rt, "tank@s"));
    let table = [
        (Holder::Session(7), "busy: session 7"),
        (partial, "busy: partial tank"),
        (clone, "busy: clone tank/c"),
        (bookmark, "busy: bookmark tank#b"),
        (snapshot, "busy: snapshot tank@s"),
    ];
    for (holder, text) in table {
        check_plan(&rt, PlanFault::Busy(holder), 5, text);
    }
}

#[test]
fn what_does_not_belong_together(rt: HostRuntime) {
    let to = Name::Snapshot(snapshot(&rt, "tank@late"));
    let from = Name::Bookmark(bookmark(&rt, "tank#early"));
    let ancestor = PlanFault::NotAncestor { to, from };
    check_plan(&rt, ancestor, 6, "not an ancestor of tank@late: tank#early");
    let redaction = PlanFault::NotRedactionOf {
        bookmark: bookmark(&rt, "tank#b"),
        snapshot: snapshot(&rt, "tank@s"),
    };
    check_plan(&rt, redaction, 7, "not a redaction of tank@s: tank#b");
    let descendant = PlanFault::NotDescendant(snapshot(&rt, "tank@s"));
    check_plan(&rt, descendant, 8, "not a descendant: tank@s");
}

#[test]
fn states_of_a_dataset(rt: HostRuntime) {
    let modified = PlanFault::Modified(dataset(&rt, "tank"));
    check_plan(&rt, modified, 9, "modified: tank");
    let exists = PlanFault::PartialExists(dataset(&rt, "tank"));
    check_plan(&rt, exists, 13, "partial exists: tank");
    let absent = PlanFault::NoPartial(dataset(&rt, "tank/a"));
    check_plan(&rt, absent, 14, "no partial: tank/a");
}

#[test]
fn faults_of_a_plan_without_names(rt: HostRuntime) {
    let table = [
        (
            PlanFault::from(NameFault { place: 190 }),
            2,
            "bad name at 190",
        ),
        (
            PlanFault::NotLatest {
                have: SMALL_GUID,
                want: GUID,
            },
            10,
            "not latest: have 000000000000000a, want 0123456789abcdef",
        ),
        (
            PlanFault::NoOrigin { guid: SMALL_GUID },
            11,
            "no origin with guid 000000000000000a",
        ),
    ];
    for (fault, number, text) in table {
        check_plan(&rt, fault, number, text);
    }
}

#[test]
fn faults_of_a_plan_with_guids_and_bounds(rt: HostRuntime) {
    let table = [
        (
            PlanFault::NotContained { guid: u64::MAX },
            12,
            "not contained: guid ffffffffffffffff",
        ),
        (
            PlanFault::Unsupported(Lack::Relay),
            19,
            "unsupported: relay",
        ),
        (
            PlanFault::Limit {
                which: Quantity::Datasets,
                number: 256,
            },
            23,
            "limit: datasets 256",
        ),
    ];
    for (fault, number, text) in table {
        check_plan(&rt, fault, number, text);
    }
}

#[test]
fn another_place_to_resume(rt: HostRuntime) {
    let have = ResumePlace {
        guid: SMALL_GUID,
        point: Point {
            object: 3,
            offset: 4096,
        },
    };
    let want = ResumePlace {
        guid: GUID,
        point: Point {
            object: 2,
            offset: 0,
        },
    };
    check_plan(
        &rt,
        PlanFault::WrongResume { have, want },
        15,
        "wrong resume: have 000000000000000a 3 4096, want 0123456789abcdef 2 0",
    );
}

#[test]
fn faults_of_a_stream(rt: HostRuntime) {
    let table = [
        (
            StreamFault::Grammar {
                at: 336,
                flaw: Flaw::BlockSize,
            },
            17,
            "grammar at 336: block size",
        ),
        (
            StreamFault::Checksum {
                at: 592,
                stated: [1, 2, 3, 4],
                found: [5, 6, 7, 8],
            },
            18,
            "checksum at 592: stated 1 2 3 4, found 5 6 7 8",
        ),
        (
            StreamFault::Unsupported {
                at: 16,
                lack: Lack::Feature { bit: 29 },
            },
            19,
            "unsupported at 16: feature 29",
        ),
        (
            StreamFault::Truncated { at: u64::MAX },
            20,
            "truncated at 18446744073709551615",
        ),
    ];
    for (fault, number, text) in table {
        check_stream(&rt, fault, number, text);
    }
}

#[test]
fn faults_with_places(rt: HostRuntime) {
    let table = [
        (Refusal::Usage { place: 3 }, 1, "usage: 3"),
        (Refusal::BadToken { place: 5 }, 16, "bad token at 5"),
        (
            Refusal::CannotApply {
                record: 2,
                fault: ApplyFault::NoObject,
            },
            21,
            "cannot apply record 2: no object",
        ),
        (
            Refusal::Redacted {
                object: 8,
                block: 254,
            },
            22,
            "redacted: object 8 block 254",
        ),
    ];
    for (refusal, number, text) in table {
        check(&rt, &refusal, number, text);
    }
}

#[test]
fn faults_of_room_and_of_damage(rt: HostRuntime) {
    let table = [
        (
            Refusal::Limit {
                which: Quantity::Stream,
                number: 1 << 62,
            },
            23,
            "limit: stream 4611686018427387904",
        ),
        (
            Refusal::Full {
                need: 256,
                largest: 16,
            },
            24,
            "full: need 256, largest 16",
        ),
        (
            Refusal::Damaged {
                sector: 24,
                stated: [1, 2, 3, 4],
                found: [5, 6, 7, 8],
            },
            25,
            "damaged at sector 24: stated 1 2 3 4, found 5 6 7 8",
        ),
        (Refusal::BadVersion { number: 0 }, 27, "bad version 0"),
    ];
    for (refusal, number, text) in table {
        check(&rt, &refusal, number, text);
    }
}

#[test]
fn faults_of_the_outside(rt: HostRuntime) {
    let table = [
        (Refusal::NoPool, 26, "no pool"),
        (Refusal::DiskFault, 28, "disk fault"),
        (Refusal::SourceFault, 29, "source fault"),
        (Refusal::SinkFault, 30, "sink fault"),
        (Refusal::Failed, 31, "failed: reopen the pool"),
        (Refusal::OutOfMemory, 32, "no memory"),
    ];
    for (refusal, number, text) in table {
        check(&rt, &refusal, number, text);
    }
}

#[test]
fn a_limit_of_a_plan_is_a_limit(rt: HostRuntime) {
    let which = Quantity::Runs;
    let refusal = Refusal::from(PlanFault::Limit {
        which,
        number: 65_536,
    });
    assert!(rt;
        matches!(
            refusal,
            Refusal::Limit {
                which: Quantity::Runs,
                number: 65_536
            }
        )
    );
    let refusal = Refusal::from(PlanFault::NoOrigin { guid: 7 });
    assert!(rt; matches!(refusal, Refusal::Plan(PlanFault::NoOrigin { guid: 7 })));
}

#[test]
fn each_flaw_has_its_word(rt: HostRuntime) {
    let table = [
        (Flaw::RecordType, "type"),
        (Flaw::Magic, "magic"),
        (Flaw::HeaderType, "header type"),
        (Flaw::Kind, "kind"),
        (Flaw::Guid, "guid"),
        (Flaw::Name, "name"),
        (Flaw::Payload, "payload"),
        (Flaw::SecondBegin, "second begin"),
        (Flaw::Redact, "redact"),
        (Flaw::Object, "object"),
        (Flaw::ObjectType, "object type"),
        (Flaw::BlockSize, "block size"),
        (Flaw::Bonus, "bonus"),
        (Flaw::Size, "size"),
        (Flaw::Range, "range"),
    ];
    for (flaw, word) in table {
        check_word(
            &rt,
            &Refusal::from(StreamFault::Grammar { at: 8, flaw }),
            "grammar at 8: ",
            word,
        );
    }
}

#[test]
fn each_lack_has_its_words(rt: HostRuntime) {
    let table = [
        (Lack::BigEndian, "big endian"),
        (Lack::Compound, "compound"),
        (Lack::Dedup, "dedup"),
        (Lack::DedupProps, "dedupprops"),
        (Lack::EmbedData, "embed data"),
        (Lack::Lz4, "lz4"),
        (Lack::LargeBlocks, "large blocks"),
        (Lack::Compressed, "compressed"),
        (Lack::Raw, "raw"),
        (Lack::Feature { bit: u32::MAX }, "feature 4294967295"),
        (Lack::ForeignPayload, "foreign payload"),
        (Lack::ByReference, "by reference"),
        (Lack::Embedded, "embedded"),
        (Lack::ObjectRange, "object range"),
        (Lack::LargeDnode, "large dnode"),
        (Lack::Kind, "kind"),
        (Lack::FullWithoutFrees, "full without frees"),
        (Lack::Relay, "relay"),
    ];
    for (lack, word) in table {
        check_word(
            &rt,
            &Refusal::from(StreamFault::Unsupported { at: 8, lack }),
            "unsupported at 8: ",
            word,
        );
        check_word(
            &rt,
            &Refusal::from(PlanFault::Unsupported(lack)),
            "unsupported: ",
            word,
        );
    }
}

#[test]
fn each_apply_fault_has_its_words(rt: HostRuntime) {
    let table = [
        (ApplyFault::NoObject, "no object"),
        (ApplyFault::SizeDiffers, "size differs"),
        (ApplyFault::Unaligned, "unaligned"),
        (ApplyFault::OddBlock, "odd block"),
        (ApplyFault::NotUserData, "not user data"),
    ];
    for (fault, word) in table {
        check_word(
            &rt,
            &Refusal::CannotApply { record: 0, fault },
            "cannot apply record 0: ",
            word,
        );
    }
}

#[test]
fn each_quantity_has_its_word(rt: HostRuntime) {
    let table = [
        (Quantity::Object, "object 9"),
        (Quantity::Block, "block 9"),
        (Quantity::Datasets, "datasets 9"),
        (Quantity::Snapshots, "snapshots 9"),
        (Quantity::Bookmarks, "bookmarks 9"),
        (Quantity::Partials, "partials 9"),
        (Quantity::RedactionSnapshots, "redaction snapshots 9"),
        (Quantity::Runs, "runs 9"),
        (Quantity::Sends, "sends 9"),
        (Quantity::Receives, "receives 9"),
        (Quantity::Number, "number 9"),
        (Quantity::Guids, "guids 9"),
        (Quantity::Device, "device 9"),
        (Quantity::Stream, "stream 9"),
        (Quantity::Script, "script 9"),
    ];
    for (which, words) in table {
        check_word(&rt, &Refusal::Limit { which, number: 9 }, "limit: ", words);
    }
}

fn check_printed(
    rt: &impl Abort,
    alloc: Global,
    refusal: &Refusal,
    text: &str,
) -> Result<(), Fail> {
    let printed = format!(in alloc; "[{refusal}]")?;
    assert_eq!(rt; printed.as_str(), text);
    Ok(())
}

#[test]
fn prints_as_its_text(rt: HostRuntime) -> Result<(), Fail> {
    let alloc = rt.alloc();
    let fault = StreamFault::Truncated { at: 7 };
    let printed = format!(in alloc; "[{fault}]")?;
    assert_eq!(rt; printed.as_str(), "[truncated at 7]");
    check_printed(&rt, alloc, &Refusal::from(fault), "[truncated at 7]")?;
    let refusal = Refusal::Plan(PlanFault::NotDescendant(snapshot(&rt, "tank@s")));
    check_printed(&rt, alloc, &refusal, "[not a descendant: tank@s]")
}

#[test]
fn the_longest_texts_fit(rt: HostRuntime) {
    let to = Name::Snapshot(snapshot(&rt, SNAPSHOT));
    let from = Name::Bookmark(bookmark(&rt, BOOKMARK));
    let fault = PlanFault::NotAncestor { to, from };
    assert_eq!(rt; fault.text().len(), 19 + 255 + 2 + 255);
    let fault = PlanFault::NotRedactionOf {
        bookmark: bookmark(&rt, BOOKMARK),
        snapshot: snapshot(&rt, SNAPSHOT),
    };
    assert_eq!(rt; fault.text().len(), 19 + 255 + 2 + 255);
    let (stated, found) = ([u64::MAX; 4], [u64::MAX; 4]);
    let refusal = Refusal::Damaged {
        sector: u64::MAX,
        stated,
        found,
    };
    assert_eq!(rt; refusal.text().len(), 18 + 20 + 9 + 83 + 8 + 83);
}
