// Records: how long their payloads are, where they stand, and their lines.
use zst_record::Head;

// A record, its payload's length, its place, and its line.
pub(super) type Shown = (Head, usize, u64, &'static str);

pub(super) fn blocks() -> [Shown; 3] {
    let spill = Head::Spill {
        object: 1,
        length: 512,
        to: 7,
    };
    let redact = Head::Redact {
        object: 1,
        offset: 512,
        length: u64::MAX,
        to: 7,
    };
    let write = Head::Write {
        object: 2,
        type_: 20,
        offset: 1024,
        length: 512,
        to: 7,
    };
    let line = "1248 REDACT object 1 offset 512 length 18446744073709551615\n";
    [
        (spill, 512, 624, "624 SPILL object 1 length 512\n"),
        (redact, 0, 1248, line),
        (
            write,
            512,
            936,
            "936 WRITE object 2 type 20 offset 1024 length 512\n",
        ),
    ]
}

pub(super) fn frees() -> [Shown; 3] {
    let to_end = Head::Free {
        object: 281_474_976_710_655,
        offset: 0,
        length: u64::MAX,
        to: 7,
    };
    let end = "4611686018427387904 FREE object 281474976710655 offset 0 length to-end\n";
    let range = Head::Free {
        object: 9,
        offset: 10,
        length: u64::MAX - 11,
        to: 7,
    };
    let line = "12 FREE object 9 offset 10 length 18446744073709551604\n";
    let objects = Head::FreeObjects {
        first: 8,
        count: 9,
        to: 7,
    };
    [
        (to_end, 0, 1 << 62, end),
        (range, 0, 12, line),
        (objects, 0, 312, "312 FREEOBJECTS first 8 count 9\n"),
    ]
}

pub(super) fn ends() -> [Shown; 2] {
    let object = Head::Object {
        object: 1,
        type_: 2,
        bonus_type: 3,
        block_size: 4,
        bonus_len: 5,
        max_block: 6,
        to: 7,
    };
    let line = "312 OBJECT object 1 type 2 bonustype 3 size 4 bonus 5\n";
    let end = Head::End {
        sums: [0, 10, 200, u64::MAX],
        to: 7,
    };
    let sums = "312 END sums 0 10 200 18446744073709551615\n";
    [(object, 8, 312, line), (end, 0, 312, sums)]
}
