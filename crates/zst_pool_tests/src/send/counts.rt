// How many blocks a send reads, by the disk's record of its calls.
use super::sends::{ask, sent};
use crate::pools::{SMALL, steps_on, with_lines};
use crate::refusals::TestRefusal;
use std::alloc::Global;
use std::process::Abort;
use zst_outside::{Call, MemDisk};

// How many blocks of this size a disk has read from the call of this number on, and how many others.
fn reads_from(disk: &MemDisk, begin: u64, size: usize) -> (u64, u64) {
    let mut blocks = 0u64;
    let mut others = 0u64;
    for entry in disk.log() {
        match &entry.call {
            Call::Read(_, length) if entry.number >= begin => {
                if *length == size {
                    blocks = blocks.saturating_add(1);
                } else {
                    others = others.saturating_add(1);
                }
            }
            _ => {}
        }
    }
    (blocks, others)
}

// Checks that a send in pieces of each size reads so many blocks of data, once each, and at most so many others.
fn check_reads(
    rt: &impl Abort,
    alloc: Global,
    disk: &mut MemDisk,
    asked: (&str, &str),
    size: usize,
    (blocks, most): (u64, u64),
) -> Result<(), TestRefusal> {
    let ask = ask(asked.0, asked.1)?;
    for piece in [100, 4_096, 1_048_576] {
        let taken = sent(alloc, disk, &ask, piece)?;
        let (found, others) = reads_from(disk, taken.begin, size);
        assert_eq!(rt; found, blocks, "{asked:?} by {piece}");
        assert!(rt; others <= most, "{asked:?} by {piece}: {others}");
    }
    Ok(())
}

// A file with a block at index 0 and a distant one, and its snapshot.
const FAR: [&str; 5] = [
    "fs here tank/a",
    "object here tank/a 1 19 512 0 none none",
    "write here tank/a 1 0 aa",
    "write here tank/a 1 1073741825 bb",
    "snapshot here tank/a@s",
];

// Lines behind the small pool: a block more, a snapshot, the first block anew, and a snapshot.
const CHANGES: [&str; 4] = [
    "write here tank/a 1 1 01",
    "snapshot here tank/a@r",
    "write here tank/a 1 0 aa",
    "snapshot here tank/a@t",
];

#[test]
fn each_block_that_is_sent_is_read_once(rt: HostRuntime) -> Result<(), TestRefusal> {
    let mut disk = with_lines(rt.alloc(), &SMALL)?;
    steps_on(rt.alloc(), &mut disk, &CHANGES)?;
    for (snap, from, blocks) in [
        ("tank/a@s", "", 1),
        ("tank/a@t", "", 2),
        ("tank/a@t", "tank/a@s", 2),
        ("tank/a@t", "tank/a@r", 1),
    ] {
        check_reads(&rt, rt.alloc(), &mut disk, (snap, from), 512, (blocks, 192))?;
    }
    Ok(())
}

#[test]
fn a_distant_block_that_is_sent_is_read_once(rt: HostRuntime) -> Result<(), TestRefusal> {
    let mut disk = with_lines(rt.alloc(), &FAR)?;
    check_reads(
        &rt,
        rt.alloc(),
        &mut disk,
        ("tank/a@s", ""),
        512,
        (2, 4_096),
    )
}
