// Sends by the lists of redaction bookmarks.
use super::sends::{ask, sent};
use crate::bytes_of;
use crate::pool::lists::bookmark;
use crate::pools::with_lines;
use crate::refusals::TestRefusal;
use std::alloc::Global;
use zst_model::Refusal;
use zst_outside::MemDisk;
use zst_send::{FromName, SendAsk};

// The small pool's file and snapshot, a bookmark that withholds its one block, which a clone has changed, and a later snapshot.
const MARKED: [&str; 9] = [
    "fs here tank/a",
    "object here tank/a 1 19 512 0 none none",
    "write here tank/a 1 0 aa",
    "snapshot here tank/a@s",
    "clone here tank/a@s tank/c",
    "write here tank/c 1 0 bb",
    "snapshot here tank/c@x",
    "redact here tank/a@s tank/a#k tank/c@x",
    "snapshot here tank/a@t",
];

// What a send of a snapshot gives; an empty text asks for no source.
fn sent_plain(
    alloc: Global,
    disk: &mut MemDisk,
    snap: &str,
    from: &str,
) -> Result<Vec<u8>, TestRefusal> {
    Ok(sent(alloc, disk, &ask(snap, from)?, 700)?.bytes)
}

// What a send of the first snapshot gives that withholds the block.
fn sent_redacted(alloc: Global, disk: &mut MemDisk) -> Result<Vec<u8>, TestRefusal> {
    let asked = SendAsk {
        redact: Some(bookmark("tank/a#k")?),
        ..ask("tank/a@s", "")?
    };
    Ok(sent(alloc, disk, &asked, 700)?.bytes)
}

// What a send of the later snapshot from the bookmark gives.
fn sent_from_mark(alloc: Global, disk: &mut MemDisk) -> Result<Vec<u8>, TestRefusal> {
    let asked = SendAsk {
        from: Some(FromName::Book(bookmark("tank/a#k")?)),
        ..ask("tank/a@t", "")?
    };
    Ok(sent(alloc, disk, &asked, 700)?.bytes)
}

// A disk on which each sector that begins with a byte begins with another.
fn spoiled(alloc: Global, disk: &mut MemDisk, old: u8, new: u8) -> Result<MemDisk, TestRefusal> {
    let mut image = bytes_of(alloc, disk).map_err(TestRefusal)?;
    for sector in 0..image.len() / 512 {
        if image[sector * 512] == old {
            image[sector * 512] = new;
        }
    }
    Ok(MemDisk::new(image, Vec::new(alloc), None))
}

#[test]
fn a_withheld_block_is_sent_as_redacted(rt: HostRuntime) -> Result<(), TestRefusal> {
    let mut disk = with_lines(rt.alloc(), &MARKED)?;
    let whole = sent_plain(rt.alloc(), &mut disk, "tank/a@s", "")?;
    let redacted = sent_redacted(rt.alloc(), &mut disk)?;
    assert!(rt; whole.iter().any(|byte| *byte == 0xaa));
    assert!(rt; redacted.len() < whole.len());
    Ok(())
}

#[test]
fn damage_of_a_withheld_block_is_no_matter(rt: HostRuntime) -> Result<(), TestRefusal> {
    let mut disk = with_lines(rt.alloc(), &MARKED)?;
    let mut damaged = spoiled(rt.alloc(), &mut disk, 0xaa, 0xab)?;
    match sent_plain(rt.alloc(), &mut damaged, "tank/a@s", "") {
        Err(TestRefusal(Refusal::Damaged { .. })) => {}
        _ => panic!(rt; "a damaged block is sent"),
    }
    let redacted = sent_redacted(rt.alloc(), &mut disk)?;
    let beside = sent_redacted(rt.alloc(), &mut damaged)?;
    assert!(rt; redacted == beside);
    Ok(())
}

#[test]
fn what_a_source_lacks_is_sent_again(rt: HostRuntime) -> Result<(), TestRefusal> {
    let mut disk = with_lines(rt.alloc(), &MARKED)?;
    let none = sent_plain(rt.alloc(), &mut disk, "tank/a@t", "tank/a@s")?;
    let some = sent_from_mark(rt.alloc(), &mut disk)?;
    assert!(rt; none.len() + 824 < some.len());
    Ok(())
}
