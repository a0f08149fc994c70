// What is told of the lists of bookmarks, for which no line asks.
use crate::pools::{SMALL, pool_on, step_on, with_lines};
use crate::refusals::TestRefusal;
use std::alloc::Global;
use zst_model::{List, PlanFault, Run};
use zst_names::BookName;
use zst_outside::MemDisk;

// Blocks 3 and 4 of object 1.
const REDACTED: Run = Run {
    object: 1,
    first: 3,
    count: 2,
};

// A file with these blocks alone, its snapshot, and a bookmark that withholds what a clone lacks.
const MARKED: [&str; 9] = [
    "fs here tank/a",
    "object here tank/a 1 19 512 0 none none",
    "write here tank/a 1 3 aa",
    "write here tank/a 1 4 aa",
    "snapshot here tank/a@s",
    "clone here tank/a@s tank/c",
    "punch here tank/c 1 3 2",
    "snapshot here tank/c@x",
    "redact here tank/a@s tank/a#k tank/c@x",
];

pub(crate) fn bookmark(text: &str) -> Result<BookName, TestRefusal> {
    Ok(BookName::parse(text).map_err(PlanFault::from)?)
}

// The list of a bookmark of a pool that is opened.
fn list_on(alloc: Global, disk: &mut MemDisk, text: &str) -> Result<Option<List>, TestRefusal> {
    let name = bookmark(text)?;
    let mut pool = pool_on(alloc, disk)?;
    Ok(pool.list_of(alloc, &name)?)
}

#[test]
fn a_plain_bookmark_has_no_list(rt: HostRuntime) -> Result<(), TestRefusal> {
    let mut disk = with_lines(rt.alloc(), &SMALL)?;
    step_on(rt.alloc(), &mut disk, "bookmark here tank/a@s tank/a#k")?;
    assert!(rt; list_on(rt.alloc(), &mut disk, "tank/a#k")?.is_none());
    Ok(())
}

#[test]
fn a_bookmark_that_is_not_there_is_told(rt: HostRuntime) -> Result<(), TestRefusal> {
    let mut disk = with_lines(rt.alloc(), &SMALL)?;
    match list_on(rt.alloc(), &mut disk, "tank/a#z") {
        Ok(_) => panic!(rt; "there is no such bookmark"),
        Err(TestRefusal(refusal)) => {
            assert_eq!(rt; refusal.text().as_str(), "no such tank/a#z");
        }
    }
    Ok(())
}

#[test]
fn a_list_is_told_where_something_is_redacted(rt: HostRuntime) -> Result<(), TestRefusal> {
    let mut disk = with_lines(rt.alloc(), &MARKED)?;
    match list_on(rt.alloc(), &mut disk, "tank/a#k")? {
        Some(list) => assert!(rt; list.runs() == [REDACTED].as_slice()),
        None => panic!(rt; "the bookmark has a list"),
    }
    Ok(())
}
