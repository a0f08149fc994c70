// Sends on a disk of which a call fails.
use super::sends::{ask, sent};
use super::taken_over::taken_over;
use crate::bytes_of;
use crate::pools::{SMALL, steps_on, with_lines};
use crate::refusals::TestRefusal;
use std::alloc::Global;
use std::process::Abort;
use zst_outside::{Disk, MemDisk};

// The bytes of a disk with the small pool, a block behind a hole, an object with a spill block, and their snapshot.
fn with_spill(alloc: Global) -> Result<Vec<u8>, TestRefusal> {
    let mut disk = with_lines(alloc, &SMALL)?;
    let lines = [
        "write here tank/a 1 2 bb",
        "object here tank/a 2 19 512 0 none 512:cc",
        "snapshot here tank/a@t",
    ];
    steps_on(alloc, &mut disk, &lines)?;
    bytes_of(alloc, &mut disk).map_err(TestRefusal)
}

// Checks that a send is told that the call of this number failed, and then gives the same bytes.
fn check_call(
    rt: &impl Abort,
    alloc: Global,
    image: Vec<u8>,
    (call, size): (u64, usize),
    whole: &[u8],
) -> Result<(), TestRefusal> {
    let mut disk = MemDisk::new(image, vec![in alloc; call; 1]?, None);
    let taken = taken_over(rt, alloc, &mut disk, &ask("tank/a@t", "")?, (call, size))?;
    assert!(rt; taken.as_slice() == whole, "at {call} by {size}");
    assert_eq!(rt; disk.faults(), 1, "at {call} by {size}");
    Ok(())
}

// Checks so each call of a send in pieces of this size.
fn check_calls(
    rt: &impl Abort,
    alloc: Global,
    image: &Vec<u8>,
    size: usize,
) -> Result<(), TestRefusal> {
    let mut disk = MemDisk::new(image.clone()?, Vec::new(alloc), None);
    let whole = sent(alloc, &mut disk, &ask("tank/a@t", "")?, size)?;
    let calls = disk.calls();
    assert!(rt; whole.begin < calls);
    for call in whole.begin..calls {
        check_call(rt, alloc, image.clone()?, (call, size), &whole.bytes)?;
    }
    Ok(())
}

#[test]
fn each_call_of_a_send_may_fail(rt: HostRuntime) -> Result<(), TestRefusal> {
    let image = with_spill(rt.alloc())?;
    for size in [100, 700, 4_096] {
        check_calls(&rt, rt.alloc(), &image, size)?;
    }
    Ok(())
}
