// Sends that are taken in pieces.
use super::sends::{ask, sent, take_rest};
use crate::pools::{SMALL, pool_on, with_lines};
use crate::refusals::TestRefusal;
use std::alloc::Global;
use std::process::Abort;
use zst_model::Point;
use zst_outside::MemDisk;
use zst_plan::send_plan;
use zst_send::{Send, SendAsk};

// What a send of this ask gives from a point on, in pieces of this size.
fn resumed(
    alloc: Global,
    disk: &mut MemDisk,
    ask: &SendAsk,
    point: Point,
    size: usize,
) -> Result<Vec<u8>, TestRefusal> {
    let mut pool = pool_on(alloc, disk)?;
    let plan = send_plan(&pool.kept.dir, ask)?;
    let mut send = Send::resume(&mut pool, alloc, &plan, point)?;
    let mut bytes = Vec::new(alloc);
    take_rest(alloc, &mut send, &mut pool, size, &mut bytes)?;
    Ok(bytes)
}

// Checks that a send from a point on is so long, and alike in pieces of two sizes.
fn check_rest(
    rt: &impl Abort,
    alloc: Global,
    disk: &mut MemDisk,
    point: Point,
    len: usize,
) -> Result<(), TestRefusal> {
    let ask = ask("tank/a@s", "")?;
    let rest = resumed(alloc, disk, &ask, point, 1_048_576)?;
    assert_eq!(rt; rest.len(), len);
    for size in [7, 352] {
        let taken = resumed(alloc, disk, &ask, point, size)?;
        assert!(rt; taken == rest, "from {point:?} by {size}");
    }
    Ok(())
}

#[test]
fn a_send_is_alike_in_pieces_of_any_size(rt: HostRuntime) -> Result<(), TestRefusal> {
    let alloc = rt.alloc();
    let mut disk = with_lines(alloc, &SMALL)?;
    let ask = ask("tank/a@s", "")?;
    let whole = sent(alloc, &mut disk, &ask, 1_048_576)?.bytes;
    assert_eq!(rt; whole.len(), 2_384);
    for size in [1, 7, 311, 312, 4_096] {
        let taken = sent(alloc, &mut disk, &ask, size)?.bytes;
        assert!(rt; taken == whole, "by {size}");
    }
    Ok(())
}

#[test]
fn a_resumed_send_is_alike_in_pieces_of_any_size(rt: HostRuntime) -> Result<(), TestRefusal> {
    let mut disk = with_lines(rt.alloc(), &SMALL)?;
    for (object, offset, len) in [(0, 0, 2_424), (1, 0, 2_424), (1, 512, 1_600)] {
        check_rest(&rt, rt.alloc(), &mut disk, Point { object, offset }, len)?;
    }
    Ok(())
}
