// Sends in which a call of the disk fails.
ghost use Rattle.std.specs.Prelude.{◌≡◌};
ghost use Rattle.zst_send.specs.Sends.{SendFits};

use super::sends::take_rest;
use crate::pools::pool_on;
use crate::refusals::TestRefusal;
use std::alloc::Global;
use std::process::Abort;
use zst_model::Refusal;
use zst_outside::{Disk, MemDisk};
use zst_pool::Pool;
use zst_send::{Send, SendAsk};

// Checks that a failed pool gives no byte of a send, and answers E31.
fn check_failed(
    rt: &impl Abort,
    alloc: Global,
    send: &mut Send,
    pool: &mut Pool<'_, MemDisk>,
    at: (u64, usize),
)
    requires send { SendFits send.old }
    ensures send { SendFits send.new }
    ensures same { pool.new.io.disk.ghost_name ≡ pool.old.io.disk.ghost_name }
{
    let (call, size) = at;
    let mut bytes = Vec::new(alloc);
    let taken = take_rest(alloc, send, pool, size, &mut bytes);
    assert!(rt;
        taken == Err(TestRefusal(Refusal::Failed)) && bytes.is_empty(),
        "at {call}"
    );
}

// Checks that it opens no send.
fn check_unopened(rt: &impl Abort, alloc: Global, pool: &mut Pool<'_, MemDisk>, ask: &SendAsk)
    ensures same { pool.new.io.disk.ghost_name ≡ pool.old.io.disk.ghost_name }
{
    match Send::open(pool, alloc, ask) {
        Ok(_) => panic!(rt; "a send is opened on a failed pool"),
        Err(fault) => assert_eq!(rt; TestRefusal::from(fault), TestRefusal(Refusal::Failed)),
    }
}

// Takes a send on a disk of which the call of this number fails, until that is told, and the rest on the pool that was
// opened again.
pub(super) fn taken_over(
    rt: &impl Abort,
    alloc: Global,
    disk: &mut MemDisk,
    ask: &SendAsk,
    (call, size): (u64, usize),
) -> Result<Vec<u8>, TestRefusal> {
    let mut pool = pool_on(alloc, disk)?;
    let mut send = Send::open(&mut pool, alloc, ask)?;
    let mut bytes = Vec::new(alloc);
    let first = take_rest(alloc, &mut send, &mut pool, size, &mut bytes);
    assert!(rt; first == Err(TestRefusal(Refusal::DiskFault)), "at {call}");

    // Whoever asks, until the pool is opened again.
    check_failed(rt, alloc, &mut send, &mut pool, (call, size));
    check_unopened(rt, alloc, &mut pool, ask);
    pool.reopen(alloc)?;
    take_rest(alloc, &mut send, &mut pool, size, &mut bytes)?;
    Ok(bytes)
}
