// Sends, taken in pieces.
ghost use Rattle.std.specs.Prelude.{◌≡◌};
ghost use Rattle.zst_send.specs.Sends.{SendFits};

use crate::refusals::TestRefusal;
use std::alloc::Global;
use zst_image::PoolState;
use zst_model::PlanFault;
use zst_names::SnapName;
use zst_outside::{Disk, MemDisk};
use zst_pool::Pool;
use zst_send::{FromName, Send, SendAsk};

fn snapshot(text: &str) -> Result<SnapName, TestRefusal> {
    Ok(SnapName::parse(text).map_err(PlanFault::from)?)
}

// What is asked for; an empty text asks for no source.
pub(crate) fn ask(snap: &str, from: &str) -> Result<SendAsk, TestRefusal> {
    let from = if from.is_empty() {
        None
    } else {
        Some(FromName::Snap(snapshot(from)?))
    };
    Ok(SendAsk {
        snap: snapshot(snap)?,
        from,
        redact: None,
    })
}

// What a send has given, and the number of the disk's first call in it.
#[derive(Drop)]
pub(crate) struct SendOutput {
    pub(crate) bytes: Vec<u8>,
    pub(crate) begin: u64,
}

// Takes what is left of a send in pieces of this size, until it ends or is refused.
pub(crate) fn take_rest<D: Disk>(
    alloc: Global,
    send: &mut Send,
    pool: &mut Pool<'_, D>,
    size: usize,
    bytes: &mut Vec<u8>,
) -> Result<(), TestRefusal>
    requires send { SendFits send.old }
    ensures send { SendFits send.new }
    ensures same { pool.new.io.disk.ghost_name ≡ pool.old.io.disk.ghost_name }
{
    let mut piece = vec![in alloc; 0; size]?;
    'takes: for _ in 0..1_000_000u64 {
        let count = send.take(pool, &mut piece)?;
        bytes.extend_from_slice(&piece[..count])?;
        if count < size {
            return Ok(());
        }
    }
    Ok(())
}

// A send of this ask, on the pool of a disk, in pieces of this size.
pub(crate) fn sent(
    alloc: Global,
    disk: &mut MemDisk,
    ask: &SendAsk,
    size: usize,
) -> Result<SendOutput, TestRefusal> {
    let kept = PoolState::open(alloc, disk)?;
    let begin = disk.calls();
    let mut pool = Pool::new(alloc, disk, kept);
    let mut send = Send::open(&mut pool, alloc, ask)?;
    let mut bytes = Vec::new(alloc);
    take_rest(alloc, &mut send, &mut pool, size, &mut bytes)?;
    Ok(SendOutput { bytes, begin })
}
