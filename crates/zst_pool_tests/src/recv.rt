//! What no line shows of a receive: what is told of one that runs and isn't kept.
ghost use Rattle.std.specs.Prelude.{◌≡◌};
ghost use Rattle.zst_block.specs.IoStates.{disk_of};
ghost use Rattle.zst_pool.specs.Calls.{CanCommit};

use crate::pools::{SMALL, pool_on, with_lines};
use crate::refusals::TestRefusal;
use crate::send::sends::{ask, sent};
use std::alloc::Global;
use zst_model::PlanFault;
use zst_names::DatasetName;
use zst_outside::{Disk, MemDisk};
use zst_pool::Pool;
use zst_recv::{Recv, RecvAsk, token};

fn dataset(text: &str) -> Result<DatasetName, TestRefusal> {
    Ok(DatasetName::parse(text).map_err(PlanFault::from)?)
}

// A receive into tank/b, without anything else that may be asked.
fn into_b() -> Result<RecvAsk, TestRefusal> {
    Ok(RecvAsk {
        target: dataset("tank/b")?,
        snap: None,
        keep: false,
        force: false,
        origin: None,
    })
}

// The small pool's stream.
pub(crate) fn small_stream(alloc: Global) -> Result<Vec<u8>, TestRefusal> {
    let mut source = with_lines(alloc, &SMALL)?;
    let output = sent(alloc, &mut source, &ask("tank/a@s", "")?, 4_096)?;
    Ok(output.bytes)
}

// A receive of the small pool's stream into tank/b that runs, and isn't kept.
pub(crate) fn running(
    alloc: Global,
    pool: &mut Pool<'_, MemDisk>,
    stream: &[u8],
) -> Result<Recv, TestRefusal>
    requires works { CanCommit (disk_of pool.old.io) pool.old.io.space pool.old.kept.body }
    ensures same { pool.new.io.disk.ghost_name ≡ pool.old.io.disk.ghost_name }
{
    let mut recv = Recv::open(pool, alloc, into_b()?)?;
    recv.feed(pool, alloc, stream)?;
    Ok(recv)
}

#[test]
fn a_receive_that_runs_and_is_not_kept_has_no_token(rt: HostRuntime) -> Result<(), TestRefusal> {
    let alloc = rt.alloc();
    let stream = small_stream(alloc)?;
    let mut disk = with_lines(alloc, &[])?;
    let mut pool = pool_on(alloc, &mut disk)?;
    let recv = running(alloc, &mut pool, stream.get(..1_000).unwrap_or(&[]))?;
    let target = dataset("tank/b")?;
    let told = token(&pool, &target);
    assert!(rt; recv.live());
    assert!(rt; told.is_err_and(|fault| fault == PlanFault::NoPartial(target)));
    Ok(())
}
