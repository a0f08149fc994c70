// The lines that work on the pool of an image: it is opened, one command runs, and its reply is written.
ghost use Rattle.std.specs.Prelude.{◌≤◌, ◌<◌, ◌^◌};
ghost use Rattle.zst_model.specs.pools.Step.{IsCommand};
ghost use Rattle.zst_run.specs.Commands.{Making, Stepping};
ghost use Rattle.zst_run.specs.Replies.{Replies};

use crate::reply::{print_line, print_reply};
use std::alloc::Global;
use zst_image::{PoolState, images_keep_partials, reads_are_kept, reads_as_one};
use zst_laws::steps_keep_partials;
use zst_model::{Command, Refusal, Reply};
use zst_outside::{Disk, Sink};
use zst_pool::{Pool, opened_is_at_rest};

/// Makes a pool in an image that has none, and writes the reply.
pub(crate) fn create_pool<D: Disk, K: Sink>(
    alloc: Global,
    here: &mut D,
    sectors: u64,
    id: u32,
    out: &mut K,
) -> Result<(), Refusal>
    requires sectors { (128 ≤ sectors) × (sectors ≤ 2 ^ 31) }
    requires id { (0 < id) × (id < 2 ^ 31) }
    ensures { Replies (Making sectors id (D.state here.old) (D.state here.new)) (K.state out.old) (K.state out.new) result }
{
    PoolState::create(alloc, here, sectors, id)?;
    match print_line(b"ok 1", out) {
        Ok(()) => Ok(()),
        Err(_) => Err(Refusal::SinkFault),
    }
}

/// Runs a command on the pool of an image.
fn step_image<D: Disk>(
    alloc: Global,
    here: &mut D,
    now: u64,
    command: Command,
) -> Result<Reply, Refusal>
    requires command { IsCommand command }
    ensures { Stepping now command (D.state here.old) (D.state here.new) result }
{
    steps_keep_partials();
    images_keep_partials();
    reads_are_kept();
    reads_as_one();
    opened_is_at_rest::<D>();
    let kept = PoolState::open(alloc, here)?;
    let mut pool = Pool::new(alloc, here, kept);
    let reply = pool.step(alloc, now, command, &[]);
    // Only of a disk that was given back is it known what stands on it.
    pool.into_disk();
    Ok(reply?)
}

/// Runs a command on the pool of an image, and writes its reply.
pub(crate) fn step_pool<D: Disk, K: Sink>(
    alloc: Global,
    here: &mut D,
    now: u64,
    command: Command,
    out: &mut K,
) -> Result<(), Refusal>
    requires command { IsCommand command }
    ensures { Replies (Stepping now command (D.state here.old) (D.state here.new)) (K.state out.old) (K.state out.new) result }
{
    let reply = step_image(alloc, here, now, command)?;
    match print_reply(&reply, out) {
        Ok(()) => Ok(()),
        Err(_) => Err(Refusal::SinkFault),
    }
}
