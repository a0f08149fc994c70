// The line that makes content for trials: its commands run one after another on the pool of an image, each one commit.
ghost use Rattle.std.specs.Prelude.{◌≡◌, ◌≤◌, ◌<◌, ◌++◌, ◌∷◌, [], OnOk, codes, decimal, false, length};
ghost use Rattle.zst_outside.specs.Printing.{Prints};
ghost use Rattle.zst_outside.specs.States.{HandedOn};
ghost use Rattle.zst_block.specs.IoStates.{disk_of};
ghost use Rattle.zst_gen.specs.Generated.{generated};
ghost use Rattle.zst_image.specs.Commits.{Ready};
ghost use Rattle.zst_run.specs.Generating.{Generating, gen_line};
ghost use Rattle.zst_run.specs.GeneratorTurns.{RunsAll, RunsNext, lines_of};
ghost use Rattle.zst_run.specs.Replies.{Replies, reply_text};

use itoa::Buffer;
use std::alloc::Global;
use zst_gen::{command, command_count};
use zst_image::{PoolState, images_keep_partials};
use zst_model::Refusal;
use zst_outside::{Disk, Fault, Sink, write_all};
use zst_pool::{Pool, PoolFault, opened_is_at_rest};

/// How many blocks of an object are written.
const OBJECT_BLOCKS: u64 = 224;

/// How many of an object's blocks are holes.
const OBJECT_HOLES: u64 = 31;

/// How many bytes a block has.
const BLOCK_BYTES: u64 = 131_072;

// Runs the command with this number on the pool that runs.
fn make_next<D: Disk>(
    alloc: Global,
    pool: &mut Pool<'_, D>,
    now: u64,
    steps: u64,
    number: u64,
) -> Result<(), PoolFault>
    requires steps { (1 ≤ steps) × (steps ≤ 64) }
    requires number { number < length (generated steps) }
    requires works { pool.old.io.failed ≡ false }
    requires ready { Ready (disk_of pool.old.io) pool.old.kept.body }
    ensures { RunsNext now steps number pool.old pool.new result }
{
    let made = command(alloc, steps, number)?;
    let Some(next) = made else { unreachable!() };
    pool.step(alloc, now, next, &[])?;
    Ok(())
}

// Runs the commands, up to the first that is refused, and answers the pool's number.
fn make_all<D: Disk>(
    alloc: Global,
    pool: &mut Pool<'_, D>,
    now: u64,
    steps: u64,
) -> Result<u64, Refusal>
    requires steps { (1 ≤ steps) × (steps ≤ 64) }
    requires works { pool.old.io.failed ≡ false }
    requires ready { Ready (disk_of pool.old.io) pool.old.kept.body }
    ensures { RunsAll now steps pool.old pool.new result }
{
    'commands: for number in 0..command_count(steps) {
        make_next(alloc, pool, now, steps, number)?;
    }
    Ok(pool.kept.body.uber().number)
}

// Runs the commands on the pool of an image, and answers its number.
fn generate_image<D: Disk>(
    alloc: Global,
    here: &mut D,
    now: u64,
    steps: u64,
) -> Result<u64, Refusal>
    requires { (1 ≤ steps) × (steps ≤ 64) }
    ensures { Generating now steps (D.state here.old) (D.state here.new) (lines_of steps result) }
{
    images_keep_partials();
    opened_is_at_rest::<D>();
    let kept = PoolState::open(alloc, here)?;
    let mut pool = Pool::new(alloc, here, kept);
    let result = make_all(alloc, &mut pool, now, steps);
    // Only of a disk that was given back is it known what stands on it.
    pool.into_disk();
    result
}

// Writes a number behind a word.
fn write_number<K: Sink>(word: &[u8], number: u64, out: &mut K) -> Result<(), Fault>
    ensures { Prints (K.state out.old) (K.state out.new) (word.now ++ decimal number) result }
{
    write_all(out, word)?;
    write_all(out, Buffer::new().format(number).as_bytes())
}

// Writes the line, and its line feed.
fn write_counts<K: Sink>(steps: u64, number: u64, out: &mut K) -> Result<(), Fault>
    requires { steps ≤ 64 }
    ensures { Prints (K.state out.old) (K.state out.new) (gen_line steps number ++ codes "\n") result }
{
    let blocks = OBJECT_BLOCKS * steps;
    write_number(b"gen ", steps, out)?;
    write_number(b" blocks ", blocks, out)?;
    write_number(b" holes ", OBJECT_HOLES * steps, out)?;
    write_number(b" bytes ", blocks * BLOCK_BYTES, out)?;
    write_number(b" number ", number, out)?;
    write_all(out, b"\n")
}

// Writes the line, and hands it on.
fn print_counts<K: Sink>(steps: u64, number: u64, out: &mut K) -> Result<(), Fault>
    requires { steps ≤ 64 }
    ensures prints { Prints (K.state out.old) (K.state out.new) (reply_text (gen_line steps number ∷ [])) result }
    ensures handed_on { OnOk result (HandedOn (K.state out.new)) }
{
    write_counts(steps, number, out)?;
    out.flush()
}

/// Makes content of so many objects in the pool of an image, and writes the line that tells how much.
pub(crate) fn generate<D: Disk, K: Sink>(
    alloc: Global,
    here: &mut D,
    now: u64,
    steps: u64,
    out: &mut K,
) -> Result<(), Refusal>
    requires { (1 ≤ steps) × (steps ≤ 64) }
    ensures { Replies (Generating now steps (D.state here.old) (D.state here.new)) (K.state out.old) (K.state out.new) result }
{
    let number = generate_image(alloc, here, now, steps)?;
    match print_counts(steps, number, out) {
        Ok(()) => Ok(()),
        Err(_) => Err(Refusal::SinkFault),
    }
}
