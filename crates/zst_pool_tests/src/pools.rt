// Pools on disks in memory, and lines on them.
ghost use Rattle.std.specs.Prelude.{◌≡◌, ◌≤◌, ◌^◌, false, IfOk};
ghost use Rattle.zst_block.specs.IoStates.{disk_of};
ghost use Rattle.zst_model.specs.pools.Step.{IsCommand};
ghost use Rattle.zst_image.specs.Commits.{Ready};
ghost use Rattle.zst_pool.specs.Calls.{CanCommit};

use crate::refusals::TestRefusal;
use std::alloc::{AllocError, Global};
use zst_image::PoolState;
use zst_line::{Line, parse};
use zst_model::{Command, Refusal, Reply};
use zst_outside::{Disk, MemDisk};
use zst_pool::Pool;

// When commands are run, in seconds.
pub(crate) const NOW: u64 = 1_700_000_000;

// A file system with a file of one block, and its snapshot.
pub(crate) const SMALL: [&str; 4] = [
    "fs here tank/a",
    "object here tank/a 1 19 512 0 none none",
    "write here tank/a 1 0 aa",
    "snapshot here tank/a@s",
];

// The command that a line says.
pub(crate) fn command_of(alloc: Global, line: &str) -> Result<Command, TestRefusal>
    ensures { IfOk result IsCommand }
{
    let mut words = Vec::new(alloc);
    for word in line.split(' ') {
        let word = String::from_str(alloc, word)?;
        words.push(word).map_err(AllocError::from)?;
    }
    match parse(alloc, words.as_slice())? {
        Line::Step { command, .. } => Ok(command),
        _ => Err(TestRefusal(Refusal::Failed)),
    }
}

// The pool of a disk, opened.
pub(crate) fn pool_on<'d>(
    alloc: Global,
    disk: &'d mut MemDisk,
) -> Result<Pool<'d, MemDisk>, TestRefusal>
    ensures works { IfOk result (λ pool. CanCommit (disk_of pool.io) pool.io.space pool.kept.body) }
    ensures same { IfOk result (λ pool. pool.io.disk.ghost_name ≡ disk.entry.ghost_name) }
{
    let kept = PoolState::open(alloc, disk)?;
    Ok(Pool::new(alloc, disk, kept))
}

// Runs the command that a line says on a pool that stays open.
pub(crate) fn step_in(
    alloc: Global,
    pool: &mut Pool<'_, MemDisk>,
    line: &str,
) -> Result<Reply, TestRefusal>
    requires ready { pool.old.io.failed ≡ false → Ready (disk_of pool.old.io) pool.old.kept.body }
    ensures ready { pool.new.io.failed ≡ false → Ready (disk_of pool.new.io) pool.new.kept.body }
    ensures same { pool.new.io.disk.ghost_name ≡ pool.old.io.disk.ghost_name }
{
    let command = command_of(alloc, line)?;
    Ok(pool.step(alloc, NOW, command, &[])?)
}

// Opens the pool of a disk and runs the command that a line says.
pub(crate) fn step_on(alloc: Global, disk: &mut MemDisk, line: &str) -> Result<Reply, TestRefusal> {
    let mut pool = pool_on(alloc, disk)?;
    step_in(alloc, &mut pool, line)
}

// Runs the commands of lines, each on the pool as it is opened again.
pub(crate) fn steps_on(
    alloc: Global,
    disk: &mut MemDisk,
    lines: &[&str],
) -> Result<(), TestRefusal> {
    for line in lines {
        step_on(alloc, disk, line)?;
    }
    Ok(())
}

// A disk of so many sectors with a new pool.
pub(crate) fn created(alloc: Global, sectors: u64) -> Result<MemDisk, TestRefusal>
    requires sectors { (128 ≤ sectors) × (sectors ≤ 2 ^ 31) }
{
    let bytes = vec![in alloc; 0; sectors as usize * 512]?;
    let mut disk = MemDisk::new(bytes, Vec::new(alloc), None);
    PoolState::create(alloc, &mut disk, sectors, 1)?;
    Ok(disk)
}

// A disk of 1,024 sectors with a new pool, after the commands of these lines.
pub(crate) fn with_lines(alloc: Global, lines: &[&str]) -> Result<MemDisk, TestRefusal> {
    let mut disk = created(alloc, 1_024)?;
    steps_on(alloc, &mut disk, lines)?;
    Ok(disk)
}

// How many datasets, snapshots and bookmarks the pool of a disk has.
pub(crate) fn rows_of(
    alloc: Global,
    disk: &mut MemDisk,
) -> Result<(usize, usize, usize), TestRefusal> {
    let dir = PoolState::open(alloc, disk)?.dir;
    Ok((
        dir.datasets().len(),
        dir.snapshots().len(),
        dir.bookmarks().len(),
    ))
}
