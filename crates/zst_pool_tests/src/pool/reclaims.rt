// What a reclaim frees, and what it leaves: what the rows reach, and what sessions hold.
ghost use Rattle.std.specs.Prelude.{◌≡◌, false};
ghost use Rattle.zst_block.specs.IoStates.{disk_of};
ghost use Rattle.zst_image.specs.Commits.{Ready};

use super::free_extents::check_block;
use crate::pools::{NOW, SMALL, pool_on, step_in, step_on, steps_on, with_lines};
use crate::refusals::TestRefusal;
use crate::roots::{check_extents, unreached};
use std::alloc::Global;
use std::process::Abort;
use zst_image::PoolState;
use zst_model::{Command, Refusal, Reply};
use zst_outside::{Disk, MemDisk};
use zst_pool::Pool;
use zst_roots::HeldBlocks;

// Behind the small pool, which ends at 121.
const CHANGES: [&str; 5] = [
    // The directory at 121; a block at 137, its leaf at 138, directories at 154 and 170.
    "bookmark here tank/a@s tank/a#k",
    "write here tank/a 1 0 bb",
    "snapshot here tank/a@r",
    // A block at 186, its leaf at 187, the directory at 203, and that without the first snapshot at 219.
    "write here tank/a 1 0 cc",
    "destroy here tank/a@s",
];

// Checks which extents no row of the pool of a disk reaches.
fn check_unreached(
    rt: &impl Abort,
    alloc: Global,
    disk: &mut MemDisk,
    wanted: &[(u64, u64)],
) -> Result<(), TestRefusal> {
    let mut pool = pool_on(alloc, disk)?;
    let end = pool.kept.body.uber().end;
    let found = unreached(alloc, &mut pool)?;
    let unmarked = found.marks.unmarked(alloc, 8, end)?;
    check_extents(rt, unmarked.as_slice(), wanted);
    Ok(())
}

// Checks which extents are free by the latest body of a disk.
fn check_free_on(
    rt: &impl Abort,
    alloc: Global,
    disk: &mut MemDisk,
    wanted: &[(u64, u64)],
) -> Result<(), TestRefusal> {
    let kept = PoolState::open(alloc, disk)?;
    check_extents(rt, kept.body.free(), wanted);
    Ok(())
}

// Checks that two replies have the same lines.
fn check_same(rt: &impl Abort, one: &Reply, other: &Reply) {
    assert_eq!(rt; one.lines().len(), other.lines().len());
    for (line, another) in one.lines().iter().zip(other.lines()) {
        assert!(rt; line.as_slice() == another.as_slice());
    }
}

#[test]
fn reclaim_frees_what_no_row_reaches_and_nothing_else(rt: HostRuntime) -> Result<(), TestRefusal> {
    let alloc = rt.alloc();
    let mut disk = with_lines(alloc, &SMALL)?;
    steps_on(alloc, &mut disk, &CHANGES)?;
    let listed = step_on(alloc, &mut disk, "list here")?;
    // The rows reach the block and the leaf at 137 and 138, and those at 186 and 187.
    check_unreached(&rt, alloc, &mut disk, &[(8, 129), (154, 32), (203, 32)])?;
    step_on(alloc, &mut disk, "reclaim here")?;
    // The directory stands at 8 and the leaf of the extents at 24.
    check_free_on(&rt, alloc, &mut disk, &[(40, 97), (154, 32), (203, 32)])?;
    check_same(&rt, &listed, &step_on(alloc, &mut disk, "list here")?);
    check_block(&rt, alloc, &mut disk, "read here tank/a 1 0", b"data cc")?;
    check_block(&rt, alloc, &mut disk, "read here tank/a@r 1 0", b"data bb")?;
    Ok(())
}

// What a session holds as one would that sends the snapshot: its set, and the block of a pointer, here that to the directory.
fn held_of(pool: &Pool<'_, MemDisk>) -> Result<HeldBlocks, TestRefusal> {
    let Some(row) = pool.kept.dir.snapshots().first() else {
        return Err(TestRefusal(Refusal::Failed));
    };
    Ok(HeldBlocks {
        set: row.objects,
        blocks: [None, Some(pool.kept.body.uber().dir_root), None],
    })
}

// Reclaims a pool that stays open, of which sessions hold this, and checks which extents are free then.
fn check_reclaim(
    rt: &impl Abort,
    alloc: Global,
    pool: &mut Pool<'_, MemDisk>,
    held: &[HeldBlocks],
    wanted: &[(u64, u64)],
) -> Result<(), TestRefusal>
    requires ready { pool.old.io.failed ≡ false → Ready (disk_of pool.old.io) pool.old.kept.body }
    ensures ready { pool.new.io.failed ≡ false → Ready (disk_of pool.new.io) pool.new.kept.body }
    ensures same { pool.new.io.disk.ghost_name ≡ pool.old.io.disk.ghost_name }
{
    pool.step(alloc, NOW, Command::Reclaim, held)?;
    check_extents(rt, pool.kept.body.free(), wanted);
    Ok(())
}

#[test]
fn what_a_session_holds_stays(rt: HostRuntime) -> Result<(), TestRefusal> {
    let alloc = rt.alloc();
    let mut disk = with_lines(alloc, &SMALL)?;
    let mut pool = pool_on(alloc, &mut disk)?;
    // A block at 121, its leaf at 122, the directory at 138, and that without the snapshot at 154.
    step_in(alloc, &mut pool, "write here tank/a 1 0 bb")?;
    let held = held_of(&pool)?;
    step_in(alloc, &mut pool, "destroy here tank/a@s")?;
    // Held are the snapshot's block and leaf at 72 and 73, and the directory at 138.
    check_reclaim(
        &rt,
        alloc,
        &mut pool,
        &[held],
        &[(40, 32), (89, 32), (154, 16)],
    )?;
    // The directory goes from 8 to 40, and the leaf of the extents from 24 to 56.
    check_reclaim(&rt, alloc, &mut pool, &[], &[(8, 32), (72, 49), (138, 32)])?;
    Ok(())
}
