// What a refused command took of a pool that stays open.
ghost use Rattle.std.specs.Prelude.{◌≡◌, false};
ghost use Rattle.zst_block.specs.IoStates.{disk_of};
ghost use Rattle.zst_image.specs.Commits.{Ready};

use crate::pools::{SMALL, created, pool_on, step_in, steps_on};
use crate::refusals::TestRefusal;
use std::alloc::Global;
use std::process::Abort;
use zst_model::Refusal;
use zst_outside::{Disk, MemDisk};
use zst_pool::Pool;

// A disk of 256 sectors with the small pool.
fn small(alloc: Global) -> Result<MemDisk, TestRefusal> {
    let mut disk = created(alloc, 256)?;
    steps_on(alloc, &mut disk, &SMALL)?;
    Ok(disk)
}

// Checks that a write to block 2 is refused: 16 sectors are wanted, and 4 are free.
fn check_full(rt: &impl Abort, alloc: Global, pool: &mut Pool<'_, MemDisk>)
    requires ready { pool.old.io.failed ≡ false → Ready (disk_of pool.old.io) pool.old.kept.body }
    ensures ready { pool.new.io.failed ≡ false → Ready (disk_of pool.new.io) pool.new.kept.body }
    ensures same { pool.new.io.disk.ghost_name ≡ pool.old.io.disk.ghost_name }
{
    let answer = step_in(alloc, pool, "write here tank/a 1 2 01");
    let is_full = matches!(
        answer,
        Err(TestRefusal(Refusal::Full {
            need: 16,
            largest: 4
        }))
    );
    assert!(rt; is_full);
}

#[test]
fn what_a_refused_write_took_is_free_again(rt: HostRuntime) -> Result<(), TestRefusal> {
    let alloc = rt.alloc();
    let mut disk = small(alloc)?;
    // 135 sectors are left. A write takes one for its block, and 16 each for the leaf of the object
    // set and for the directory. At index 1 the object's tree grows by a level: a block of pointers
    // for what it had, and one with both blocks. Index 2 takes one such block, and finds 4 sectors
    // for the directory.
    let lines = ["write here tank/a 1 0 01", "write here tank/a 1 1 01"];
    steps_on(alloc, &mut disk, &lines)?;
    let mut pool = pool_on(alloc, &mut disk)?;
    check_full(&rt, alloc, &mut pool);
    check_full(&rt, alloc, &mut pool);
    Ok(())
}
