// A receive that isn't kept, beside commands on the pool that stays open.
ghost use Rattle.std.specs.Prelude.{◌≡◌, false, IfOk, None, OnOk};
ghost use Rattle.zst_block.specs.IoStates.{disk_of};
ghost use Rattle.zst_dir.specs.Rows.{HasSnapshot, IsPartialRow};
ghost use Rattle.zst_image.specs.Commits.{Ready};
ghost use Rattle.zst_model.specs.pools.Pool.{IsStated};
ghost use Rattle.zst_pool.specs.Calls.{CanCommit};

use crate::pools::{NOW, pool_on, rows_of, step_in, with_lines};
use crate::refusals::TestRefusal;
use std::alloc::Global;
use std::process::Abort;
use zst_dir::{Dir, Partial};
use zst_model::{GuidSet, Header, NameText, PlanFault, Point, Refusal};
use zst_names::{DatasetName, SnapName};
use zst_outside::{Disk, MemDisk};
use zst_pool::Pool;
use zst_tree::ObjSet;

// The header of a full stream of a file system, without a name.
#[tactic(auto, unfolding(zst_model::specs::sends::Features::redacts, zst_model::specs::sends::Features::resuming))]
fn full_header() -> Header
    ensures { IsStated result }
{
    Header {
        kind: 2,
        flags: 0,
        features: 0,
        time: NOW,
        to: 7,
        from: 0,
        name: NameText::new(&[]),
        resume: None,
        redact: GuidSet::empty(),
        from_redact: GuidSet::empty(),
    }
}

// What a receive of this snapshot has when it begins.
fn begun(text: &str) -> Result<Partial, TestRefusal>
    ensures row { IfOk result IsPartialRow }
    ensures base { IfOk result (λ partial. partial.base ≡ None) }
{
    let name = SnapName::parse(text).map_err(PlanFault::from)?;
    let target = name.dataset();
    let _ = target.text();
    Ok(Partial {
        target,
        snapshot: NameText::new(name.component().as_bytes()),
        keep: false,
        header: full_header(),
        base: None,
        objects: ObjSet::empty(),
        point: Point {
            object: 0,
            offset: 0,
        },
    })
}

// Refuses a name that a snapshot has.
fn check_new(dir: &Dir, name: &SnapName) -> Result<(), TestRefusal>
    ensures absent { OnOk result (HasSnapshot dir.now name.now → ⊥) }
{
    if dir.snapshot(name).is_some() {
        return Err(TestRefusal(Refusal::Failed));
    }
    Ok(())
}

// Puts what a receive into tank/b has when it begins, as the third state.
fn put_begun(
    rt: &impl Abort,
    alloc: Global,
    pool: &mut Pool<'_, MemDisk>,
) -> Result<(), TestRefusal>
    requires works { CanCommit (disk_of pool.old.io) pool.old.io.space pool.old.kept.body }
    ensures ready { pool.new.io.failed ≡ false → Ready (disk_of pool.new.io) pool.new.kept.body }
    ensures same { pool.new.io.disk.ghost_name ≡ pool.old.io.disk.ghost_name }
{
    let partial = begun("tank/b@t")?;
    check_new(&pool.kept.dir, &partial.snapshot_name())?;
    assert_eq!(rt; pool.put_partial(alloc, partial, false)?, 3);
    Ok(())
}

// Leaves out the partial state of tank/b.
fn drop_begun(pool: &mut Pool<'_, MemDisk>) -> Result<(), TestRefusal>
    requires ready { pool.old.io.failed ≡ false → Ready (disk_of pool.old.io) pool.old.kept.body }
    ensures ready { pool.new.io.failed ≡ false → Ready (disk_of pool.new.io) pool.new.kept.body }
    ensures same { pool.new.io.disk.ghost_name ≡ pool.old.io.disk.ghost_name }
{
    pool.drop_partial(&DatasetName::parse("tank/b").map_err(PlanFault::from)?);
    Ok(())
}

// Checks how many datasets and partial states a directory has.
fn check_counts(rt: &impl Abort, dir: &Dir, datasets: usize, partials: usize) {
    assert_eq!(rt; dir.datasets().len(), datasets);
    assert_eq!(rt; dir.partials().len(), partials);
}

// Checks that a command is answered with this line.
fn check_answer(
    rt: &impl Abort,
    alloc: Global,
    pool: &mut Pool<'_, MemDisk>,
    line: &str,
    want: &str,
)
    requires ready { pool.old.io.failed ≡ false → Ready (disk_of pool.old.io) pool.old.kept.body }
    ensures ready { pool.new.io.failed ≡ false → Ready (disk_of pool.new.io) pool.new.kept.body }
    ensures same { pool.new.io.disk.ghost_name ≡ pool.old.io.disk.ghost_name }
{
    let reply = match step_in(alloc, pool, line) {
        Ok(reply) => reply,
        Err(_) => panic!(rt; "{line} is refused"),
    };
    let lines = reply.lines();
    assert_eq!(rt; lines.len(), 1);
    assert!(rt; lines[0].as_slice() == want.as_bytes(), "{want}");
}

// Checks that a command is refused with this text.
fn check_refused(
    rt: &impl Abort,
    alloc: Global,
    pool: &mut Pool<'_, MemDisk>,
    line: &str,
    want: &str,
)
    requires ready { pool.old.io.failed ≡ false → Ready (disk_of pool.old.io) pool.old.kept.body }
    ensures ready { pool.new.io.failed ≡ false → Ready (disk_of pool.new.io) pool.new.kept.body }
    ensures same { pool.new.io.disk.ghost_name ≡ pool.old.io.disk.ghost_name }
{
    match step_in(alloc, pool, line) {
        Ok(_) => panic!(rt; "{line} is answered"),
        Err(TestRefusal(refusal)) => assert_eq!(rt; refusal.text().as_str(), want),
    }
}

#[test]
fn a_session_that_is_not_kept_runs_beside_commands(rt: HostRuntime) -> Result<(), TestRefusal> {
    let alloc = rt.alloc();
    let mut disk = with_lines(alloc, &["fs here tank/a"])?;
    let mut pool = pool_on(alloc, &mut disk)?;
    put_begun(&rt, alloc, &mut pool)?;
    check_counts(&rt, &pool.kept.dir, 1, 1);
    check_answer(&rt, alloc, &mut pool, "fs here tank/c", "ok 4");
    check_counts(&rt, &pool.kept.dir, 2, 1);
    check_refused(&rt, alloc, &mut pool, "fs here tank/b", "exists: tank/b");
    Ok(())
}

#[test]
fn a_session_that_is_left_out_leaves_its_name(rt: HostRuntime) -> Result<(), TestRefusal> {
    let alloc = rt.alloc();
    let mut disk = with_lines(alloc, &["fs here tank/a"])?;
    let mut pool = pool_on(alloc, &mut disk)?;
    put_begun(&rt, alloc, &mut pool)?;
    check_answer(&rt, alloc, &mut pool, "fs here tank/c", "ok 4");
    drop_begun(&mut pool)?;
    check_counts(&rt, &pool.kept.dir, 2, 0);
    check_answer(&rt, alloc, &mut pool, "fs here tank/b", "ok 5");
    assert_eq!(rt; rows_of(alloc, pool.into_disk())?, (3, 0, 0));
    Ok(())
}
