//! What the rows of a pool's directory reach, and what nothing of a pool reaches.
ghost use Rattle.std.specs.Prelude.{◌≡◌, IfOk};
ghost use Rattle.zst_block.specs.IoStates.{disk_of};
ghost use Rattle.zst_marks.specs.Marks.{HasRoomFor};
ghost use Rattle.zst_pool.specs.Calls.{CanCommit};

use crate::pool::free_extents::with_extents;
use crate::pools::{pool_on, with_lines};
use crate::recv::{running, small_stream};
use crate::refusals::TestRefusal;
use std::alloc::{AllocError, Global};
use std::process::Abort;
use zst_marks::Marks;
use zst_model::Refusal;
use zst_outside::MemDisk;
use zst_pool::Pool;
use zst_roots::{UnreachedSectors, find_unreached, mark_rows};
use zst_space::Extent;

// Each commit writes a directory of 16 sectors. The empty one stands at 8, and with each line one more, behind what the line
// has written: blocks of 512 bytes, leaves of object sets, and a list, of 16 sectors each.
const LINES: [&str; 10] = [
    // The directory at 24.
    "fs here tank/a",
    // A leaf at 40, the directory at 56.
    "object here tank/a 1 19 512 0 none none",
    // A block at 72, its leaf at 73, the directory at 89, and that of the snapshot at 105.
    "write here tank/a 1 0 aa",
    "snapshot here tank/a@s",
    // The directory at 121; a block at 137, its leaf at 138, directories at 154 and 170.
    "clone here tank/a@s tank/c",
    "write here tank/c 1 0 bb",
    "snapshot here tank/c@x",
    // The list of one run at 186, the directory at 202.
    "redact here tank/a@s tank/a#k tank/c@x",
    // A block at 218, its leaf at 219, the directory at 235.
    "write here tank/a 1 0 cc",
    // A block at 251, its leaf at 252, the directory at 268.
    "write here tank/c 1 0 dd",
];

// Checks the first sectors and the counts of extents.
pub(crate) fn check_extents(rt: &impl Abort, found: &[Extent], wanted: &[(u64, u64)]) {
    assert_eq!(rt; found.len(), wanted.len());
    for (extent, (first, count)) in found.iter().zip(wanted) {
        assert!(rt;
            extent.first == *first && extent.count == *count,
            "{extent:?}"
        );
    }
}

// Checks which extents from sector 8 to 512 have no mark.
fn check_unmarked(
    rt: &impl Abort,
    alloc: Global,
    marks: &Marks,
    wanted: &[(u64, u64)],
) -> Result<(), AllocError>
    requires room { HasRoomFor marks.now 512 }
{
    let free = marks.unmarked(alloc, 8, 512)?;
    check_extents(rt, free.as_slice(), wanted);
    Ok(())
}

// What the rows of a pool reach, up to sector 512.
fn marked(alloc: Global, pool: &mut Pool<'_, MemDisk>) -> Result<Marks, TestRefusal>
    ensures room { IfOk result (λ marks. HasRoomFor marks 512) }
    ensures same { pool.new.io.disk.ghost_name ≡ pool.old.io.disk.ghost_name }
{
    let mut marks = Marks::new(alloc, 512)?;
    match mark_rows(&mut pool.io, alloc, &mut marks, 512, &pool.kept.dir) {
        Ok(()) => Ok(marks),
        Err(_) => Err(TestRefusal(Refusal::Failed)),
    }
}

#[test]
fn sets_and_lists_are_marked_and_no_directory(rt: HostRuntime) -> Result<(), TestRefusal> {
    let alloc = rt.alloc();
    let stream = small_stream(alloc)?;
    let mut disk = with_lines(alloc, &LINES)?;
    let mut pool = pool_on(alloc, &mut disk)?;
    // BEGIN and the records up to that of the object: a leaf at 284, and the directory at 300.
    let _recv = running(alloc, &mut pool, stream.get(..1_000).unwrap_or(&[]))?;
    assert_eq!(rt; pool.kept.body.uber().end, 316);
    let marks = marked(alloc, &mut pool)?;
    // The block and the leaf of each snapshot, the list, those of each head, and the leaf of the partial state.
    let wanted = [
        (8, 64),
        (89, 48),
        (154, 32),
        (202, 16),
        (235, 16),
        (268, 16),
        (300, 212),
    ];
    check_unmarked(&rt, alloc, &marks, &wanted)?;
    Ok(())
}

// What nothing of a pool reaches.
pub(crate) fn unreached(
    alloc: Global,
    pool: &mut Pool<'_, MemDisk>,
) -> Result<UnreachedSectors, TestRefusal>
    requires works { CanCommit (disk_of pool.old.io) pool.old.io.space pool.old.kept.body }
    ensures room { IfOk result (λ found. HasRoomFor found.marks pool.old.kept.body.uber.end) }
    ensures same { pool.new.io.disk.ghost_name ≡ pool.old.io.disk.ghost_name }
{
    match find_unreached(
        &mut pool.io,
        alloc,
        pool.kept.body.uber(),
        &pool.kept.dir,
        &[],
    ) {
        Ok(found) => Ok(found),
        Err(_) => Err(TestRefusal(Refusal::Failed)),
    }
}

#[test]
fn what_nothing_reaches_is_free_and_what_stays_reached_is_marked(
    rt: HostRuntime,
) -> Result<(), TestRefusal> {
    let alloc = rt.alloc();
    // A block at 72 and the leaf of the set at 73, which the head and the snapshot share; the directory at 105, and the
    // leaf of the two extents at 121. All before 72 and at 89 are directories and leaves of commits before.
    let mut disk = with_extents(alloc, [8, 4, 24, 40])?;
    let mut pool = pool_on(alloc, &mut disk)?;
    let end = pool.kept.body.uber().end;
    assert_eq!(rt; end, 137);
    let found = unreached(alloc, &mut pool)?;
    check_extents(&rt, found.space.extents(), &[(8, 64), (89, 16)]);
    // The directory and the extents don't stay reached.
    let marked = found.marks.unmarked(alloc, 8, end)?;
    check_extents(&rt, marked.as_slice(), &[(8, 64), (89, 48)]);
    Ok(())
}
