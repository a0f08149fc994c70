// Images whose latest body names free extents, as one would that a sector was freed in.
ghost use Rattle.std.specs.Prelude.{◌≡◌, ◌+◌, ◌<◌, ◌≤◌, ◌∷◌, ℕ, [], IfOk};
ghost use Rattle.zst_marks.specs.Marks.{HasRoomFor, IsMarked};

use crate::pools::{SMALL, pool_on, step_on, with_lines};
use crate::refusals::TestRefusal;
use std::alloc::{AllocError, Global};
use std::process::Abort;
use zst_block::{Io, Ptr};
use zst_image::{PoolState, commit_unmarked};
use zst_leaves::write_leaves;
use zst_marks::Marks;
use zst_model::Refusal;
use zst_outside::{Disk, MemDisk};
use zst_space::{Extent, Space};
use zst_uber::{Uber, commit};

// The end of the small pool: so the sector of a leaf that is written behind it.
const LEAF: u64 = 121;

// The text of two extents: the first sector and the count of each.
fn text_of([first, count, second, more]: [u8; 4]) -> [u8; 32] {
    [
        first, 0, 0, 0, 0, 0, 0, 0, count, 0, 0, 0, 0, 0, 0, 0, second, 0, 0, 0, 0, 0, 0, 0, more,
        0, 0, 0, 0, 0, 0, 0,
    ]
}

// The root of a leaf with two extents, behind the end of the pool of a disk.
fn leaf_on(alloc: Global, disk: &mut MemDisk, extents: [u8; 4]) -> Result<Ptr, TestRefusal> {
    let mut pool = pool_on(alloc, disk)?;
    match write_leaves(&mut pool.io, &text_of(extents), 6) {
        Ok(tree) => Ok(tree.root),
        Err(_) => Err(TestRefusal(Refusal::DiskFault)),
    }
}

// The body of the next commit, which changes nothing but that it names two extents in this leaf.
fn naming(uber: &Uber, leaf: &Ptr) -> Result<Uber, TestRefusal>
    ensures { IfOk result (λ next. next.number ≡ uber.now.number + 1) }
{
    let Some(number) = uber.number.checked_add(1) else {
        return Err(TestRefusal(Refusal::Failed));
    };
    Ok(Uber {
        number,
        end: leaf.sector.saturating_add(16),
        free_count: 2,
        free_levels: 0,
        free_root: *leaf,
        ..*uber
    })
}

// The small pool, of which sectors 8 to 71 have only directories and sets that nothing reaches any
// more, as its latest body names two extents.
pub(crate) fn with_extents(alloc: Global, extents: [u8; 4]) -> Result<MemDisk, TestRefusal> {
    let mut disk = with_lines(alloc, &SMALL)?;
    let leaf = leaf_on(alloc, &mut disk, extents)?;
    let kept = PoolState::open(alloc, &mut disk)?;
    let next = naming(kept.body.uber(), &leaf)?;
    match commit(&mut disk, &next) {
        Ok(()) => Ok(disk),
        Err(_) => Err(TestRefusal(Refusal::DiskFault)),
    }
}

// Checks which two extents the pool of a disk is opened with.
fn check_free(
    rt: &impl Abort,
    alloc: Global,
    disk: &mut MemDisk,
    [first, count, second, more]: [u64; 4],
) -> Result<(), TestRefusal> {
    let want = [
        Extent { first, count },
        Extent {
            first: second,
            count: more,
        },
    ];
    assert!(rt; PoolState::open(alloc, disk)?.body.free() == want.as_slice());
    Ok(())
}

// Checks what the block of the file begins with that this names, once the pool is opened.
pub(super) fn check_block(
    rt: &impl Abort,
    alloc: Global,
    disk: &mut MemDisk,
    line: &str,
    want: &[u8],
) -> Result<(), TestRefusal> {
    let reply = step_on(alloc, disk, line)?;
    let lines = reply.lines();
    assert_eq!(rt; lines.len(), 1);
    assert!(rt; lines[0].as_slice().starts_with(want), "{line}");
    Ok(())
}

#[test]
fn blocks_take_the_first_free_extent_that_fits(rt: HostRuntime) -> Result<(), TestRefusal> {
    let alloc = rt.alloc();
    let mut disk = with_extents(alloc, [8, 4, 24, 40])?;
    check_free(&rt, alloc, &mut disk, [8, 4, 24, 40])?;
    step_on(alloc, &mut disk, "write here tank/a 1 0 bb")?;
    // The block stands at 8. The set's leaf and the directory are longer than what is left there, so
    // they stand at 24 and at 40, and the leaf of the extents at the end.
    check_free(&rt, alloc, &mut disk, [9, 3, 56, 8])?;
    let kept = PoolState::open(alloc, &mut disk)?;
    assert_eq!(rt; kept.body.uber().dir_root.sector, 40);
    assert_eq!(rt; kept.body.uber().free_root.sector, LEAF + 16);
    check_block(&rt, alloc, &mut disk, "read here tank/a 1 0", b"data bb")?;
    check_block(&rt, alloc, &mut disk, "read here tank/a@s 1 0", b"data aa")?;
    Ok(())
}

#[test]
fn extents_that_touch_are_told_as_damage_at_their_root(rt: HostRuntime) -> Result<(), TestRefusal> {
    let mut disk = with_extents(rt.alloc(), [8, 4, 12, 4])?;
    match pool_on(rt.alloc(), &mut disk) {
        Err(
            TestRefusal(
                Refusal::Damaged {
                    sector,
                    stated,
                    found,
                },
            ),
        ) => assert!(rt; sector == LEAF && stated == found),
        _ => panic!(rt; "extents that touch are read"),
    }
    Ok(())
}

// Marks of sectors 0 to 7, and of those that the rows of the small pool reach: a block at 72, and
// the leaf of its set at 73, which the head and the snapshot share.
fn marks_of_rows(alloc: Global, end: u64) -> Result<Marks, AllocError>
    requires { 89 ≤ end }
    ensures room { IfOk result (λ marks. HasRoomFor marks end) }
    ensures before { IfOk result (λ marks. (sector : ℕ) → 8 ≤ sector → sector < 72 → ¬ IsMarked marks sector) }
    ensures behind { IfOk result (λ marks. (sector : ℕ) → 89 ≤ sector → ¬ IsMarked marks sector) }
{
    let mut marks = Marks::new(alloc, end)?;
    marks.mark(0, 8);
    marks.mark(72, 17);
    Ok(marks)
}

// What neither these rows nor the texts of the small pool's body reach. The directory stands at 105.
fn unreached(alloc: Global, uber: &Uber) -> Result<Space, AllocError>
    ensures { IfOk result (λ space. space ≡ record { end = uber.now.end; sectors = uber.now.sectors; free = record { first = 8; count = 64 } ∷ record { first = 89; count = 16 } ∷ [] }) }
{
    let mut free = Vec::new(alloc);
    free.push(Extent {
        first: 8,
        count: 64,
    })?;
    free.push(Extent {
        first: 89,
        count: 16,
    })?;
    Ok(Space::new(uber.end, uber.sectors, free))
}

// Commits the directory of the small pool once more, and makes free what its rows don't reach.
fn free_rest(alloc: Global, disk: &mut MemDisk) -> Result<(), TestRefusal> {
    let PoolState { body, dir } = PoolState::open(alloc, disk)?;
    let uber = body.uber();
    if uber.end != LEAF || uber.number > 9 {
        return Err(TestRefusal(Refusal::Failed));
    }
    let space = unreached(alloc, uber)?;
    let marks = marks_of_rows(alloc, uber.end)?;
    let mut io = Io::new(alloc, disk, space);
    commit_unmarked(&mut io, alloc, &body, dir, marks)?;
    Ok(())
}

#[test]
fn what_no_row_reaches_is_free_and_the_end_stays(rt: HostRuntime) -> Result<(), TestRefusal> {
    let alloc = rt.alloc();
    let mut disk = with_lines(alloc, &SMALL)?;
    free_rest(alloc, &mut disk)?;
    // The directory stands at 8 and the leaf of the extents at 24. What the old directory stood in is
    // free too.
    check_free(&rt, alloc, &mut disk, [40, 32, 89, 32])?;
    let kept = PoolState::open(alloc, &mut disk)?;
    assert_eq!(rt; kept.body.uber().dir_root.sector, 8);
    assert_eq!(rt; kept.body.uber().free_root.sector, 24);
    assert_eq!(rt; kept.body.uber().end, LEAF);
    check_block(&rt, alloc, &mut disk, "read here tank/a 1 0", b"data aa")?;
    Ok(())
}
