//! The extents that are left between marks, once their blocks were taken.
ghost use Rattle.std.specs.Prelude.{◌≡◌, length};
ghost use Rattle.zst_marks.specs.Marks.{HasRoomFor};

use std::alloc::AllocError;
use zst_extents::leave_unmarked;
use zst_marks::Marks;
use zst_space::{Extent, Space};

fn extent(first: u64, count: u64) -> Extent
    ensures first { result.first ≡ first }
    ensures count { result.count ≡ count }
{
    Extent { first, count }
}

#[test]
fn what_is_taken_is_marked_and_the_rest_is_left(rt: HostRuntime) -> Result<(), AllocError> {
    let mut marks = Marks::new(rt.alloc(), 200)?;
    marks.mark(8, 32);
    marks.mark(64, 36);
    marks.mark(166, 34);
    // From sector 150 on up to 166 nothing is marked and nothing free.
    let free = vec![in rt.alloc(); extent(40, 24), extent(100, 50)]?;
    let mut space = Space::new(200, 1000, free);
    let Ok(left) = leave_unmarked(rt.alloc(), &mut space, &mut marks, 1) else {
        return Err(AllocError);
    };
    // One block stands at 40, and that of the two extents at 100.
    assert!(rt; left.as_slice() == [extent(56, 8), extent(116, 50)].as_slice());
    assert!(rt; space.extents() == [extent(56, 8), extent(116, 34)].as_slice());
    assert!(rt; marks.has(40) && marks.has(55) && !marks.has(56));
    assert!(rt; marks.has(100) && marks.has(115) && !marks.has(116));
    Ok(())
}

#[test]
fn blocks_behind_the_end_have_no_marks(rt: HostRuntime) -> Result<(), AllocError> {
    let mut marks = Marks::new(rt.alloc(), 200)?;
    marks.mark(8, 142);
    marks.mark(166, 34);
    let mut space = Space::new(200, 1000, Vec::new(rt.alloc()));
    let Ok(left) = leave_unmarked(rt.alloc(), &mut space, &mut marks, 1) else {
        return Err(AllocError);
    };
    assert!(rt; left.as_slice() == [extent(150, 16)].as_slice());
    assert!(rt; space.extents().is_empty() && space.end() == 232);
    Ok(())
}

// Marks 512 sectors, each second one from 8 on up to 1030.
fn mark_each_second(marks: &mut Marks)
    requires room { HasRoomFor marks.old 1131 }
    ensures words { length marks.new ≡ length marks.old }
{
    for k in 0..512 {
        marks.mark(8 + 2 * k, 1);
    }
}

#[test]
fn what_is_taken_may_cut_an_extent_into_two(rt: HostRuntime) -> Result<(), AllocError> {
    let mut marks = Marks::new(rt.alloc(), 1131)?;
    mark_each_second(&mut marks);
    // From 1031 on nothing is marked, and what is free begins 16 sectors behind.
    let free = vec![in rt.alloc(); extent(1047, 84)]?;
    let mut space = Space::new(1131, 2000, free);
    let Ok(left) = leave_unmarked(rt.alloc(), &mut space, &mut marks, 0) else {
        return Err(AllocError);
    };
    // 512 extents take one block. It stands at 1047, and leaves 513, which take two leaves and a node.
    assert!(rt; left.len() == 513);
    assert!(rt; left[0] == extent(9, 1) && left[510] == extent(1029, 1));
    assert!(rt; left[511] == extent(1031, 16) && left[512] == extent(1095, 36));
    assert!(rt; space.extents() == [extent(1095, 36)].as_slice());
    Ok(())
}
