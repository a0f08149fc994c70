//! Marks, and the extents of what has none.
use std::alloc::AllocError;
use zst_marks::Marks;
use zst_space::Extent;

#[test]
fn what_is_not_marked_stands_in_extents(rt: HostRuntime) -> Result<(), AllocError> {
    let mut marks = Marks::new(rt.alloc(), 200)?;
    marks.mark(10, 54);
    marks.mark(64, 1);
    marks.mark(70, 2);
    assert!(rt; marks.has(63) && marks.has(64) && !marks.has(65));
    let extents = marks.unmarked(rt.alloc(), 8, 100)?;
    assert!(rt; extents.len() == 3);
    assert!(rt; extents[0] == Extent { first: 8, count: 2 });
    assert!(rt;
        extents[1]
            == Extent {
                first: 65,
                count: 5
            }
    );
    assert!(rt;
        extents[2]
            == Extent {
                first: 72,
                count: 28
            }
    );
    Ok(())
}
