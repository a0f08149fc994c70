//! The free extents that a commit writes, and those that opening reads.
ghost use Rattle.std.specs.Prelude.{◌≡◌, IfOk};

use crate::{all_free, zeros};
use std::alloc::{AllocError, Global};
use zst_block::{BlockFault, Io};
use zst_extents::{read_extents, write_extents, write_unmarked};
use zst_leaves::{read_leaves, write_leaves};
use zst_outside::{Disk, SureDisk};
use zst_space::{Extent, Space};
use zst_tree::OrMemory;

// Its sectors from 8 on are free, but for those from 72 up to 100 and from 110 up to 200.
fn in_pieces<'d>(alloc: Global, disk: &'d mut SureDisk) -> Result<Io<'d, SureDisk>, AllocError>
    requires { (⟦<SureDisk as Disk>⟧.state disk.old).size ≡ 16777216 }
    ensures { IfOk result (λ io. io.disk.ghost_name ≡ disk.entry.ghost_name) }
{
    let free = vec![in alloc;
        Extent {
            first: 8,
            count: 64
        },
        Extent {
            first: 100,
            count: 10
        },
    ]?;
    Ok(Io::new(alloc, disk, Space::new(200, 32_768, free)))
}

#[test]
fn the_extents_that_are_left_stand_there(rt: HostRuntime) -> Result<(), AllocError> {
    let mut disk = zeros(rt.alloc())?;
    let mut io = in_pieces(rt.alloc(), &mut disk)?;
    let Ok(stored) = write_extents(&mut io, rt.alloc(), 7) else {
        return Err(AllocError);
    };
    assert!(rt; stored.levels == 0 && stored.root.sector == 8 && stored.count == 2);
    let left = [
        Extent {
            first: 24,
            count: 48,
        },
        Extent {
            first: 100,
            count: 10,
        },
    ];
    assert!(rt; io.space.extents() == left.as_slice());
    let Ok(text) = read_leaves(&mut io, rt.alloc(), stored.levels, stored.root, 32) else {
        return Err(AllocError);
    };
    let words = [
        24, 0, 0, 0, 0, 0, 0, 0, 48, 0, 0, 0, 0, 0, 0, 0, 100, 0, 0, 0, 0, 0, 0, 0, 10, 0, 0, 0, 0,
        0, 0, 0,
    ];
    assert!(rt; text.as_slice() == words.as_slice());
    Ok(())
}

#[test]
fn the_extents_that_were_written_are_read_back(rt: HostRuntime) -> Result<(), AllocError> {
    let mut disk = zeros(rt.alloc())?;
    let mut io = in_pieces(rt.alloc(), &mut disk)?;
    let Ok(stored) = write_extents(&mut io, rt.alloc(), 7) else {
        return Err(AllocError);
    };
    let (levels, root, count) = (stored.levels, stored.root, stored.count);
    let Ok(read) = read_extents(&mut io, rt.alloc(), levels, root, count, 200) else {
        return Err(AllocError);
    };
    assert!(rt; read.as_slice() == io.space.extents());
    Ok(())
}

#[test]
fn extents_that_are_given_are_read_back(rt: HostRuntime) -> Result<(), AllocError> {
    let mut disk = zeros(rt.alloc())?;
    let mut io = in_pieces(rt.alloc(), &mut disk)?;
    let given = [
        Extent {
            first: 60,
            count: 8,
        },
        Extent {
            first: 150,
            count: 50,
        },
    ];
    let Ok(stored) = write_unmarked(&mut io, rt.alloc(), &given, 7) else {
        return Err(AllocError);
    };
    let (levels, root, count) = (stored.levels, stored.root, stored.count);
    assert!(rt; levels == 0 && root.sector == 8 && root.number == 7 && count == 2);
    let Ok(read) = read_extents(&mut io, rt.alloc(), levels, root, count, 200) else {
        return Err(AllocError);
    };
    assert!(rt; read.as_slice() == given.as_slice());
    Ok(())
}

// The text of two extents: the first sector and the count of each.
fn text_of([first, count, second, more]: [u8; 4]) -> [u8; 32] {
    [
        first, 0, 0, 0, 0, 0, 0, 0, count, 0, 0, 0, 0, 0, 0, 0, second, 0, 0, 0, 0, 0, 0, 0, more,
        0, 0, 0, 0, 0, 0, 0,
    ]
}

// Whether the read of two extents that end before sector 200 tells their root with both sums alike.
// Otherwise they are read.
fn is_refused(alloc: Global, extents: [u8; 4]) -> Result<bool, AllocError> {
    let mut disk = zeros(alloc)?;
    let mut io = all_free(alloc, &mut disk);
    let Ok(tree) = write_leaves(&mut io, &text_of(extents), 7) else {
        return Err(AllocError);
    };
    match read_extents(&mut io, alloc, tree.levels, tree.root, 2, 200) {
        Ok(_) => Ok(false),
        Err(
            OrMemory::Fault(
                BlockFault::Damaged {
                    sector,
                    stated,
                    found,
                },
            ),
        ) => Ok(sector == tree.root.sector && stated == found),
        Err(_) => Err(AllocError),
    }
}

#[test]
fn extents_that_are_not_apart_are_refused(rt: HostRuntime) -> Result<(), AllocError> {
    // A sector stands between them, and the second one ends at the end.
    assert!(rt; !is_refused(rt.alloc(), [8, 4, 13, 187])?);
    // They touch, they fall, and they have a sector in common.
    assert!(rt; is_refused(rt.alloc(), [8, 4, 12, 4])?);
    assert!(rt; is_refused(rt.alloc(), [20, 4, 8, 4])?);
    assert!(rt; is_refused(rt.alloc(), [8, 4, 11, 4])?);
    // One is empty, one begins before sector 8, and one passes the end.
    assert!(rt; is_refused(rt.alloc(), [8, 4, 20, 0])?);
    assert!(rt; is_refused(rt.alloc(), [7, 4, 20, 4])?);
    assert!(rt; is_refused(rt.alloc(), [8, 4, 190, 11])?);
    Ok(())
}
