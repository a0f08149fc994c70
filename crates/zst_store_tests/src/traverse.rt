//! Walks over sets, told briefly.

mod sets;
mod walks;

use crate::traverse::sets::scattered;
use crate::traverse::walks::{WalkAnswer, walk};
use crate::{all_free, unread, zeros};
use std::test::Fail;
use zst_model::{Cell, List, Run};

// The set is one leaf, and the object's tree has 3 levels. The first call reads the leaf and the path
// to the block, which the others go down again: 4 reads.
#[test]
fn a_walk_after_one_write_reads_its_path_alone(rt: HostRuntime) -> Result<(), Fail> {
    let mut disk = zeros(rt.alloc())?;
    let mut io = all_free(rt.alloc(), &mut disk);
    let set = scattered(&mut io)?;
    let none = List::empty(rt.alloc());
    let mut io = unread(rt.alloc(), io)?;
    let (all, calls) = walk(rt.alloc(), &mut io, &set, Some(302), &none, &none, 3)?;
    let wanted = [
        WalkAnswer::Object(1),
        WalkAnswer::Pairs(1, 0, 1, Cell::Data),
        WalkAnswer::Nothing,
    ];
    assert!(rt; all.as_slice() == wanted.as_slice(), "{all:?}");
    assert_eq!(rt; calls, 4);
    Ok(())
}

// One index of the first object, which has a block at each 128th.
fn block_at(index: u64) -> Run {
    Run {
        object: 1,
        first: index,
        count: 1,
    }
}

// Nothing is dated after the source. The first call reads the leaf, and the second the path to the listed
// block. The withheld block, which hangs below another node, isn't looked up: 4 reads.
#[test]
fn a_walk_by_lists_looks_up_what_is_not_withheld(rt: HostRuntime) -> Result<(), Fail> {
    let mut disk = zeros(rt.alloc())?;
    let mut io = all_free(rt.alloc(), &mut disk);
    let set = scattered(&mut io)?;
    let mut io = unread(rt.alloc(), io)?;
    let listed = List::new([block_at(128)].to_vec(rt.alloc())?).ok_or("refused")?;
    let withheld = List::new([block_at(256)].to_vec(rt.alloc())?).ok_or("refused")?;
    let (all, calls) = walk(rt.alloc(), &mut io, &set, Some(303), &listed, &withheld, 4)?;
    let wanted = [
        WalkAnswer::Object(1),
        WalkAnswer::Pairs(1, 128, 1, Cell::Data),
        WalkAnswer::Pairs(1, 256, 1, Cell::Redacted),
        WalkAnswer::Nothing,
    ];
    assert!(rt; all.as_slice() == wanted.as_slice(), "{all:?}");
    assert_eq!(rt; calls, 4);
    Ok(())
}
