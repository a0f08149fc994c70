//! Walks of what a tree, a set and a text reach, beside an older one.
ghost use Rattle.std.specs.Prelude.{◌≡◌, length, true};
ghost use Rattle.zst_marks.specs.Marks.{HasRoomFor};
ghost use Rattle.zst_model.specs.states.State.{IsHead, is_spill_size};

use crate::{all_free, unread, zeros};
use std::alloc::{AllocError, Global};
use std::process::Abort;
use zst_block::{Io, Ptr};
use zst_fletcher::Sum;
use zst_leaves::write_leaves;
use zst_marks::Marks;
use zst_model::ObjectHead;
use zst_objset::{ObjFault, Objects};
use zst_outside::Disk;
use zst_reach::{mark_below, mark_set, mark_text};
use zst_tree::{ObjSet, Tree};

// A pointer to a sector of data with this date.
fn data(sector: u64, number: u64) -> Ptr
    ensures kind { result.kind ≡ 1 }
{
    Ptr {
        kind: 1,
        level: 0,
        length: 512,
        sector,
        number,
        sum: Sum {
            a: 1,
            b: 2,
            c: 3,
            d: 4,
        },
    }
}

// Checks which extents from sector 8 to 256 have no mark.
fn check_unmarked(
    rt: &impl Abort,
    alloc: Global,
    marks: &Marks,
    wanted: &[(u64, u64)],
) -> Result<(), AllocError>
    requires room { HasRoomFor marks.now 256 }
{
    let free = marks.unmarked(alloc, 8, 256)?;
    assert_eq!(rt; free.len(), wanted.len());
    for (found, (first, count)) in free.iter().zip(wanted) {
        assert!(rt; found.first == *first && found.count == *count, "{found:?}");
    }
    Ok(())
}

#[test]
fn a_tree_is_walked_beside_an_older_one(rt: HostRuntime) -> Result<(), AllocError> {
    let mut disk = zeros(rt.alloc())?;
    let mut io = all_free(rt.alloc(), &mut disk);
    let mut marks = Marks::new(rt.alloc(), 256)?;
    let mut tree = Tree {
        levels: 0,
        past: 0,
        root: Ptr::hole(0),
    };
    // Two leaves, two nodes above them, and the root, of 16 sectors each. What a level was written as when the tree grew by
    // it, at 8 and at 40, is reached no more.
    assert!(rt; tree.set(&mut io, 5, data(200, 7)).is_ok());
    assert!(rt; tree.set(&mut io, 200, data(210, 7)).is_ok());
    let older = tree;
    let hole = Ptr::hole(0);
    let done = mark_below(&mut io, &mut marks, 256, older.levels, older.root, 0, hole);
    assert!(rt; done.is_ok());
    let wanted = [(8, 16), (40, 16), (88, 112), (201, 9), (211, 45)];
    check_unmarked(&rt, rt.alloc(), &marks, &wanted)?;
    // Another leaf, a node above it, and the root: each of the nodes is read, and what stood there.
    assert!(rt; tree.set(&mut io, 5, data(220, 8)).is_ok());
    let mut io = unread(rt.alloc(), io)?;
    let before = io.disk.calls();
    let (levels, root) = (older.levels, older.root);
    let done = mark_below(
        &mut io,
        &mut marks,
        256,
        tree.levels,
        tree.root,
        levels,
        root,
    );
    assert!(rt; done.is_ok());
    assert_eq!(rt; io.disk.calls().saturating_sub(before), 4);
    let wanted = [(8, 16), (40, 16), (120, 80), (201, 9), (211, 9), (221, 35)];
    check_unmarked(&rt, rt.alloc(), &marks, &wanted)?;
    Ok(())
}

// The head of a file with blocks of 512 bytes.
#[tactic(auto, unfolding(zst_model::specs::states::State::is_block_size, zst_model::specs::states::State::largest_block))]
fn file() -> ObjectHead
    ensures { IsHead result }
{
    ObjectHead {
        type_: 19,
        bonus_type: 0,
        block_size: 512,
    }
}

// The bytes of a spill block.
#[tactic(auto, unfolding(zst_model::specs::states::State::is_spill_size))]
fn spill() -> [u8; 512]
    ensures { is_spill_size (length result) ≡ true }
{
    [5; 512]
}

// A snapshot of two objects in two leaves: object 1 has a block at 24, a spill at 41 and its slot in the
// leaf at 42; object 20 has a block at 106 below a node at 123, and its slot in the leaf at 139. The node
// of the set stands at 155. What stands between them was written before, and is reached no more.
fn two_objects<D: Disk>(io: &mut Io<'_, D>) -> Result<ObjSet, ObjFault>
    ensures same { io.new.disk.ghost_name ≡ io.old.disk.ghost_name }
{
    let mut set = ObjSet::empty();
    set.put_object(io, 1, file(), &[], false, 7)?;
    set.write_block(io, 1, 0, &[1; 512], 7)?;
    set.put_spill(io, 1, &spill(), 7)?;
    set.put_object(io, 20, file(), &[], false, 7)?;
    set.write_block(io, 20, 5, &[2; 512], 7)?;
    Ok(set)
}

#[test]
fn a_snapshot_is_walked_beside_the_one_before_it(rt: HostRuntime) -> Result<(), AllocError> {
    let mut disk = zeros(rt.alloc())?;
    let mut io = all_free(rt.alloc(), &mut disk);
    let mut marks = Marks::new(rt.alloc(), 256)?;
    let Ok(older) = two_objects(&mut io) else {
        return Err(AllocError);
    };
    let done = mark_set(&mut io, &mut marks, 256, &older, &ObjSet::empty());
    assert!(rt; done.is_ok());
    let wanted = [(8, 16), (25, 16), (58, 48), (107, 16), (171, 85)];
    check_unmarked(&rt, rt.alloc(), &marks, &wanted)?;
    // Another block of object 20 at 171, its node, its leaf and the node of the set. Each of the three is
    // read, and what stood in its place; the leaf of object 1 isn't, nor is what it reaches.
    let mut newer = older;
    assert!(rt; newer.write_block(&mut io, 20, 5, &[3; 512], 8).is_ok());
    let mut io = unread(rt.alloc(), io)?;
    let before = io.disk.calls();
    assert!(rt; mark_set(&mut io, &mut marks, 256, &newer, &older).is_ok());
    assert_eq!(rt; io.disk.calls().saturating_sub(before), 6);
    let wanted = [(8, 16), (25, 16), (58, 48), (107, 16), (220, 36)];
    check_unmarked(&rt, rt.alloc(), &marks, &wanted)?;
    // Beside itself it isn't read again.
    let before = io.disk.calls();
    assert!(rt; mark_set(&mut io, &mut marks, 256, &newer, &newer).is_ok());
    assert_eq!(rt; io.disk.calls().saturating_sub(before), 0);
    // Beside none it reaches less than both do.
    let mut marks = Marks::new(rt.alloc(), 256)?;
    let done = mark_set(&mut io, &mut marks, 256, &newer, &ObjSet::empty());
    assert!(rt; done.is_ok());
    let wanted = [(8, 16), (25, 16), (58, 113), (220, 36)];
    check_unmarked(&rt, rt.alloc(), &marks, &wanted)?;
    Ok(())
}

#[test]
fn the_leaves_of_a_text_are_marked(rt: HostRuntime) -> Result<(), AllocError> {
    let mut disk = zeros(rt.alloc())?;
    let mut io = all_free(rt.alloc(), &mut disk);
    let mut marks = Marks::new(rt.alloc(), 256)?;
    // Two leaves, and the node above them, of 16 sectors each. No leaf is read.
    let Ok(tree) = write_leaves(&mut io, &[7; 10_000], 7) else {
        return Err(AllocError);
    };
    let mut io = unread(rt.alloc(), io)?;
    let before = io.disk.calls();
    let done = mark_text(&mut io, &mut marks, 256, tree.levels, tree.root);
    assert!(rt; done.is_ok());
    assert_eq!(rt; io.disk.calls().saturating_sub(before), 1);
    check_unmarked(&rt, rt.alloc(), &marks, &[(56, 200)])?;
    Ok(())
}
