// The extents that are left unmarked, once the blocks in which they are to stand were taken.
ghost use Rattle.std.specs.Prelude.{◌≡◌, ◌⊎◌, ◌↔◌, ◌+◌, ◌*◌, ◌<◌, ◌≤◌, ℕ, IfOk, OnOk, length};
ghost use Rattle.zst_space.specs.FreeSectors.{IsFree, IsSpaceFrom, IsWithin};
ghost use Rattle.zst_marks.specs.Marks.{HasRoomFor, IsMarked};
ghost use Rattle.zst_tree.specs.Faults.{IfFault};
ghost use Rattle.zst_extents.specs.UnmarkedExtents.{AreUnmarked, IsFullFor, IsFullWithin, IsSpaceUpTo, MarksTaken, TakesEnough, TakesMarked};

use crate::reads::MOST_EXTENTS;
use crate::writes::blocks_for;
use std::alloc::Global;
use zst_marks::Marks;
use zst_space::{Extent, Space, SpaceFault};
use zst_tree::OrMemory;

// Marks the 16 sectors of a block that stands before the end, and nothing of one behind it.
fn mark_before(marks: &mut Marks, first: u64, end: u64)
    requires whole { first < end → first + 16 ≤ end }
    requires room { HasRoomFor marks.old end }
    ensures marked { (sector : ℕ) → IsMarked marks.new sector ↔ (((sector < end) × IsWithin first 16 sector) ⊎ IsMarked marks.old sector) }
    ensures words { length marks.new ≡ length marks.old }
{
    if first < end {
        marks.mark(first, 16);
    }
}

// Takes so many blocks of a tree in turn, and marks those that stand before the end.
fn take_marked(
    space: &mut Space,
    marks: &mut Marks,
    end: u64,
    blocks: u64,
) -> Result<(), OrMemory<SpaceFault>>
    requires space { IsSpaceUpTo end space.old }
    requires room { HasRoomFor marks.old end }
    ensures taken { OnOk result (TakesMarked end blocks space.old space.new marks.old marks.new) }
    ensures fewer { (sector : ℕ) → IsFree space.new sector → IsFree space.old sector }
    ensures full { IfFault result (IsFullWithin blocks space.old space.new) }
    ensures kept { IsSpaceFrom 8 space.new }
    ensures sectors { space.new.sectors ≡ space.old.sectors }
{
    for k in 0..blocks {
        match space.take(16) {
            Ok(first) => mark_before(marks, first, end),
            Err(full) => return Err(OrMemory::Fault(full)),
        }
    }
    Ok(())
}

/// Takes so many blocks of a tree in turn and marks them, and then as many more as are taken by the
/// extents that aren't marked in the end. Gives these extents: they rise from sector 8 on up to the
/// end that the space had, none is empty, and no two touch.
///
/// Blocks that stand behind that end have no marks. More than 2^30 extents find no memory.
pub fn leave_unmarked(
    alloc: Global,
    space: &mut Space,
    marks: &mut Marks,
    blocks: u64,
) -> Result<Vec<Extent>, OrMemory<SpaceFault>>
    requires space { IsSpaceFrom 8 space.old }
    requires room { HasRoomFor marks.old space.old.end }

    // The extents are those of the sectors that aren't marked, once all that was taken is.
    ensures extents { IfOk result (λ extents. AreUnmarked marks.new space.old.end extents.items) }
    ensures marked { OnOk result (MarksTaken space.old.end space.old space.new marks.old marks.new) }
    ensures enough { IfOk result (λ extents. TakesEnough blocks (length extents.items) marks.old space.old space.new) }
    // The space's extents stand before the end that it had, and it has none that is earlier.
    ensures left { OnOk result (IsSpaceUpTo space.old.end space.new) }

    // Whatever it answers, no sector becomes free. It stops only where no free extent has the 16 sectors of one of these blocks.
    ensures fewer { (sector : ℕ) → IsFree space.new sector → IsFree space.old sector }
    ensures full { IfFault result (IsFullFor blocks marks.old space.old space.new) }
    ensures kept { IsSpaceFrom 8 space.new }
    ensures sectors { space.new.sectors ≡ space.old.sectors }
{
    let end = space.end();
    take_marked(space, marks, end, blocks)?;
    let mut taken = 0;
    'rounds: loop {
        let extents = marks.unmarked(alloc, 8, end)?;
        if extents.len() as u64 > MOST_EXTENTS {
            return Err(OrMemory::Memory);
        }
        // What is taken for the extents may cut one of them into two.
        let needed = blocks_for(extents.len());
        if needed <= taken {
            return Ok(extents);
        }
        take_marked(space, marks, end, needed - taken)?;
        taken = needed;
    }
}
