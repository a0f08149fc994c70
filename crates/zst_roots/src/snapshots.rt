// What the snapshots of a pool reach is marked.
ghost use Rattle.std.specs.Prelude.{◌⊎◌, ℕ, All, OnOk};
ghost use Rattle.zst_block.specs.Blocks.{IsBlock};
ghost use Rattle.zst_block.specs.IoStates.{IsHonest, blocks_of, disk_of, io_of};
ghost use Rattle.zst_block.specs.IoCalls.{Looks};
ghost use Rattle.zst_marks.specs.Marks.{HasRoomFor, IsMarked, MarksMore};
ghost use Rattle.zst_objset.specs.Damage.{IfDamage};
ghost use Rattle.zst_tree.specs.Damage.{IsSeen};
ghost use Rattle.zst_tree.specs.Faults.{GivesOrTells, IfFault, fault_of};
ghost use Rattle.zst_tree.specs.Indices.{IsNoDamage};
ghost use Rattle.zst_roots.specs.ReachedRows.{AreMarkedForSnapshots, IsReachedBySome, SnapshotReaches};
ghost use Rattle.zst_roots.specs.RowDamage.{IsDamagedSnapshot, IsToldOfSome};
ghost use Rattle.zst_roots.specs.StandingRows.{SnapshotStands};

use crate::nearest::{before_snapshot, walked_at};
use crate::turns::turns_of;
use std::alloc::Global;
use zst_block::{BlockFault, Io};
use zst_dir::Dir;
use zst_marks::Marks;
use zst_outside::Disk;
use zst_reach::mark_set;
use zst_tree::OrMemory;

// Marks what each snapshot reaches, by rising number, beside the nearest one before it that was walked: a chain of
// snapshots costs what changed between them. A flag for each tells whether it was, whatever the rows' order.
pub(crate) fn mark_snapshots<D: Disk>(
    io: &mut Io<'_, D>,
    alloc: Global,
    marks: &mut Marks,
    end: u64,
    dir: &Dir,
) -> Result<(), OrMemory<BlockFault>>
    requires room { HasRoomFor marks.old end }
    ensures all { IsHonest io.new → OnOk result (AreMarkedForSnapshots (disk_of io.old).seen end marks.new dir.now.snapshots) }
    ensures only { IsHonest io.new → (sector : ℕ) → IsMarked marks.new sector → IsMarked marks.old sector ⊎ IsReachedBySome dir.now.snapshots (SnapshotReaches (IsBlock (disk_of io.old).seen)) sector }
    ensures more { MarksMore marks.old marks.new }
    ensures stands { IsHonest io.new → All (SnapshotStands (blocks_of io.old)) dir.now.snapshots → GivesOrTells (λ done. Unit {0}) IsNoDamage result }
    ensures damaged { IsHonest io.new → IfFault result (λ fault. IfDamage fault (IsToldOfSome dir.now.snapshots (IsDamagedSnapshot (IsSeen (disk_of io.old).seen) (disk_of io.old).size))) }
    ensures looks { Looks (io_of io.old) (io_of io.new) (fault_of result) }
{
    let rows = dir.snapshots();
    let turns = turns_of(alloc, rows)?;
    let mut walked = vec![in alloc; false; rows.len()]?;
    for turn in turns.as_slice() {
        let place = turn.1;
        let known = walked_at(rows, walked.as_slice(), before_snapshot(dir, place));
        mark_set(io, marks, end, &rows[place].objects, &known)?;
        walked[place] = true;
    }
    Ok(())
}
