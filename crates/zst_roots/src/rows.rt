// What the rows of a directory reach is marked.
ghost use Rattle.std.specs.Prelude.{◌⊎◌, ℕ, Option, OnOk};
ghost use Rattle.zst_block.specs.Blocks.{IsBlock};
ghost use Rattle.zst_block.specs.IoStates.{IsHonest, blocks_of, disk_of, io_of};
ghost use Rattle.zst_block.specs.IoCalls.{Looks};
ghost use Rattle.zst_image.specs.Reads.{RunsBy};
ghost use Rattle.zst_marks.specs.Marks.{HasRoomFor, IsMarked, MarksMore};
ghost use Rattle.zst_model.specs.pools.Pool.{Pool};
ghost use Rattle.zst_objset.specs.Damage.{IfDamage};
ghost use Rattle.zst_tree.specs.Damage.{IsSeen};
ghost use Rattle.zst_tree.specs.Faults.{GivesOrTells, IfFault, fault_of};
ghost use Rattle.zst_tree.specs.Indices.{IsNoDamage};
ghost use Rattle.zst_roots.specs.ReachedRows.{AreMarkedForRows, RowsReach};
ghost use Rattle.zst_roots.specs.RowDamage.{IsDamagedInRows};

use crate::lists::mark_lists;
use crate::set_rows::mark_sets;
use crate::snapshots::mark_snapshots;
use std::alloc::Global;
use zst_block::{BlockFault, Io};
use zst_dir::{Dataset, Dir, Partial};
use zst_marks::Marks;
use zst_outside::Disk;
use zst_tree::OrMemory;

/// Marks the sectors of all that the rows of a directory reach, before an end: of each head, snapshot and partial state, and of
/// the list of each bookmark. What a row has in common with the nearest snapshot before it is walked once.
pub fn mark_rows<D: Disk>(
    io: &mut Io<'_, D>,
    alloc: Global,
    marks: &mut Marks,
    end: u64,
    dir: &Dir,
) -> Result<(), OrMemory<BlockFault>>
    requires room { HasRoomFor marks.old end }

    // All that the rows reach is marked, and nothing else; what was marked stays so.
    ensures all { IsHonest io.new → OnOk result (AreMarkedForRows (disk_of io.old).seen end marks.new dir.now) }
    ensures only { IsHonest io.new → (sector : ℕ) → IsMarked marks.new sector → IsMarked marks.old sector ⊎ RowsReach (IsBlock (disk_of io.old).seen) dir.now sector }
    ensures more { MarksMore marks.old marks.new }

    // Rows that stand for a pool are walked, unless the disk or the memory fails. What is damaged is a block of a row.
    ensures there { (bound : Option ℕ) (running : Pool) → IsHonest io.new → RunsBy bound (blocks_of io.old) dir.now running → GivesOrTells (λ done. Unit {0}) IsNoDamage result }
    ensures damaged { IsHonest io.new → IfFault result (λ fault. IfDamage fault (IsDamagedInRows (IsSeen (disk_of io.old).seen) (disk_of io.old).size dir.now)) }
    ensures looks { Looks (io_of io.old) (io_of io.new) (fault_of result) }
{
    mark_snapshots(io, alloc, marks, end, dir)?;
    mark_sets::<D, Dataset>(io, marks, end, dir)?;
    mark_sets::<D, Partial>(io, marks, end, dir)?;
    mark_lists(io, marks, end, dir)?;
    Ok(())
}
