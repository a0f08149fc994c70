// What the lists of a pool's bookmarks reach is marked.
ghost use Rattle.std.specs.Prelude.{◌⊎◌, ℕ, All, OnOk};
ghost use Rattle.zst_block.specs.Blocks.{IsBlock};
ghost use Rattle.zst_block.specs.IoStates.{IsHonest, blocks_of, disk_of, io_of};
ghost use Rattle.zst_block.specs.IoCalls.{Looks, stop_of};
ghost use Rattle.zst_marks.specs.Marks.{HasRoomFor, IsMarked, MarksMore};
ghost use Rattle.zst_objset.specs.Damage.{IfDamaged};
ghost use Rattle.zst_reach.specs.ReachedSets.{AllMarked};
ghost use Rattle.zst_tree.specs.Damage.{IsSeen};
ghost use Rattle.zst_tree.specs.Indices.{Delivers};
ghost use Rattle.zst_roots.specs.ReachedRows.{AreMarkedForLists, IsReachedBySome, ListReaches};
ghost use Rattle.zst_roots.specs.RowDamage.{IsDamagedList, IsToldOfSome};
ghost use Rattle.zst_roots.specs.StandingRows.{ListStands};

use zst_block::{BlockFault, Io};
use zst_dir::{Bookmark, Dir};
use zst_marks::Marks;
use zst_outside::Disk;
use zst_reach::mark_text;

// Marks what the list of a bookmark reaches. The root of one without runs is no list's.
fn mark_list<D: Disk>(
    io: &mut Io<'_, D>,
    marks: &mut Marks,
    end: u64,
    row: &Bookmark,
) -> Result<(), BlockFault>
    requires room { HasRoomFor marks.old end }
    ensures all { IsHonest io.new → OnOk result (AllMarked (disk_of io.old).seen end marks.new (ListReaches (IsBlock (disk_of io.old).seen) row.now)) }
    ensures only { IsHonest io.new → (sector : ℕ) → IsMarked marks.new sector → IsMarked marks.old sector ⊎ ListReaches (IsBlock (disk_of io.old).seen) row.now sector }
    ensures more { MarksMore marks.old marks.new }
    ensures stands { IsHonest io.new → ListStands (blocks_of io.old) row.now → Delivers (λ done. Unit {0}) result }
    ensures damaged { IsHonest io.new → IfDamaged result (IsDamagedList (IsSeen (disk_of io.old).seen) (disk_of io.old).size row.now) }
    ensures looks { Looks (io_of io.old) (io_of io.new) (stop_of result) }
{
    if row.runs == 0 {
        return Ok(());
    }
    mark_text(io, marks, end, row.levels, row.root)
}

// Marks what the list of each bookmark reaches.
pub(crate) fn mark_lists<D: Disk>(
    io: &mut Io<'_, D>,
    marks: &mut Marks,
    end: u64,
    dir: &Dir,
) -> Result<(), BlockFault>
    requires room { HasRoomFor marks.old end }
    ensures all { IsHonest io.new → OnOk result (AreMarkedForLists (disk_of io.old).seen end marks.new dir.now.bookmarks) }
    ensures only { IsHonest io.new → (sector : ℕ) → IsMarked marks.new sector → IsMarked marks.old sector ⊎ IsReachedBySome dir.now.bookmarks (ListReaches (IsBlock (disk_of io.old).seen)) sector }
    ensures more { MarksMore marks.old marks.new }
    ensures stands { IsHonest io.new → All (ListStands (blocks_of io.old)) dir.now.bookmarks → Delivers (λ done. Unit {0}) result }
    ensures damaged { IsHonest io.new → IfDamaged result (IsToldOfSome dir.now.bookmarks (IsDamagedList (IsSeen (disk_of io.old).seen) (disk_of io.old).size)) }
    ensures looks { Looks (io_of io.old) (io_of io.new) (stop_of result) }
{
    for row in dir.bookmarks() {
        mark_list(io, marks, end, row)?;
    }
    Ok(())
}
