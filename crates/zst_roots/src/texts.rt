// What the texts of a body reach is marked.
ghost use Rattle.std.specs.Prelude.{◌⊎◌, ◌≤◌, ℕ, OnOk};
ghost use Rattle.zst_block.specs.Blocks.{IsBlock};
ghost use Rattle.zst_block.specs.IoStates.{IsHonest, blocks_of, disk_of, io_of};
ghost use Rattle.zst_block.specs.IoCalls.{Looks, stop_of};
ghost use Rattle.zst_marks.specs.Marks.{HasRoomFor, IsMarked, MarksMore};
ghost use Rattle.zst_objset.specs.Damage.{IfDamaged};
ghost use Rattle.zst_reach.specs.ReachedSets.{AllMarked};
ghost use Rattle.zst_tree.specs.Damage.{IsSeen};
ghost use Rattle.zst_tree.specs.Indices.{Delivers};
ghost use Rattle.zst_roots.specs.RowDamage.{IsDamagedInTexts};
ghost use Rattle.zst_roots.specs.StandingRows.{TextsStand};
ghost use Rattle.zst_roots.specs.Unreached.{TextsReach};

use zst_block::{BlockFault, Io};
use zst_marks::Marks;
use zst_outside::Disk;
use zst_reach::mark_text;
use zst_uber::Uber;

// Marks what the directory of a body reaches, and its free extents, before the body's end. Where it has none their root is no text's.
pub(crate) fn mark_texts<D: Disk>(
    io: &mut Io<'_, D>,
    marks: &mut Marks,
    uber: &Uber,
) -> Result<(), BlockFault>
    requires room { HasRoomFor marks.old uber.now.end }
    requires levels { (uber.now.dir_levels ≤ 7) × (uber.now.free_levels ≤ 7) }
    ensures all { IsHonest io.new → OnOk result (AllMarked (disk_of io.old).seen uber.now.end marks.new (TextsReach (IsBlock (disk_of io.old).seen) uber.now)) }
    ensures only { IsHonest io.new → (sector : ℕ) → IsMarked marks.new sector → IsMarked marks.old sector ⊎ TextsReach (IsBlock (disk_of io.old).seen) uber.now sector }
    ensures more { MarksMore marks.old marks.new }
    ensures stands { IsHonest io.new → TextsStand (blocks_of io.old) uber.now → Delivers (λ done. Unit {0}) result }
    ensures damaged { IsHonest io.new → IfDamaged result (IsDamagedInTexts (IsSeen (disk_of io.old).seen) (disk_of io.old).size uber.now) }
    ensures looks { Looks (io_of io.old) (io_of io.new) (stop_of result) }
{
    let dir_levels = uber.dir_levels as u8;
    mark_text(io, marks, uber.end, dir_levels, uber.dir_root)?;
    if uber.free_count == 0 {
        return Ok(());
    }
    let free_levels = uber.free_levels as u8;
    mark_text(io, marks, uber.end, free_levels, uber.free_root)
}
