// All blocks that a pool's latest body reaches are read and counted.
ghost use Rattle.std.specs.Prelude.{◌≡◌, ◌⊎◌, ◌<◌, ◌≤◌, ℕ, List, Option, All, IfOk, OnOk};
ghost use Rattle.zst_block.specs.Blocks.{IsBlock};
ghost use Rattle.zst_block.specs.IoStates.{IsHonest, blocks_of, disk_of, io_of};
ghost use Rattle.zst_block.specs.IoCalls.{Looks, stop_of};
ghost use Rattle.zst_extents.specs.StoredExtents.{HasExtents};
ghost use Rattle.zst_image.specs.Reads.{HasDir, RunsBy};
ghost use Rattle.zst_marks.specs.Marks.{IsMarked};
ghost use Rattle.zst_model.specs.pools.Pool.{Pool};
ghost use Rattle.zst_objset.specs.Damage.{IfDamage, IfDamaged};
ghost use Rattle.zst_space.specs.declared.space.Extent.{Extent};
ghost use Rattle.zst_tree.specs.Damage.{IsSeen};
ghost use Rattle.zst_tree.specs.Faults.{GivesOrTells, IfFault, fault_of};
ghost use Rattle.zst_tree.specs.Indices.{Delivers, IsNoDamage};
ghost use Rattle.zst_dir.specs.Rows.{Rows};
ghost use Rattle.zst_roots.specs.ReachedRows.{IsReachedBySome};
ghost use Rattle.zst_roots.specs.RowDamage.{IsToldOfSome};
ghost use Rattle.zst_roots.specs.StandingRows.{ListStands, TextsStand};
ghost use Rattle.zst_uber.specs.Body.{InRange};
ghost use Rattle.zst_count.specs.CountedRows.{AreAllRead, AreMetForHeads, AreMetForLists, AreMetForPartials, AreMetForSnapshots, AreReadForHeads, AreReadForLists, AreReadForPartials, AreReadForSnapshots, AreReadInTexts, DataStandInRows, IsDamagedHead, IsDamagedInTexts, IsDamagedList, IsDamagedPartial, IsDamagedReached, IsDamagedSnapshot, IsReadList};
ghost use Rattle.zst_count.specs.CountedSets.{AreMetInSet, AreReadInSet, DataStandInSet, IsDamagedInSet};
ghost use Rattle.zst_count.specs.FirstSectors.{Counts, CountsBlocks, IsFirstInHead, IsFirstInList, IsFirstInPartial, IsFirstInSet, IsFirstInSnapshot, IsFirstInTexts, IsFirstReached};
ghost use Rattle.zst_count.specs.MetBlocks.{AllMet, MetMore};

use crate::met_blocks::MetBlocks;
use crate::sets::count_set;
use crate::trees::count_text;
use std::alloc::Global;
use zst_block::{BlockFault, Io};
use zst_dir::{Bookmark, Dir};
use zst_outside::Disk;
use zst_roots::{before_head, before_partial, before_snapshot, objects_at, turns_of, walked_at};
use zst_tree::{ObjSet, OrMemory};
use zst_uber::Uber;

// Meets what each snapshot reaches, by rising number, beside the nearest one before it that was walked.
fn count_snapshots<D: Disk>(
    io: &mut Io<'_, D>,
    alloc: Global,
    met: &mut MetBlocks,
    dir: &Dir,
) -> Result<(), OrMemory<BlockFault>>
    ensures all { IsHonest io.new → OnOk result (AreMetForSnapshots (disk_of io.old).seen met.new.end met.new.marks dir.now.snapshots) }
    ensures only { IsHonest io.new → (sector : ℕ) → IsMarked met.new.marks sector
        → IsMarked met.old.marks sector ⊎ (IsReachedBySome dir.now.snapshots (IsFirstInSnapshot (IsBlock (disk_of io.old).seen)) sector × (sector < met.old.end)) }
    ensures more { MetMore met.old met.new }
    ensures read { IsHonest io.new → OnOk result (AreReadForSnapshots (disk_of io.old).seen dir.now.snapshots) }
    ensures stands { IsHonest io.new → All (λ row. DataStandInSet (blocks_of io.old) row.objects) dir.now.snapshots → GivesOrTells (λ done. Unit {0}) IsNoDamage result }
    ensures damaged { IsHonest io.new → IfFault result (λ fault. IfDamage fault (IsToldOfSome dir.now.snapshots (IsDamagedSnapshot (IsSeen (disk_of io.old).seen) (disk_of io.old).size))) }
    ensures looks { Looks (io_of io.old) (io_of io.new) (fault_of result) }
{
    let rows = dir.snapshots();
    let turns = turns_of(alloc, rows)?;
    let mut walked = vec![in alloc; false; rows.len()]?;
    for turn in turns.as_slice() {
        let place = turn.1;
        let known = walked_at(rows, walked.as_slice(), before_snapshot(dir, place));
        count_set(io, met, &rows[place].objects, &known)?;
        walked[place] = true;
    }
    Ok(())
}

// Meets what a set reaches beside the snapshot at a place. All snapshots were walked before.
fn count_beside<D: Disk>(
    io: &mut Io<'_, D>,
    met: &mut MetBlocks,
    dir: &Dir,
    set: &ObjSet,
    place: Option<usize>,
) -> Result<(), BlockFault>
    ensures all { IsHonest io.new → AreMetForSnapshots (disk_of io.old).seen met.old.end met.old.marks dir.now.snapshots → OnOk result (AreMetInSet (disk_of io.old).seen met.new.end met.new.marks set.now) }
    ensures only { IsHonest io.new → (sector : ℕ) → IsMarked met.new.marks sector → IsMarked met.old.marks sector ⊎ (IsFirstInSet (IsBlock (disk_of io.old).seen) set.now sector × (sector < met.old.end)) }
    ensures more { MetMore met.old met.new }
    ensures read { IsHonest io.new → AreReadForSnapshots (disk_of io.old).seen dir.now.snapshots → OnOk result (AreReadInSet (disk_of io.old).seen set.now) }
    ensures stands { IsHonest io.new → DataStandInSet (blocks_of io.old) set.now → Delivers (λ done. Unit {0}) result }
    ensures damaged { IsHonest io.new → IfDamaged result (IsDamagedInSet (IsSeen (disk_of io.old).seen) (disk_of io.old).size set.now) }
    ensures looks { Looks (io_of io.old) (io_of io.new) (stop_of result) }
{
    let known = objects_at(dir.snapshots(), place);
    count_set(io, met, set, &known)
}

// Meets what each head reaches, beside the snapshot before it.
fn count_heads<D: Disk>(
    io: &mut Io<'_, D>,
    met: &mut MetBlocks,
    dir: &Dir,
) -> Result<(), BlockFault>
    ensures all { IsHonest io.new → AreMetForSnapshots (disk_of io.old).seen met.old.end met.old.marks dir.now.snapshots → OnOk result (AreMetForHeads (disk_of io.old).seen met.new.end met.new.marks dir.now.datasets) }
    ensures only { IsHonest io.new → (sector : ℕ) → IsMarked met.new.marks sector
        → IsMarked met.old.marks sector ⊎ (IsReachedBySome dir.now.datasets (IsFirstInHead (IsBlock (disk_of io.old).seen)) sector × (sector < met.old.end)) }
    ensures more { MetMore met.old met.new }
    ensures read { IsHonest io.new → AreReadForSnapshots (disk_of io.old).seen dir.now.snapshots → OnOk result (AreReadForHeads (disk_of io.old).seen dir.now.datasets) }
    ensures stands { IsHonest io.new → All (λ row. DataStandInSet (blocks_of io.old) row.head) dir.now.datasets → Delivers (λ done. Unit {0}) result }
    ensures damaged { IsHonest io.new → IfDamaged result (IsToldOfSome dir.now.datasets (IsDamagedHead (IsSeen (disk_of io.old).seen) (disk_of io.old).size)) }
    ensures looks { Looks (io_of io.old) (io_of io.new) (stop_of result) }
{
    for row in dir.datasets() {
        count_beside(io, met, dir, &row.head, before_head(dir, row))?;
    }
    Ok(())
}

// Meets what each partial state reaches, beside the snapshot before it.
fn count_partials<D: Disk>(
    io: &mut Io<'_, D>,
    met: &mut MetBlocks,
    dir: &Dir,
) -> Result<(), BlockFault>
    ensures all { IsHonest io.new → AreMetForSnapshots (disk_of io.old).seen met.old.end met.old.marks dir.now.snapshots → OnOk result (AreMetForPartials (disk_of io.old).seen met.new.end met.new.marks dir.now.partials) }
    ensures only { IsHonest io.new → (sector : ℕ) → IsMarked met.new.marks sector
        → IsMarked met.old.marks sector ⊎ (IsReachedBySome dir.now.partials (IsFirstInPartial (IsBlock (disk_of io.old).seen)) sector × (sector < met.old.end)) }
    ensures more { MetMore met.old met.new }
    ensures read { IsHonest io.new → AreReadForSnapshots (disk_of io.old).seen dir.now.snapshots → OnOk result (AreReadForPartials (disk_of io.old).seen dir.now.partials) }
    ensures stands { IsHonest io.new → All (λ row. DataStandInSet (blocks_of io.old) row.objects) dir.now.partials → Delivers (λ done. Unit {0}) result }
    ensures damaged { IsHonest io.new → IfDamaged result (IsToldOfSome dir.now.partials (IsDamagedPartial (IsSeen (disk_of io.old).seen) (disk_of io.old).size)) }
    ensures looks { Looks (io_of io.old) (io_of io.new) (stop_of result) }
{
    for row in dir.partials() {
        count_beside(io, met, dir, &row.objects, before_partial(dir, row))?;
    }
    Ok(())
}

// Meets what the list of a bookmark reaches. The root of one without runs is no list's.
fn count_list<D: Disk>(
    io: &mut Io<'_, D>,
    met: &mut MetBlocks,
    row: &Bookmark,
) -> Result<(), BlockFault>
    ensures all { IsHonest io.new → OnOk result (AllMet met.new.end met.new.marks (IsFirstInList (IsBlock (disk_of io.old).seen) row.now)) }
    ensures only { IsHonest io.new → (sector : ℕ) → IsMarked met.new.marks sector → IsMarked met.old.marks sector ⊎ (IsFirstInList (IsBlock (disk_of io.old).seen) row.now sector × (sector < met.old.end)) }
    ensures more { MetMore met.old met.new }
    ensures read { IsHonest io.new → OnOk result (IsReadList (disk_of io.old).seen row.now) }
    ensures stands { IsHonest io.new → ListStands (blocks_of io.old) row.now → Delivers (λ done. Unit {0}) result }
    ensures damaged { IsHonest io.new → IfDamaged result (IsDamagedList (IsSeen (disk_of io.old).seen) (disk_of io.old).size row.now) }
    ensures looks { Looks (io_of io.old) (io_of io.new) (stop_of result) }
{
    if row.runs == 0 {
        return Ok(());
    }
    count_text(io, met, row.levels, row.root)
}

// Meets what the list of each bookmark reaches.
fn count_lists<D: Disk>(
    io: &mut Io<'_, D>,
    met: &mut MetBlocks,
    dir: &Dir,
) -> Result<(), BlockFault>
    ensures all { IsHonest io.new → OnOk result (AreMetForLists (disk_of io.old).seen met.new.end met.new.marks dir.now.bookmarks) }
    ensures only { IsHonest io.new → (sector : ℕ) → IsMarked met.new.marks sector
        → IsMarked met.old.marks sector ⊎ (IsReachedBySome dir.now.bookmarks (IsFirstInList (IsBlock (disk_of io.old).seen)) sector × (sector < met.old.end)) }
    ensures more { MetMore met.old met.new }
    ensures read { IsHonest io.new → OnOk result (AreReadForLists (disk_of io.old).seen dir.now.bookmarks) }
    ensures stands { IsHonest io.new → All (ListStands (blocks_of io.old)) dir.now.bookmarks → Delivers (λ done. Unit {0}) result }
    ensures damaged { IsHonest io.new → IfDamaged result (IsToldOfSome dir.now.bookmarks (IsDamagedList (IsSeen (disk_of io.old).seen) (disk_of io.old).size)) }
    ensures looks { Looks (io_of io.old) (io_of io.new) (stop_of result) }
{
    for row in dir.bookmarks() {
        count_list(io, met, row)?;
    }
    Ok(())
}

// Meets what the directory of a body reaches, and its free extents. Where it has none their root is no text's.
fn count_texts<D: Disk>(
    io: &mut Io<'_, D>,
    met: &mut MetBlocks,
    uber: &Uber,
) -> Result<(), BlockFault>
    requires levels { (uber.now.dir_levels ≤ 7) × (uber.now.free_levels ≤ 7) }
    ensures all { IsHonest io.new → OnOk result (AllMet met.new.end met.new.marks (IsFirstInTexts (IsBlock (disk_of io.old).seen) uber.now)) }
    ensures only { IsHonest io.new → (sector : ℕ) → IsMarked met.new.marks sector → IsMarked met.old.marks sector ⊎ (IsFirstInTexts (IsBlock (disk_of io.old).seen) uber.now sector × (sector < met.old.end)) }
    ensures more { MetMore met.old met.new }
    ensures read { IsHonest io.new → OnOk result (AreReadInTexts (disk_of io.old).seen uber.now) }
    ensures stands { IsHonest io.new → TextsStand (blocks_of io.old) uber.now → Delivers (λ done. Unit {0}) result }
    ensures damaged { IsHonest io.new → IfDamaged result (IsDamagedInTexts (IsSeen (disk_of io.old).seen) (disk_of io.old).size uber.now) }
    ensures looks { Looks (io_of io.old) (io_of io.new) (stop_of result) }
{
    let dir_levels = uber.dir_levels as u8;
    count_text(io, met, dir_levels, uber.dir_root)?;
    if uber.free_count == 0 {
        return Ok(());
    }
    let free_levels = uber.free_levels as u8;
    count_text(io, met, free_levels, uber.free_root)
}

/// Reads all blocks that a body with this directory reaches, but redacted ones, and tells how many different ones they are, by their first
/// sectors. What a row has in common with the snapshot before it is read once.
pub fn count_blocks<D: Disk>(
    io: &mut Io<'_, D>,
    alloc: Global,
    uber: &Uber,
    dir: &Dir,
) -> Result<u64, OrMemory<BlockFault>>
    requires in_range { InRange (disk_of io.old).size uber.now }

    // It is their number.
    ensures counts { IsHonest io.new → IfOk result (CountsBlocks (IsBlock (disk_of io.old).seen) uber.now dir.now) }

    // Each of them has the sums of its pointer.
    ensures read { IsHonest io.new → OnOk result (AreAllRead (disk_of io.old).seen uber.now dir.now) }

    // A pool that reads is read, unless the disk or the memory fails. What is damaged is a block
    // that the body reaches.
    ensures stands { IsHonest io.new → DataStandInRows (blocks_of io.old) dir.now → TextsStand (blocks_of io.old) uber.now → GivesOrTells (λ count. Unit {0}) IsNoDamage result }
    ensures there { (bound : Option ℕ) (running : Pool) (rows : Rows) (free : List Extent) → IsHonest io.new → RunsBy bound (blocks_of io.old) dir.now running → HasDir (blocks_of io.old) uber.now rows
        → HasExtents (blocks_of io.old) uber.now.free_levels uber.now.free_root uber.now.free_count free → GivesOrTells (λ count. Unit {0}) IsNoDamage result }
    ensures damaged { IsHonest io.new → IfFault result (λ fault. IfDamage fault (IsDamagedReached (IsSeen (disk_of io.old).seen) (disk_of io.old).size uber.now dir.now)) }
    ensures looks { Looks (io_of io.old) (io_of io.new) (fault_of result) }
{
    let mut met = MetBlocks::new(alloc, uber.end)?;
    count_snapshots(io, alloc, &mut met, dir)?;
    count_heads(io, &mut met, dir)?;
    count_partials(io, &mut met, dir)?;
    count_lists(io, &mut met, dir)?;
    count_texts(io, &mut met, uber)?;
    Ok(met.count())
}
