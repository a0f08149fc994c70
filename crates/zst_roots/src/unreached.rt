// What nothing of a pool reaches is found.
ghost use Rattle.std.specs.Prelude.{◌↔◌, ◌<◌, ◌≤◌, ℕ, List, Option, All, IfOk};
ghost use Rattle.zst_block.specs.Blocks.{IsBlock};
ghost use Rattle.zst_block.specs.IoStates.{IsHonest, blocks_of, disk_of, io_of};
ghost use Rattle.zst_block.specs.IoCalls.{Looks};
ghost use Rattle.zst_dir.specs.Rows.{Rows};
ghost use Rattle.zst_extents.specs.StoredExtents.{HasExtents};
ghost use Rattle.zst_image.specs.Reads.{HasDir, RunsBy};
ghost use Rattle.zst_marks.specs.Marks.{HasRoomFor, IsMarked};
ghost use Rattle.zst_model.specs.pools.Pool.{Pool};
ghost use Rattle.zst_objset.specs.Damage.{IfDamage};
ghost use Rattle.zst_space.specs.FreeSectors.{IsFree};
ghost use Rattle.zst_space.specs.declared.space.Extent.{Extent};
ghost use Rattle.zst_tree.specs.Damage.{IsSeen};
ghost use Rattle.zst_tree.specs.Faults.{GivesOrTells, IfFault, fault_of};
ghost use Rattle.zst_tree.specs.Indices.{IsNoDamage};
ghost use Rattle.zst_uber.specs.Body.{InRange};
ghost use Rattle.zst_roots.specs.RowDamage.{IsDamagedInPool};
ghost use Rattle.zst_roots.specs.StandingRows.{HeldStands};
ghost use Rattle.zst_roots.specs.Unreached.{IsFoundFor, IsReached, StaysReached};

use crate::held::{HeldBlocks, mark_held};
use crate::rows::mark_rows;
use crate::texts::mark_texts;
use std::alloc::{AllocError, Global};
use zst_block::{BlockFault, Io};
use zst_dir::Dir;
use zst_marks::Marks;
use zst_outside::Disk;
use zst_space::Space;
use zst_tree::OrMemory;
use zst_uber::Uber;

/// What nothing of a pool reaches below its end, before a reclaim and after it.
#[derive(Drop)]
pub struct UnreachedSectors {
    /// What stays reached is marked: sectors 0 to 7, what the rows reach, and what sessions hold, whichever texts the next body
    /// names.
    pub marks: Marks,
    /// What nothing reaches now is free, so that a reclaim may write into it, and all from the end on.
    pub space: Space,
}

// Marks of the first eight sectors, which are the label of the image, with room up to an end.
fn first_marks(alloc: Global, end: u64) -> Result<Marks, AllocError>
    requires { 8 ≤ end }
    ensures marked { IfOk result (λ marks. (sector : ℕ) → IsMarked marks sector ↔ (sector < 8)) }
    ensures room { IfOk result (λ marks. HasRoomFor marks end) }
{
    let mut marks = Marks::new(alloc, end)?;
    marks.mark(0, 8);
    Ok(marks)
}

/// Walks all that a pool reaches, by its latest body, the rows of its directory and what sessions hold besides, and finds what
/// nothing reaches.
/// For this it has two bitmaps in memory, of one bit for each sector below the end: of an image whose end is at
/// 64 GB each takes 16 MB.
pub fn find_unreached<D: Disk>(
    io: &mut Io<'_, D>,
    alloc: Global,
    uber: &Uber,
    dir: &Dir,
    held: &[HeldBlocks],
) -> Result<UnreachedSectors, OrMemory<BlockFault>>
    requires in_range { InRange (disk_of io.old).size uber.now }

    // What stays reached whichever texts the next body names is marked; what isn't reached now is free.
    ensures marked { IsHonest io.new → IfOk result (λ found. (sector : ℕ) → sector < uber.now.end → IsMarked found.marks sector ↔ StaysReached (IsBlock (disk_of io.old).seen) dir.now held.now sector) }
    ensures free { IsHonest io.new → IfOk result (λ found. (sector : ℕ) → sector < uber.now.end → IsFree found.space sector ↔ ¬ IsReached (IsBlock (disk_of io.old).seen) uber.now dir.now held.now sector) }
    ensures fits { IfOk result (IsFoundFor uber.now) }

    // A pool that reads is walked, where each held set holds a state, unless the disk or the memory fails. What is damaged is a block of a row, of a held set or of a text.
    ensures there { (bound : Option ℕ) (running : Pool) (rows : Rows) (free : List Extent) → IsHonest io.new → RunsBy bound (blocks_of io.old) dir.now running → HasDir (blocks_of io.old) uber.now rows
        → HasExtents (blocks_of io.old) uber.now.free_levels uber.now.free_root uber.now.free_count free → All (HeldStands (blocks_of io.old)) held.now → GivesOrTells (λ done. Unit {0}) IsNoDamage result }
    ensures damaged { IsHonest io.new → IfFault result (λ fault. IfDamage fault (IsDamagedInPool (IsSeen (disk_of io.old).seen) (disk_of io.old).size uber.now dir.now held.now)) }
    ensures looks { Looks (io_of io.old) (io_of io.new) (fault_of result) }
{
    let mut marks = first_marks(alloc, uber.end)?;
    mark_rows(io, alloc, &mut marks, uber.end, dir)?;
    mark_held(io, &mut marks, uber.end, dir, held)?;
    let mut reached = marks.copy(alloc)?;
    mark_texts(io, &mut reached, uber)?;
    let free = reached.unmarked(alloc, 8, uber.end)?;
    let space = Space::new(uber.end, uber.sectors, free);
    Ok(UnreachedSectors { marks, space })
}
