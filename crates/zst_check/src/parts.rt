// The four parts of soundness, in the order in which a check decides them.
ghost use Rattle.std.specs.Prelude.{◌≡◌, IfOk, None};
ghost use Rattle.zst_block.specs.IoCalls.{Looks, stop_of};
ghost use Rattle.zst_block.specs.IoStates.{IsHonest, blocks_of, disk_of, io_of};
ghost use Rattle.zst_image.specs.Reads.{RunsBy};
ghost use Rattle.zst_model.specs.pools.Pool.{IsPool, Pool};
ghost use Rattle.zst_model.specs.pools.Soundness.{Dated};
ghost use Rattle.zst_objset.specs.Damage.{IfDamage, IfDamaged};
ghost use Rattle.zst_tree.specs.Damage.{IsSeen};
ghost use Rattle.zst_tree.specs.Faults.{GivesOrTells, IfFault, fault_of};
ghost use Rattle.zst_tree.specs.Indices.{Delivers, IsNoDamage};
ghost use Rattle.zst_check.specs.Damage.{IsDamagedInChecked, IsDamagedInStates};
ghost use Rattle.zst_check.specs.Findings.{FindsLatePlace, FindsUnsound};
ghost use Rattle.zst_check.specs.ReportNames.{FindsNamed};

use crate::bookmarks::misplaced_bookmark;
use crate::dates::late_state;
use crate::differences::differing_state;
use crate::lists::differing_list;
use crate::numbers::misnumbered_snapshot;
use crate::report::Report;
use std::alloc::Global;
use zst_block::{BlockFault, Io};
use zst_dir::Dir;
use zst_outside::Disk;
use zst_tree::OrMemory;

// Part 2: a snapshot's number, or a date of a state, that is too late.
fn late_place<D: Disk>(
    io: &mut Io<'_, D>,
    alloc: Global,
    dir: &Dir,
    number: u64,
) -> Result<Option<Report>, BlockFault>
    ensures found { (pool : Pool) → IsHonest io.new → RunsBy None (blocks_of io.old) dir.now pool → IsPool pool → pool.number ≡ number → Delivers (FindsLatePlace pool) result }
    ensures named { IfOk result (FindsNamed dir.now) }
    ensures damaged { IsHonest io.new → IfDamaged result (IsDamagedInStates (IsSeen (disk_of io.old).seen) (disk_of io.old).size dir.now) }
    ensures looks { Looks (io_of io.old) (io_of io.new) (stop_of result) }
{
    if let Some(report) = misnumbered_snapshot(dir, number) {
        return Ok(Some(report));
    }
    late_state(io, alloc, dir, number)
}

/// The first part of soundness that fails of a pool with this directory and number, in the order 2, 3, 1, 4, and one place at which it
/// does; none where all four hold.
///
/// Each state is compared with the nearest snapshots before it alone, and what they share isn't read. It takes a list of redacted
/// blocks at a time, and no other memory.
pub fn find_unsound<D: Disk>(
    io: &mut Io<'_, D>,
    alloc: Global,
    dir: &Dir,
    number: u64,
) -> Result<Option<Report>, OrMemory<BlockFault>>
    // Where the rows stand for a lawful pool with this number, what is found is so of it, and no damage is told.
    ensures found { (pool : Pool) → IsHonest io.new → RunsBy None (blocks_of io.old) dir.now pool → IsPool pool → pool.number ≡ number
        → GivesOrTells (FindsUnsound pool) IsNoDamage result }
    // Whatever the image is, what is found has names of the rows, and what is told as damaged is a block that they reach: one of a
    // state's set, or of a bookmark's list.
    ensures named { IfOk result (FindsNamed dir.now) }
    ensures damaged { IsHonest io.new → IfFault result (λ fault. IfDamage fault (IsDamagedInChecked io.old.space.end (disk_of io.old).seen (disk_of io.old).size dir.now)) }
    // It only reads.
    ensures looks { Looks (io_of io.old) (io_of io.new) (fault_of result) }
{
    if let Some(report) = late_place(io, alloc, dir, number)? {
        return Ok(Some(report));
    }
    if let Some(report) = misplaced_bookmark(dir, number) {
        return Ok(Some(report));
    }
    if let Some(report) = differing_state(io, dir)? {
        return Ok(Some(report));
    }
    differing_list(io, alloc, dir)
}
