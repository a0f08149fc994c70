// The commit of a directory that makes all sectors free that aren't marked.
ghost use Rattle.std.specs.Prelude.{◌≡◌, ◌+◌, ◌*◌, ◌<◌, ◌≤◌, ◌^◌, ℕ, Bool, false, length, Err, IfErr, IfOk};
ghost use Rattle.zst_space.specs.FreeSectors.{FreeSectors};
ghost use Rattle.zst_marks.specs.Marks.{HasRoomFor};
ghost use Rattle.zst_block.specs.Blocks.{Has};
ghost use Rattle.zst_block.specs.IoCalls.{Works, fails};
ghost use Rattle.zst_block.specs.IoStates.{IsHonest, blocks_of, disk_of, io_of};
ghost use Rattle.zst_tree.specs.declared.or_memory.OrMemory.TheVariants.{Fault};
ghost use Rattle.zst_uber.specs.DiskCalls.{HasDiskCause};
ghost use Rattle.zst_model.specs.pools.Pool.{Pool};
ghost use Rattle.zst_leaves.specs.Leaves.{leaves_for};
ghost use Rattle.zst_extents.specs.StoredExtents.{extent_blocks, tree_blocks};
ghost use Rattle.zst_image.specs.Bodies.{free_by};
ghost use Rattle.zst_image.specs.Commits.{CommitsOver, KeepsDisk, NextIs, Ready, RefusedDir};
ghost use Rattle.zst_image.specs.Faults.{stop_of_commit};
ghost use Rattle.zst_image.specs.FreedCommits.{AreAllUnmarked, AreSomeUnmarked, Fills, FreedDir, IsFreedFull, WritesFreed, WritesTexts};
ghost use Rattle.zst_image.specs.declared.commit_fault.CommitFault.TheVariants.{Full, OutOfMemory};

use crate::body::Body;
use crate::commit_fault::CommitFault;
use crate::commits::{naming, next_uber, of_extents, spell_dir, write_bytes};
use crate::pool_state::PoolState;
use std::alloc::Global;
use zst_block::Io;
use zst_dir::Dir;
use zst_extents::{StoredExtents, leave_unmarked, text_blocks, write_unmarked};
use zst_marks::Marks;
use zst_outside::Disk;
use zst_space::{Extent, Space, SpaceFault};
use zst_tree::{OrMemory, Tree};
use zst_uber::commit_event;

/// Writes a directory and makes it the pool's, with the next number, and makes all sectors from 8
/// on and below the body's end free that aren't marked, but for those that it takes itself.
///
/// It writes into the Io's free sectors alone. None of them may be marked, but also such ones may
/// be among them that the body doesn't leave free: until the commit nothing else changes, so each
/// image keeps one from before, and then reads as the next pool. That pool may stand wherever it
/// is marked: what the body's texts stand in needn't be, and becomes free.
pub fn commit_unmarked<D: Disk>(
    io: &mut Io<'_, D>,
    alloc: Global,
    body: &Body,
    dir: Dir,
    marks: Marks,
) -> Result<PoolState, CommitFault>
    requires ready { Ready (disk_of io.old) body.now }
    requires number { body.now.uber.number < 2 ^ 63 }
    requires space { AreSomeUnmarked body.now marks io.old.space }
    requires room { HasRoomFor marks body.now.uber.end }
    ensures over { (tight : Bool) (all : FreeSectors) (next : Pool) → IsHonest io.new → AreAllUnmarked body.now marks all
        → NextIs tight (Has (disk_of io.old).seen all) body.now body.now.uber.guids dir next
        → CommitsOver tight (disk_of io.old) io.old.space (disk_of io.new) io.new.space next result }
    ensures made { IfOk result (FreedDir body.now dir marks (io_of io.old) (io_of io.new)) }
    ensures full { IfErr result (λ fault. (need largest : ℕ) → fault ≡ Full need largest → IsFreedFull dir marks io.old.space io.new.space need largest) }
    ensures refused { RefusedDir body.now (io_of io.old) (io_of io.new) result }
    ensures disk { KeepsDisk (fails (stop_of_commit result)) false (io_of io.old) (io_of io.new) }
    ensures cause { HasDiskCause CommitFault.DiskFault (disk_of io.old).faults (disk_of io.new).faults result }
{
    let (next, space) = write_freed(io, alloc, body, &dir, marks)?;
    match commit_event(io, next.uber()) {
        Ok(()) => {
            io.space = space;
            Ok(PoolState { body: next, dir })
        }
        Err(_) => Err(CommitFault::DiskFault),
    }
}

// Writes a directory and the extents that are left unmarked, and makes the body that names both,
// and the sectors that are free by it: once it is the latest no memory is wanted any more.
//
// What the extents take is taken from a copy of the free sectors first, and marked. Then they are
// written, into the first of these sectors.
fn write_freed<D: Disk>(
    io: &mut Io<'_, D>,
    alloc: Global,
    body: &Body,
    dir: &Dir,
    mut marks: Marks,
) -> Result<(Body, Space), CommitFault>
    requires number { body.now.uber.number < 2 ^ 63 }
    requires space { AreSomeUnmarked body.now marks io.old.space }
    requires room { HasRoomFor marks body.now.uber.end }
    ensures next { IfOk result (λ freed. WritesFreed body.now dir.now marks (io_of io.old) (io_of io.new) freed.0) }
    ensures space { IfOk result (λ freed. freed.1 ≡ free_by freed.0) }
    ensures full { IfErr result (λ fault. (need largest : ℕ) → fault ≡ Full need largest → IsFreedFull dir.now marks io.old.space io.new.space need largest) }
    ensures fills { Fills (io_of io.old) (io_of io.new) (stop_of_commit result) }
{
    let number = body.uber().number + 1;
    let bytes = spell_dir(alloc, dir)?;
    let mut left = io.space.copy(alloc)?;
    let blocks = text_blocks(bytes.len() as u64);
    let free = match leave_unmarked(alloc, &mut left, &mut marks, blocks) {
        Ok(free) => free,
        Err(fault) => {
            io.space = left;
            return Err(of_space(fault));
        }
    };
    let (tree, stored) = write_texts(io, alloc, &bytes, &free, number)?;
    let uber = next_uber(body.uber(), body.uber().guids, left.end());
    io.space = left;
    let next = Body::new(naming(&uber, &tree, bytes.len() as u64, &stored), free);
    let space = next.space(alloc)?;
    Ok((next, space))
}

// Why no extents were left.
fn of_space(fault: OrMemory<SpaceFault>) -> CommitFault
    ensures full { (need largest : ℕ) → result ≡ Full need largest → fault ≡ Fault (record { need = need; largest = largest }) }
    ensures never_failed { ¬ (result ≡ CommitFault.DiskFault) }
{
    match fault {
        OrMemory::Fault(full) => CommitFault::Full {
            need: full.need,
            largest: full.largest,
        },
        OrMemory::Memory => CommitFault::OutOfMemory,
    }
}

// Writes the bytes of a directory and free extents, each into the leaves of a tree.
fn write_texts<D: Disk>(
    io: &mut Io<'_, D>,
    alloc: Global,
    bytes: &[u8],
    free: &[Extent],
    number: u64,
) -> Result<(Tree, StoredExtents), CommitFault>
    requires some { 0 < length bytes.now }
    requires few { length bytes.now ≤ 8192 * 128 ^ 2 }
    ensures written { IfOk result (λ texts. WritesTexts number bytes.now free.now (blocks_of io.new) io.old.space io.new.space texts.0 texts.1) }
    ensures works { Works (16 * (tree_blocks (leaves_for (length bytes.now)) + extent_blocks (length free.now))) 16 (io_of io.old) (io_of io.new) (stop_of_commit result) }
{
    let tree = write_bytes(io, bytes, number)?;
    match write_unmarked(io, alloc, free, number) {
        Ok(stored) => Ok((tree, stored)),
        Err(fault) => Err(of_extents(fault)),
    }
}
