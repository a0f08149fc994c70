// The commit of a directory: the one commit of an event.
ghost use Rattle.std.specs.Prelude.{◌≡◌, ◌+◌, ◌*◌, ◌<◌, ◌≤◌, ◌^◌, Bool, [], false, length, Err, IfErr, IfOk, OnOk};
ghost use Rattle.zst_space.specs.FreeSectors.{room};
ghost use Rattle.zst_marks.specs.Marks.{Apart};
ghost use Rattle.zst_block.specs.Blocks.{FillsFree};
ghost use Rattle.zst_block.specs.IoStates.{IsHonest, blocks_of, disk_of, io_of};
ghost use Rattle.zst_block.specs.IoCalls.{Works, fails};
ghost use Rattle.zst_uber.specs.DiskCalls.{HasDiskCause};
ghost use Rattle.zst_model.specs.pools.Pool.{Pool};
ghost use Rattle.zst_dir.specs.Rows.{Rows};
ghost use Rattle.zst_dir.specs.Spelling.{IsDir, dir_bytes};
ghost use Rattle.zst_leaves.specs.Leaves.{TellsNone, leaves_for};
ghost use Rattle.zst_leaves.specs.WrittenLeaves.{WritesLeaves};
ghost use Rattle.zst_tree.specs.Faults.{fault_of};
ghost use Rattle.zst_extents.specs.StoredExtents.{HasExtents, extent_blocks, tree_blocks};
ghost use Rattle.zst_image.specs.Bodies.{free_by};
ghost use Rattle.zst_image.specs.Commits.{Commits, CommitsOver, CommittedDir, IsNextBody, KeepsDisk, NextIs, Ready, RefusedDir, TakesForDir, commit_sectors};
ghost use Rattle.zst_image.specs.Faults.{stop_of_commit};
ghost use Rattle.zst_image.specs.declared.commit_fault.CommitFault.TheVariants.{OutOfMemory};
ghost use Rattle.zst_image.specs.Reads.{DirStands, Rests, dir_sectors};

use crate::body::Body;
use crate::commit_fault::CommitFault;
use crate::pool_state::PoolState;
use std::alloc::Global;
use zst_block::{BlockFault, Io};
use zst_dir::Dir;
use zst_extents::{StoredExtents, write_extents};
use zst_leaves::write_leaves;
use zst_outside::Disk;
use zst_tree::{OrMemory, Tree};
use zst_uber::{Uber, commit_event};

// So many bytes have room below a tree of 2 levels.
const MOST: usize = 134217728;

/// Writes a directory and makes it the pool's, with the next number and this guid counter, and with
/// the free extents that are left.
///
/// Since any start from which blocks alone were written, each image reads as the pool that it was
/// then, or as the next one.
pub fn commit_dir<D: Disk>(
    io: &mut Io<'_, D>,
    alloc: Global,
    body: &Body,
    guids: u64,
    dir: Dir,
) -> Result<PoolState, CommitFault>
    requires sectors { io.old.space.sectors ≡ body.now.uber.sectors }
    requires ready { Ready (disk_of io.old) body.now }
    requires number { body.now.uber.number < 2 ^ 63 }
    ensures commits { (tight : Bool) (start : D) (rows : Rows) (pool next : Pool) → IsHonest io.new → Rests tight (D.state start) body.now rows pool
        → FillsFree (D.state start) (free_by body.now) (disk_of io.old) io.old.space
        → NextIs tight (blocks_of io.old) body.now guids dir next
        → Commits tight (D.state start) (disk_of io.new) body.now rows pool next result }
    // A pool's first commit has none before it.
    ensures over { (tight : Bool) (next : Pool) → IsHonest io.new → NextIs tight (blocks_of io.old) body.now guids dir next
        → CommitsOver tight (disk_of io.old) io.old.space (disk_of io.new) io.new.space next result }
    ensures made { IfOk result (CommittedDir body.now dir (io_of io.old) (io_of io.new)) }
    ensures takes { TakesForDir dir io.old.space io.new.space result }
    ensures refused { RefusedDir body.now (io_of io.old) (io_of io.new) result }
    ensures disk { KeepsDisk (fails (stop_of_commit result)) false (io_of io.old) (io_of io.new) }
    ensures cause { HasDiskCause CommitFault.DiskFault (disk_of io.old).faults (disk_of io.new).faults result }
{
    let next = write_next(io, alloc, body, guids, &dir)?;
    match commit_event(io, next.uber()) {
        Ok(()) => Ok(PoolState { body: next, dir }),
        Err(_) => Err(CommitFault::DiskFault),
    }
}

// Writes a directory and the free extents that are left, and makes the body that names both. The
// extents are copied for it here: once the body is the latest no memory is wanted any more.
fn write_next<D: Disk>(
    io: &mut Io<'_, D>,
    alloc: Global,
    body: &Body,
    guids: u64,
    dir: &Dir,
) -> Result<Body, CommitFault>
    requires number { body.now.uber.number < 2 ^ 63 }
    ensures next { IfOk result (IsNextBody (blocks_of io.new) io.new.space body.now guids dir.now) }
    ensures one_leaf { io.old.space.free ≡ [] → length (dir_bytes dir.now) ≤ 8192 → OnOk result (room io.new.space + 16 ≡ room io.old.space) }
    ensures works { Works (commit_sectors (length (dir_bytes dir.now)) (length io.old.space.free)) 16 (io_of io.old) (io_of io.new) (stop_of_commit result) }
{
    let number = body.uber().number + 1;
    let (tree, length) = write_dir(io, alloc, dir, number)?;
    let stored = write_free(io, alloc, number)?;
    let mut free = Vec::new(alloc);
    free.extend_from_slice(io.space.extents())?;
    let uber = next_uber(body.uber(), guids, io.space.end());
    Ok(Body::new(naming(&uber, &tree, length, &stored), free))
}

// The bytes of a directory. Those that are too many for a tree of 2 levels find no memory.
pub(crate) fn spell_dir(alloc: Global, dir: &Dir) -> Result<Vec<u8>, CommitFault>
    ensures spelled { IfOk result (λ bytes. IsDir dir.now bytes.items) }
    ensures few { IfOk result (λ bytes. length bytes.items ≤ 8192 * 128 ^ 2) }
    ensures memory { IfErr result (λ fault. fault ≡ OutOfMemory) }
{
    let bytes = dir.encode(alloc)?;
    if bytes.len() > MOST {
        return Err(CommitFault::OutOfMemory);
    }
    Ok(bytes)
}

// Writes a directory into the leaves of a tree. Gives the tree, and the length of the directory in
// bytes.
fn write_dir<D: Disk>(
    io: &mut Io<'_, D>,
    alloc: Global,
    dir: &Dir,
    number: u64,
) -> Result<(Tree, u64), CommitFault>
    ensures there { IfOk result (λ written. DirStands (blocks_of io.new) written.0.levels written.0.root written.1 dir.now) }
    ensures extents { OnOk result (length io.new.space.free ≤ length io.old.space.free) }
    ensures one_leaf { length (dir_bytes dir.now) ≤ 8192 → OnOk result (room io.new.space + 16 ≡ room io.old.space) }
    ensures works { Works (dir_sectors (length (dir_bytes dir.now))) 16 (io_of io.old) (io_of io.new) (stop_of_commit result) }
{
    let bytes = spell_dir(alloc, dir)?;
    let tree = write_bytes(io, &bytes, number)?;
    Ok((tree, bytes.len() as u64))
}

// Writes the bytes of a directory into the leaves of a tree.
pub(crate) fn write_bytes<D: Disk>(
    io: &mut Io<'_, D>,
    bytes: &[u8],
    number: u64,
) -> Result<Tree, CommitFault>
    requires some { 0 < length bytes.now }
    requires few { length bytes.now ≤ 8192 * 128 ^ 2 }
    ensures written { IfOk result (WritesLeaves number (blocks_of io.new) bytes.now io.old.space io.new.space) }
    ensures one_leaf { length bytes.now ≤ 8192 → OnOk result (room io.new.space + 16 ≡ room io.old.space) }
    ensures works { Works (dir_sectors (length bytes.now)) 16 (io_of io.old) (io_of io.new) (stop_of_commit result) }
    ensures blocks { Works (16 * tree_blocks (leaves_for (length bytes.now))) 16 (io_of io.old) (io_of io.new) (stop_of_commit result) }
{
    match write_leaves(io, bytes, number) {
        Ok(tree) => Ok(tree),
        Err(BlockFault::Full { need, largest }) => Err(CommitFault::Full { need, largest }),
        Err(BlockFault::Damaged { .. }) => unreachable!(),
        Err(BlockFault::DiskFault) => Err(CommitFault::DiskFault),
    }
}

// Writes the free extents that are left, as `write_extents` does.
fn write_free<D: Disk>(
    io: &mut Io<'_, D>,
    alloc: Global,
    number: u64,
) -> Result<StoredExtents, CommitFault>
    ensures there { IfOk result (λ stored. HasExtents (blocks_of io.new) stored.levels stored.root stored.count io.new.space.free) }
    ensures apart { OnOk result (Apart 8 io.new.space.free io.new.space.end) }
    ensures none { io.old.space.free ≡ [] → OnOk result (io.new.space ≡ io.old.space) }
    ensures works { Works (16 * extent_blocks (length io.old.space.free)) 16 (io_of io.old) (io_of io.new) (stop_of_commit result) }
{
    match write_extents(io, alloc, number) {
        Ok(stored) => Ok(stored),
        Err(fault) => Err(of_extents(fault)),
    }
}

// Why extents weren't written. No block is read for them, so none is found damaged.
pub(crate) fn of_extents(fault: OrMemory<BlockFault>) -> CommitFault
    requires { TellsNone {T = Unit {0}} (Err fault) }
    ensures { stop_of_commit {T = Unit {0}} (Err result) ≡ fault_of {T = Unit {0}} (Err fault) }
{
    match fault {
        OrMemory::Fault(BlockFault::Full { need, largest }) => CommitFault::Full { need, largest },
        OrMemory::Fault(BlockFault::Damaged { .. }) => unreachable!(),
        OrMemory::Fault(BlockFault::DiskFault) => CommitFault::DiskFault,
        OrMemory::Memory => CommitFault::OutOfMemory,
    }
}

// The body of the next commit, with this guid counter, from whose end on all is free. It names the
// trees of the one before.
pub(crate) fn next_uber(uber: &Uber, guids: u64, end: u64) -> Uber
    requires { uber.now.number < 2 ^ 63 }
    ensures { result ≡ record uber.now { number = uber.now.number + 1; guids = guids; end = end } }
{
    Uber {
        number: uber.number + 1,
        guids,
        end,
        ..*uber
    }
}

// A body that names the tree of a directory of so many bytes, and that of the free extents.
pub(crate) fn naming(uber: &Uber, tree: &Tree, length: u64, stored: &StoredExtents) -> Uber
    ensures { result ≡ record uber.now { dir_levels = tree.now.levels; dir_bytes = length; dir_root = tree.now.root; free_count = stored.now.count; free_levels = stored.now.levels; free_root = stored.now.root } }
{
    Uber {
        dir_levels: u64::from(tree.levels),
        dir_bytes: length,
        dir_root: tree.root,
        free_count: stored.count,
        free_levels: u64::from(stored.levels),
        free_root: stored.root,
        ..*uber
    }
}
