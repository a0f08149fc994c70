// How the pool of an image is opened.
ghost use Rattle.std.specs.Prelude.{◌≡◌, ℕ, Bool, List, length, IfOk, IfErr, Err};
ghost use Rattle.zst_outside.specs.Images.{IsSynced};
ghost use Rattle.zst_block.specs.Blocks.{Has};
ghost use Rattle.zst_uber.specs.Body.{InRange};
ghost use Rattle.zst_uber.specs.DiskCalls.{ReadsOrFails};
ghost use Rattle.zst_model.specs.pools.Pool.{Pool};
ghost use Rattle.zst_dir.specs.Rows.{Rows};
ghost use Rattle.zst_space.specs.declared.space.Extent.{Extent};
ghost use Rattle.zst_marks.specs.Marks.{Apart};
ghost use Rattle.zst_leaves.specs.Leaves.{BlocksBefore, HasLeaves};
ghost use Rattle.zst_extents.specs.StoredExtents.{HasExtents};
ghost use Rattle.zst_image.specs.Bodies.{Body, behind_end};
ghost use Rattle.zst_image.specs.Commits.{Ready};
ghost use Rattle.zst_image.specs.OpenAnswers.{GivesPool, IsOpenFault, LoadFault, OpenAnswers, ReadAnswer, TellsFault};
ghost use Rattle.zst_image.specs.Reads.{HasDir, ReadsAs, Rests};

use crate::body::Body;
use crate::open_fault::OpenFault;
use crate::pool_state::PoolState;
use std::alloc::Global;
use zst_block::{BlockFault, Io};
use zst_dir::Dir;
use zst_extents::read_extents;
use zst_leaves::read_leaves;
use zst_outside::Disk;
use zst_space::{Extent, Space};
use zst_tree::OrMemory;
use zst_uber::{Uber, latest};

impl PoolState {
    /// Opens the pool of a disk: reads its latest body, the free extents, and the directory. It begins
    /// with a sync and writes nothing. The session of a partial state that isn't kept has ended, so
    /// its row is left out.
    ///
    /// A block of the extents or the directory with other sums than its pointer states is damaged, by
    /// its own numbers. What isn't of its layout, or doesn't stand where blocks may, is damaged with
    /// both sums alike: extents that fall, touch, are empty or pass the end are, at their root.
    pub fn open<D: Disk>(alloc: Global, disk: &mut D) -> Result<PoolState, OpenFault>
        // An image that reads as a pool is opened as it, unless the disk or the memory fails.
        ensures there { (tight : Bool) (body : Body) (rows : Rows) (pool : Pool) → (D.state disk.new).honest → ReadsAs tight body rows pool (D.state disk.old).seen → GivesPool body rows result }
        ensures answer { (D.state disk.new).honest → OpenAnswers (D.state disk.old) result }
        // And of the one image that there is now it is what stands.
        ensures rests { (tight : Bool) (body : Body) (rows : Rows) (pool : Pool) → (D.state disk.new).honest → ReadsAs tight body rows pool (D.state disk.old).seen → IfOk result (λ kept. Rests tight (D.state disk.new) kept.body rows pool) }
        ensures ready { IfOk result (λ kept. Ready (D.state disk.new) kept.body) }
        ensures synced { ¬ (result ≡ Err OpenFault.DiskFault) → IsSynced (D.state disk.new) }
        ensures reads { ReadsOrFails OpenFault.DiskFault (D.state disk.old) (D.state disk.new) result }
    {
        let uber = latest(disk)?;
        let free = read_free(alloc, disk, &uber)?;
        let mut dir = read_dir(alloc, disk, &uber)?;
        dir.retain_kept();
        Ok(PoolState {
            body: Body::new(uber, free),
            dir,
        })
    }
}

// What is wrong with leaves; none is written, so the disk is never full.
fn of_leaves(fault: OrMemory<BlockFault>) -> OpenFault
    requires { (need largest : ℕ) → ¬ (fault ≡ OrMemory.Fault (BlockFault.Full need largest)) }
    ensures { IsOpenFault fault result }
{
    match fault {
        OrMemory::Fault(
            BlockFault::Damaged {
                sector,
                stated,
                found,
            },
        ) => OpenFault::Damaged {
            sector,
            stated,
            found,
        },
        OrMemory::Fault(BlockFault::DiskFault) => OpenFault::DiskFault,
        OrMemory::Fault(BlockFault::Full { .. }) => unreachable!(),
        OrMemory::Memory => OpenFault::OutOfMemory,
    }
}

// Reads the free extents that a body names.
fn read_free<D: Disk>(alloc: Global, disk: &mut D, uber: &Uber) -> Result<Vec<Extent>, OpenFault>
    requires { InRange (D.state disk.old).size uber.now }
    ensures there { (free : List Extent) → (D.state disk.new).honest → HasExtents (Has (D.state disk.old).seen (behind_end uber.now)) uber.now.free_levels uber.now.free_root uber.now.free_count free → Apart 8 free uber.now.end
        → ReadAnswer (λ extents. extents.items ≡ free) result }
    ensures only { (D.state disk.new).honest → IfOk result (λ extents. HasExtents (BlocksBefore uber.now.end (D.state disk.old).seen) uber.now.free_levels uber.now.free_root uber.now.free_count extents.items) }
    ensures apart { IfOk result (λ extents. Apart 8 extents.items uber.now.end) }
    ensures damaged { (D.state disk.new).honest → IfErr result (TellsFault (D.state disk.old) uber.now) }
    ensures fault { IfErr result LoadFault }
    ensures reads { ReadsOrFails OpenFault.DiskFault (D.state disk.old) (D.state disk.new) result }
{
    let space = Space::new(uber.end, uber.sectors, Vec::new(alloc));
    let mut io = Io::new(alloc, disk, space);
    let levels = uber.free_levels as u8;
    let read = read_extents(
        &mut io,
        alloc,
        levels,
        uber.free_root,
        uber.free_count,
        uber.end,
    );
    io.into_disk();
    match read {
        Ok(extents) => Ok(extents),
        Err(fault) => Err(of_leaves(fault)),
    }
}

// Reads the directory that a body names.
fn read_dir<D: Disk>(alloc: Global, disk: &mut D, uber: &Uber) -> Result<Dir, OpenFault>
    requires { InRange (D.state disk.old).size uber.now }
    ensures there { (rows : Rows) → (D.state disk.new).honest → HasDir (Has (D.state disk.old).seen (behind_end uber.now)) uber.now rows → ReadAnswer (λ dir. dir ≡ rows) result }
    ensures only { (D.state disk.new).honest → IfOk result (HasDir (BlocksBefore uber.now.end (D.state disk.old).seen) uber.now) }
    ensures damaged { (D.state disk.new).honest → IfErr result (TellsFault (D.state disk.old) uber.now) }
    ensures fault { IfErr result LoadFault }
    ensures reads { ReadsOrFails OpenFault.DiskFault (D.state disk.old) (D.state disk.new) result }
{
    let bytes = read_bytes(alloc, disk, uber)?;
    match Dir::decode(alloc, &bytes)? {
        Some(dir) => Ok(dir),
        None => Err(OpenFault::of_layout(&uber.dir_root)),
    }
}

// Reads the bytes of the directory that a body names.
fn read_bytes<D: Disk>(alloc: Global, disk: &mut D, uber: &Uber) -> Result<Vec<u8>, OpenFault>
    requires { InRange (D.state disk.old).size uber.now }
    ensures there { (text : List ℕ) → (D.state disk.new).honest → HasLeaves (Has (D.state disk.old).seen (behind_end uber.now)) uber.now.dir_levels uber.now.dir_root text → length text ≡ uber.now.dir_bytes
        → ReadAnswer (λ bytes. bytes.items ≡ text) result }
    ensures only { (D.state disk.new).honest → IfOk result (λ bytes. HasLeaves (BlocksBefore uber.now.end (D.state disk.old).seen) uber.now.dir_levels uber.now.dir_root bytes.items) }
    ensures length { IfOk result (λ bytes. length bytes.items ≡ uber.now.dir_bytes) }
    ensures damaged { (D.state disk.new).honest → IfErr result (TellsFault (D.state disk.old) uber.now) }
    ensures fault { IfErr result LoadFault }
    ensures reads { ReadsOrFails OpenFault.DiskFault (D.state disk.old) (D.state disk.new) result }
{
    let space = Space::new(uber.end, uber.sectors, Vec::new(alloc));
    let mut io = Io::new(alloc, disk, space);
    let levels = uber.dir_levels as u8;
    let read = read_leaves(&mut io, alloc, levels, uber.dir_root, uber.dir_bytes);
    io.into_disk();
    match read {
        Ok(bytes) => Ok(bytes),
        Err(fault) => Err(of_leaves(fault)),
    }
}
