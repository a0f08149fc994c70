// How a pool is made in an image.
ghost use Rattle.std.specs.Prelude.{◌≡◌, ◌⊎◌, ◌<◌, ◌≤◌, ◌^◌, ℕ, Bool, List, [], OnOk, IfOk, IfErr, Err};
ghost use Rattle.zst_outside.specs.Images.{Leaves};
ghost use Rattle.zst_block.specs.Ptr.{hole_of};
ghost use Rattle.zst_uber.specs.Commit.{LabelSettled};
ghost use Rattle.zst_uber.specs.DiskCalls.{HasDiskCause, ReadsOrFails};
ghost use Rattle.zst_uber.specs.Slots.{latest as latest_of};
ghost use Rattle.zst_image.specs.Commits.{Ready};
ghost use Rattle.zst_image.specs.CreateAnswers.{CreateAnswers, IsMade, IsNew, NoneAnswers, RefusedLeaves};
ghost use Rattle.zst_image.specs.Reads.{Reads, Rests, new_pool};

use crate::body::Body;
use crate::commit_fault::CommitFault;
use crate::commits::commit_dir;
use crate::create_fault::CreateFault;
use crate::pool_state::PoolState;
use std::alloc::Global;
use zst_block::{Io, Ptr};
use zst_dir::Dir;
use zst_outside::Disk;
use zst_space::Space;
use zst_uber::{Uber, UberFault, VERSION, latest};

impl PoolState {
    /// Makes an empty pool of so many sectors on a disk that has none: its directory, and its first
    /// commit. It begins with a sync.
    ///
    /// It is refused where a slot has an open gate and the body's magic, also with a damaged body or
    /// another version (E4), and where the disk has fewer sectors (E23). Then it has only read.
    pub fn create<D: Disk>(
        alloc: Global,
        disk: &mut D,
        sectors: u64,
        id: u32,
    ) -> Result<PoolState, CreateFault>
        requires sectors { (128 ≤ sectors) × (sectors ≤ 2 ^ 31) }
        requires id { (0 < id) × (id < 2 ^ 31) }
        ensures answer { (D.state disk.new).honest → CreateAnswers (D.state disk.old).size (latest_of (D.state disk.old).seen) sectors result }
        ensures made { (tight : Bool) → (D.state disk.new).honest → IfOk result (λ kept. Rests tight (D.state disk.new) kept.body kept.dir (new_pool id)) }
        ensures new { IfOk result (IsNew sectors) }
        ensures ready { IfOk result (λ kept. Ready (D.state disk.new) kept.body) }
        // At every moment each image has the latest body that one had before, or reads as the new pool.
        ensures moments { (tight : Bool) → (D.state disk.new).honest → Leaves (D.state disk.old) (D.state disk.new) (λ c. ((d : List ℕ) × (D.state disk.old).images d × (latest_of c ≡ latest_of d)) ⊎ Reads tight (new_pool id) c) }
        ensures refused { IfErr result (RefusedLeaves (D.state disk.old) (D.state disk.new)) }
        ensures cause { HasDiskCause CreateFault.DiskFault (D.state disk.old).faults (D.state disk.new).faults result }
        ensures honest { (D.state disk.new).honest → (D.state disk.old).honest }
    {
        find_none(disk)?;
        if disk.bytes() / 512 < sectors {
            return Err(CreateFault::TooSmall { sectors });
        }
        let space = Space::new(8, sectors, Vec::new(alloc));
        let mut io = Io::new(alloc, disk, space);
        let made = commit_dir(
            &mut io,
            alloc,
            &unborn(alloc, sectors, id),
            0,
            Dir::new(alloc),
        );
        // Only of a disk that was given back is it known what stands on it.
        io.into_disk();
        answer(made)
    }
}

// Makes sure that the disk has no pool. It begins with a sync.
fn find_none<D: Disk>(disk: &mut D) -> Result<(), CreateFault>
    ensures answer { (D.state disk.new).honest → NoneAnswers (latest_of (D.state disk.old).seen) result }
    ensures label { OnOk result (LabelSettled (D.state disk.new)) }
    ensures reads { ReadsOrFails CreateFault.DiskFault (D.state disk.old) (D.state disk.new) result }
{
    match latest(disk) {
        Err(UberFault::NoPool) => Ok(()),
        Err(UberFault::DiskFault) => Err(CreateFault::DiskFault),
        _ => Err(CreateFault::Exists),
    }
}

// What making a pool answers, from its first commit. A directory without rows has room in each pool.
fn answer(made: Result<PoolState, CommitFault>) -> Result<PoolState, CreateFault>
    requires { (need largest : ℕ) → ¬ (made ≡ Err (CommitFault.Full need largest)) }
    ensures { IsMade made result }
{
    match made {
        Ok(kept) => Ok(kept),
        Err(CommitFault::Full { .. }) => unreachable!(),
        Err(CommitFault::DiskFault) => Err(CreateFault::DiskFault),
        Err(CommitFault::OutOfMemory) => Err(CreateFault::OutOfMemory),
    }
}

// What stands before a pool's first commit: a body without a number, guids, free extents and a
// directory.
fn unborn(alloc: Global, sectors: u64, id: u32) -> Body
    ensures { result ≡ record { uber = record { version = VERSION; id = id; number = 0; guids = 0; sectors = sectors; end = 8; dir_levels = 0; dir_bytes = 0; dir_root = hole_of 0; free_count = 0; free_levels = 0; free_root = hole_of 0 }; free = [] } }
{
    let uber = Uber {
        version: VERSION,
        id,
        number: 0,
        guids: 0,
        sectors,
        end: 8,
        dir_levels: 0,
        dir_bytes: 0,
        dir_root: Ptr::hole(0),
        free_count: 0,
        free_levels: 0,
        free_root: Ptr::hole(0),
    };
    Body::new(uber, Vec::new(alloc))
}
