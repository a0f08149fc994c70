// The extents that are left once they stand in leaves are written.
ghost use Rattle.std.specs.Prelude.{◌≡◌, ◌+◌, ◌*◌, ◌/◌, ◌^◌, ◌<◌, ℕ, IfErr, IfOk, OnOk, length};
ghost use Rattle.zst_space.specs.FreeSectors.{IsFree, IsSpaceFrom};
ghost use Rattle.zst_space.specs.TakenExtents.{without_blocks};
ghost use Rattle.zst_marks.specs.Marks.{Apart};
ghost use Rattle.zst_block.specs.IoCalls.{IsBlockLength, IsFull, TakesAtMost, Works};
ghost use Rattle.zst_block.specs.IoStates.{blocks_of, io_of};
ghost use Rattle.zst_leaves.specs.Leaves.{Laid, TellsNone, leaves_for};
ghost use Rattle.zst_tree.specs.Faults.{fault_of};
ghost use Rattle.zst_extents.specs.StoredExtents.{HasExtents, TakesTree, extent_blocks, tree_blocks};

use crate::order::are_apart;
use crate::reads::MOST_EXTENTS;
use crate::spelling::spell;
use std::alloc::Global;
use zst_block::{BlockFault, Io, Ptr};
use zst_leaves::write_leaves;
use zst_outside::Disk;
use zst_space::{Extent, Space, SpaceFault};
use zst_tree::OrMemory;

/// Where free extents stand.
#[derive(Clone, Copy, Debug, PartialEq, Eq)]
pub struct StoredExtents {
    /// How many levels of nodes stand above the leaves.
    pub levels: u8,
    /// The root of their tree.
    pub root: Ptr,
    /// How many they are.
    pub count: u64,
}

/// So many blocks a text of so many bytes takes at most, in a tree of as few levels as have room
/// for it: its leaves, and the nodes above them.
pub fn text_blocks(bytes: u64) -> u64
    requires { bytes < 2 ^ 63 }
    ensures { result ≡ tree_blocks (leaves_for bytes) }
{
    let leaves = (bytes + 8191) / 8192;
    match leaves {
        0..=1 => leaves,
        2..=128 => leaves + 1,
        129..=16384 => leaves + (leaves + 127) / 128 + 1,
        _ => leaves + (leaves + 127) / 128 + (leaves + 16383) / 16384 + 1,
    }
}

// So many blocks so many extents take.
pub(crate) fn blocks_for(count: usize) -> u64
    requires { count < 2 ^ 59 }
    ensures { result ≡ extent_blocks count }
{
    text_blocks(16 * count as u64)
}

// Takes so many blocks of a tree in turn.
fn take_blocks(space: &mut Space, blocks: u64) -> Result<(), SpaceFault>
    requires { IsSpaceFrom 8 space.old }
    ensures after { OnOk result (space.new ≡ without_blocks blocks space.old) }
    ensures takes { TakesAtMost (16 * blocks) (IsBlockLength 16) space.old space.new }
    ensures fewer { (sector : ℕ) → IsFree space.new sector → IsFree space.old sector }
    ensures full { IfErr result (λ full. IsFull (16 * blocks) 16 space.old space.new full.need full.largest) }
    ensures kept { IsSpaceFrom 8 space.new }
{
    for k in 0..blocks {
        match space.take(16) {
            Ok(_) => {}
            Err(full) => return Err(full),
        }
    }
    Ok(())
}

/// Writes free extents below the root of a tree, whatever is free. More than 2^30 have no place in
/// an image, and find no memory.
pub fn write_unmarked<D: Disk>(
    io: &mut Io<'_, D>,
    alloc: Global,
    extents: &[Extent],
    number: u64,
) -> Result<StoredExtents, OrMemory<BlockFault>>
    // They stand there, by pointers with the number, in sectors that were free. Taken are so many blocks in turn.
    ensures there { IfOk result (λ stored. HasExtents (Laid number io.old.space (blocks_of io.new)) stored.levels stored.root stored.count extents.now) }
    ensures after { IfOk result (λ stored. TakesTree stored.levels extents.now io.old.space io.new.space) }

    // Free sectors alone are written.
    ensures works { Works (16 * extent_blocks (length extents.now)) 16 (io_of io.old) (io_of io.new) (fault_of result) }
    ensures never_damaged { TellsNone result }
{
    let count = extents.len() as u64;
    if count > MOST_EXTENTS {
        return Err(OrMemory::Memory);
    }
    let bytes = spell(alloc, extents)?;
    if bytes.is_empty() {
        return Ok(StoredExtents {
            levels: 0,
            root: Ptr::hole(0),
            count,
        });
    }
    let tree = write_leaves(io, &bytes, number)?;
    Ok(StoredExtents {
        levels: tree.levels,
        root: tree.root,
        count,
    })
}

/// Writes the free extents that are left once they are written themselves, and leaves them free.
///
/// Their blocks are taken in turn, as many as the extents before would take. One of these that isn't
/// written is neither free nor reached. Extents that have no place in an image find no memory: more
/// than 2^30, and ones that touch, which are never left where none touched before.
pub fn write_extents<D: Disk>(
    io: &mut Io<'_, D>,
    alloc: Global,
    number: u64,
) -> Result<StoredExtents, OrMemory<BlockFault>>
    // What stands there afterwards, by pointers with the number and in sectors that were free, are the extents
    // that are left once so many blocks were taken in turn.
    ensures there { IfOk result (λ stored. HasExtents (Laid number io.old.space (blocks_of io.new)) stored.levels stored.root stored.count io.new.space.free) }
    ensures after { OnOk result (io.new.space ≡ without_blocks (extent_blocks (length io.old.space.free)) io.old.space) }
    ensures apart { OnOk result (Apart 8 io.new.space.free io.new.space.end) }
    // Free sectors alone are written: those of these blocks.
    ensures works { Works (16 * extent_blocks (length io.old.space.free)) 16 (io_of io.old) (io_of io.new) (fault_of result) }
    ensures never_damaged { TellsNone result }
{
    if io.space.extents().len() as u64 > MOST_EXTENTS {
        return Err(OrMemory::Memory);
    }
    let blocks = blocks_for(io.space.extents().len());
    let mut left = io.space.copy(alloc)?;
    match take_blocks(&mut left, blocks) {
        Ok(()) => {}
        Err(full) => {
            io.space = left;
            return Err(OrMemory::Fault(BlockFault::from(full)));
        }
    }
    if !are_apart(left.extents(), left.end()) {
        return Err(OrMemory::Memory);
    }
    let stored = write_unmarked(io, alloc, left.extents(), number)?;
    io.space = left;
    Ok(stored)
}
