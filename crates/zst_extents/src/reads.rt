// Free extents are read from their leaves.
ghost use Rattle.std.specs.Prelude.{◌≡◌, ◌*◌, ◌^◌, ◌<◌, ℕ, List, All, IfOk, Err};
ghost use Rattle.zst_fletcher.specs.WeightSum.{parts_of};
ghost use Rattle.zst_space.specs.declared.space.Extent.{Extent};
ghost use Rattle.zst_marks.specs.Marks.{Apart};
ghost use Rattle.zst_block.specs.IoCalls.{Looks};
ghost use Rattle.zst_block.specs.IoStates.{IsHonest, blocks_of, disk_of, io_of};
ghost use Rattle.zst_block.specs.declared.fault.BlockFault.TheVariants.{Damaged};
ghost use Rattle.zst_tree.specs.Faults.{IfFault, fault_of};
ghost use Rattle.zst_tree.specs.declared.or_memory.OrMemory.TheVariants.{Fault};
ghost use Rattle.zst_leaves.specs.Damage.{TellsText};
ghost use Rattle.zst_leaves.specs.Leaves.{BlocksBefore};
ghost use Rattle.zst_extents.specs.ExtentReads.{FitsWords, GivesExtents, TellsExtents};
ghost use Rattle.zst_extents.specs.StoredExtents.{HasExtents};

use crate::order::are_apart;
use crate::spelling::decode;
use std::alloc::Global;
use zst_block::{BlockFault, Io, Ptr};
use zst_leaves::{MOST_BYTES, read_leaves};
use zst_outside::Disk;
use zst_space::Extent;
use zst_tree::OrMemory;

/// So many extents at most have bytes that fit leaves.
pub(crate) const MOST_EXTENTS: u64 = MOST_BYTES / 16;

// What is below the root aren't extents of the layout.
fn no_extents(root: &Ptr) -> OrMemory<BlockFault>
    ensures { result ≡ Fault (Damaged root.now.sector (parts_of root.now.sum) (parts_of root.now.sum)) }
{
    OrMemory::Fault(BlockFault::of_layout(root))
}

// Reads so many extents, also ones that aren't apart.
fn read_pairs<D: Disk>(
    io: &mut Io<'_, D>,
    alloc: Global,
    levels: u8,
    root: Ptr,
    count: u64,
) -> Result<Vec<Extent>, OrMemory<BlockFault>>
    ensures there { (extents : List Extent) → IsHonest io.new → All FitsWords extents → HasExtents (blocks_of io.old) levels root count extents → GivesExtents extents (λ read. read.items) result }
    ensures only { IsHonest io.new → IfOk result (λ extents. HasExtents (BlocksBefore io.old.space.end (disk_of io.old).seen) levels root count extents.items) }
    ensures fit { IfOk result (λ extents. All FitsWords extents.items) }
    ensures damaged { IsHonest io.new → TellsText io.old.space.end (disk_of io.old).seen (disk_of io.old).size levels root (16 * count) result }
    ensures looks { Looks (io_of io.old) (io_of io.new) (fault_of result) }
{
    if count == 0 {
        return if levels == 0 && root == Ptr::hole(0) {
            Ok(Vec::new(alloc))
        } else {
            Err(no_extents(&root))
        };
    }
    if count > MOST_EXTENTS {
        return Err(no_extents(&root));
    }
    let bytes = read_leaves(io, alloc, levels, root, 16 * count)?;
    let extents = decode(alloc, &bytes, count)?;
    Ok(extents)
}

/// Reads so many free extents from the leaves below the root of a tree. None stand nowhere: the
/// root is the hole of the date 0, over no levels.
///
/// They rise from sector 8 on up to `end`, none is empty, and no two touch. A block with other sums
/// than its pointer states is damaged, by its own numbers. Where each block below the root was
/// read, and they have no such extents, the root is, with both sums alike.
pub fn read_extents<D: Disk>(
    io: &mut Io<'_, D>,
    alloc: Global,
    levels: u8,
    root: Ptr,
    count: u64,
    end: u64,
) -> Result<Vec<Extent>, OrMemory<BlockFault>>
    // Extents that are there are read, unless the disk or the memory fails, and what is read is there.
    ensures there { (extents : List Extent) → IsHonest io.new → HasExtents (blocks_of io.old) levels root count extents → Apart 8 extents end → GivesExtents extents (λ read. read.items) result }
    ensures only { IsHonest io.new → IfOk result (λ extents. HasExtents (BlocksBefore io.old.space.end (disk_of io.old).seen) levels root count extents.items) }
    ensures apart { IfOk result (λ extents. Apart 8 extents.items end) }

    // What is damaged is a block to which the root leads. The root itself is told with both sums alike only where it
    // can't be one of such a text, or where all leaves below it were read and are the text of no such extents.
    ensures damaged { IsHonest io.new → TellsExtents io.old.space.end (disk_of io.old).seen (disk_of io.old).size levels root count end result }

    // It only reads.
    ensures looks { Looks (io_of io.old) (io_of io.new) (fault_of result) }
{
    let extents = read_pairs(io, alloc, levels, root, count)?;
    if !are_apart(&extents, end) {
        return Err(no_extents(&root));
    }
    Ok(extents)
}
