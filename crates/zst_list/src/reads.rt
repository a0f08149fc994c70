// A list is read from its leaves.
ghost use Rattle.std.specs.Prelude.{◌≡◌, ◌≤◌, IfOk};
ghost use Rattle.zst_fletcher.specs.WeightSum.{parts_of};
ghost use Rattle.zst_block.specs.IoCalls.{Looks};
ghost use Rattle.zst_block.specs.IoStates.{IsHonest, blocks_of, disk_of, io_of};
ghost use Rattle.zst_block.specs.declared.fault.BlockFault.TheVariants.{Damaged};
ghost use Rattle.zst_tree.specs.Faults.{fault_of};
ghost use Rattle.zst_tree.specs.declared.or_memory.OrMemory.TheVariants.{Fault};
ghost use Rattle.zst_model.specs.fields.Lists.{Runs};
ghost use Rattle.zst_leaves.specs.Leaves.{BlocksBefore};
ghost use Rattle.zst_list.specs.declared.reads.TheConstants.{MOST_RUNS};
ghost use Rattle.zst_list.specs.StoredLists.{GivesList, HasList, TellsList, list_length};

use crate::coding::{RUNS_IN_LEAF, decode_list};
use std::alloc::Global;
use zst_block::{BlockFault, Io, Ptr};
use zst_leaves::{MOST_BYTES, read_leaves};
use zst_model::List;
use zst_outside::Disk;
use zst_tree::OrMemory;

/// A list whose bytes fit leaves has at most so many runs.
const MOST_RUNS: u64 = MOST_BYTES / 24;

// How many bytes a list of so many runs has.
fn length_of(count: u64) -> u64
    requires { count ≤ MOST_RUNS }
    ensures { result ≡ list_length count }
{
    24 * count + 8 * (count / RUNS_IN_LEAF)
}

// What is below the root isn't a list.
fn no_list(root: &Ptr) -> OrMemory<BlockFault>
    ensures { result ≡ Fault (Damaged root.now.sector (parts_of root.now.sum) (parts_of root.now.sum)) }
{
    OrMemory::Fault(BlockFault::of_layout(root))
}

/// Reads a list of so many runs from the leaves below the root of a tree. One of none stands nowhere.
///
/// A block with other sums than its pointer states is damaged, by its own numbers. Where each block
/// below the root was read, and their text is of no list, the root is, with both sums alike.
pub fn read_list<D: Disk>(
    io: &mut Io<'_, D>,
    alloc: Global,
    levels: u8,
    root: Ptr,
    count: u64,
) -> Result<List, OrMemory<BlockFault>>
    // A list that is there is read, unless the disk or the memory fails, and what is read is there.
    ensures there { (runs : Runs) → IsHonest io.new → HasList (blocks_of io.old) levels root count runs → GivesList runs (λ list. list) result }
    ensures only { IsHonest io.new → IfOk result (λ list. HasList (BlocksBefore io.old.space.end (disk_of io.old).seen) levels root count list) }

    // What is damaged is a block to which the root leads. The root itself is told with both sums alike only where it
    // can't be one of such a text, or where all leaves below it were read and are the text of no list.
    ensures damaged { IsHonest io.new → TellsList io.old.space.end (disk_of io.old).seen (disk_of io.old).size levels root count result }

    // It only reads.
    ensures looks { Looks (io_of io.old) (io_of io.new) (fault_of result) }
{
    if count == 0 {
        return Ok(List::empty(alloc));
    }
    if count > MOST_RUNS {
        return Err(no_list(&root));
    }
    let bytes = read_leaves(io, alloc, levels, root, length_of(count))?;
    match decode_list(alloc, &bytes, count)? {
        Some(list) => Ok(list),
        None => Err(no_list(&root)),
    }
}
