// A list is written into leaves.
ghost use Rattle.std.specs.Prelude.{◌≡◌, ◌≤◌, ◌^◌, [], length, IfOk};
ghost use Rattle.zst_block.specs.IoCalls.{Works};
ghost use Rattle.zst_block.specs.IoStates.{blocks_of, io_of};
ghost use Rattle.zst_block.specs.Ptr.{hole_of};
ghost use Rattle.zst_leaves.specs.Leaves.{TellsNone};
ghost use Rattle.zst_tree.specs.Faults.{fault_of};
ghost use Rattle.zst_list.specs.StoredLists.{HasList, StandsNowhere, list_sectors};

use crate::coding::encode_list;
use std::alloc::Global;
use zst_block::{BlockFault, Io, Ptr};
use zst_leaves::write_leaves;
use zst_model::List;
use zst_outside::Disk;
use zst_tree::{OrMemory, Tree};

/// Writes a list into the leaves of a tree, by pointers with this number. One of no runs stands nowhere: its root is a hole.
pub fn write_list<D: Disk>(
    io: &mut Io<'_, D>,
    alloc: Global,
    list: &List,
    number: u64,
) -> Result<Tree, OrMemory<BlockFault>>
    requires few { length list.now ≤ 2 ^ 16 }

    // The list stands below the root, over as few levels as have room for it.
    ensures there { IfOk result (λ tree. HasList (blocks_of io.new) tree.levels tree.root (length list.now) list.now) }
    ensures nowhere { list.now ≡ [] → IfOk result StandsNowhere }
    ensures low { IfOk result (λ tree. tree.levels ≤ 3) }

    // Free sectors alone are written: 16 for each leaf and for each node above.
    ensures works { Works (list_sectors (length list.now)) 16 (io_of io.old) (io_of io.new) (fault_of result) }
    ensures never_damaged { TellsNone result }
{
    let bytes = encode_list(alloc, list.runs())?;
    if bytes.is_empty() {
        return Ok(Tree {
            levels: 0,
            past: 0,
            root: Ptr::hole(0),
        });
    }
    let tree = write_leaves(io, &bytes, number)?;
    Ok(tree)
}
