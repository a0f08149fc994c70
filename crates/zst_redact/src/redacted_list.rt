//! The list of what is redacted in a snapshot.
ghost use Rattle.std.specs.Prelude.{◌≤◌, length, IfOk};
ghost use Rattle.zst_block.specs.IoStates.{IsHonest, blocks_of, disk_of, io_of};
ghost use Rattle.zst_block.specs.IoCalls.{Looks};
ghost use Rattle.zst_model.specs.fields.RunsOf.{runs_of};
ghost use Rattle.zst_model.specs.pools.Limits.{most_runs};
ghost use Rattle.zst_model.specs.pools.RedSet.{redacted_pairs};
ghost use Rattle.zst_model.specs.states.DatedState.{DatedState};
ghost use Rattle.zst_tree.specs.Damage.{IsSeen};
ghost use Rattle.zst_objset.specs.Sets.{SetHolds};
ghost use Rattle.zst_traverse.specs.Damage.{IsDamagedCell};
ghost use Rattle.zst_redact.specs.BuiltLists.{BuildsList, IfTold, stop_of};

use crate::fault::RedactFault;
use crate::lists::counted;
use crate::wanted::Wanted;
use std::alloc::Global;
use std::marker::Brand;
use std::sync::ledger::Blank;
use zst_block::Io;
use zst_model::List;
use zst_outside::Disk;
use zst_tree::{ObjSet, OrMemory};

/// The list of the redacted blocks of user data of a snapshot. It takes memory for the list alone, and looks
/// once at each pointer that stands in the trees of the set, however many redacted blocks that stands for:
/// what it costs goes with the nodes on the disk and with the runs, not with the redacted blocks.
pub fn redacted<D: Disk>(
    io: &mut Io<'_, D>,
    alloc: Global,
    snap: &ObjSet,
) -> Result<List, OrMemory<RedactFault>>
    // Where the set holds this state, the list is that of what is redacted in it; E23 comes exactly where it is too
    // long, and no damage is told.
    ensures list { (state : DatedState) → IsHonest io.new → SetHolds (blocks_of io.old) snap.now state → BuildsList (runs_of (redacted_pairs state.state)) result }

    // Whatever the image, it isn't too long, and damage is told of a block of the set.
    ensures short { IfOk result (λ list. length list ≤ most_runs) }
    ensures damaged { IsHonest io.new → IfTold result (IsDamagedCell (IsSeen (disk_of io.old).seen) (disk_of io.old).size snap.now) }

    // It only reads.
    ensures looks { Looks (io_of io.old) (io_of io.new) (stop_of result) }
{
    counted::<D, Brand>(io, alloc, snap, Wanted::Redacted, Blank::new(1))
}
