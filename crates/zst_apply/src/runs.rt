//! WRITE records of neighbouring blocks of an object, applied at once.
ghost use Rattle.std.specs.Prelude.{◌≡◌, ◌+◌, ◌*◌, ◌/◌, ◌^◌, ◌<◌, ℕ, List, OnOk, Some, length, true, false};
ghost use Rattle.zst_block.specs.IoStates.{IsHonest, IsSparedBy, blocks_of, disk_of, io_of};
ghost use Rattle.zst_model.specs.pools.Soundness.{DatedUpTo};
ghost use Rattle.zst_model.specs.states.DatedState.{DatedState};
ghost use Rattle.zst_model.specs.states.State.{Object, is_block_size, is_odd_size};
ghost use Rattle.zst_tree.specs.Sets.{SetFits};
ghost use Rattle.zst_objset.specs.BlockRuns.{IsBlockRun};
ghost use Rattle.zst_objset.specs.Damage.{AreTreesWithin};
ghost use Rattle.zst_objset.specs.SetChanges.{KeepsSet};
ghost use Rattle.zst_objset.specs.Sets.{SetHolds};
ghost use Rattle.zst_objset.specs.TightSets.{SetIsTight};
ghost use Rattle.zst_apply.specs.AppliedRecords.{Applies, LimitOfIndex};
ghost use Rattle.zst_apply.specs.AppliedRuns.{run_received};
ghost use Rattle.zst_apply.specs.Damage.{apply_damage};

use crate::blocks::write_block;
use zst_block::Io;
use zst_laws::applied_is_state;
use zst_objset::{ObjFault, write_blocks};
use zst_outside::Disk;
use zst_tree::ObjSet;

/// Applies WRITE records of neighbouring whole blocks, all below one node of the object's tree. One alone is written as `apply`
/// writes it, since the only block of an object needs no node.
pub fn write_run<D: Disk>(
    io: &mut Io<'_, D>,
    set: &mut ObjSet,
    object: u64,
    index: u64,
    size: u32,
    count: usize,
    bytes: &[u8],
    number: u64,
) -> Result<(), ObjFault>
    requires object { (0 < object) × (object < 2 ^ 48) }
    requires size { is_block_size size ≡ true }
    requires even { is_odd_size size ≡ false }
    requires some { 0 < count }
    requires run { IsBlockRun index size count (length bytes.now) }
    ensures changed { (records : List (ℕ × ℕ)) (thing : Object) (state : DatedState) → IsHonest io.new → SetHolds (blocks_of io.old) set.old state
        → state.state object ≡ Some thing → thing.attr.block_size ≡ size → length records ≡ count
        → Applies 0 (SetHolds (blocks_of io.new) set.new) (run_received number object size (index * size) records bytes.now state) result }
    ensures tight { (records : List (ℕ × ℕ)) (thing : Object) (state : DatedState) → IsHonest io.new → SetIsTight (blocks_of io.old) set.old state → DatedUpTo number state
        → state.state object ≡ Some thing → thing.attr.block_size ≡ size → length records ≡ count
        → Applies 0 (SetIsTight (blocks_of io.new) set.new) (run_received number object size (index * size) records bytes.now state) result }
    ensures keeps { KeepsSet LimitOfIndex (apply_damage (IsSparedBy io.old) (disk_of io.old).size set.old) (count * (size / 512) + 640) (size / 512)
        (io_of io.old) (io_of io.new) set.old set.new result }
    ensures trees { IsHonest io.new → OnOk result (AreTreesWithin (IsSparedBy io.old) (disk_of io.old).size set.old (IsSparedBy io.new) set.new) }
    ensures levels { SetFits set.old → SetFits set.new }
{
    applied_is_state();
    if count == 1 {
        return write_block(io, set, object, index * u64::from(size), bytes, number);
    }
    write_blocks(set, io, object, index, size, count, bytes, number)
}
