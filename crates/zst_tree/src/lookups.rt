//! The leaf of an index.
ghost use Rattle.std.specs.Prelude.{◌+◌, ◌<◌, ◌≤◌, ℕ, IfOk};
ghost use Rattle.zst_block.specs.IoStates.{IsHonest, blocks_of, disk_of, io_of};
ghost use Rattle.zst_block.specs.IoCalls.{stop_of};
ghost use Rattle.zst_tree.specs.Damage.{HangsBelow, IsSeen, MayHave, NamesDamage, NamesNode};
ghost use Rattle.zst_tree.specs.Lookups.{Finds};
ghost use Rattle.zst_tree.specs.Indices.{Delivers, Map, Subtree, span};
ghost use Rattle.zst_tree.specs.Steps.{LooksInSteps};

use crate::nodes::{child_at, load_counted};
use crate::spans::{place_of, span_of};
use crate::steps::Steps;
use std::sync::ledger::Ledger;
use zst_block::{BlockFault, Io, Ptr};
use zst_outside::Disk;

// The pointer that stands for an offset below a pointer, and for how many offsets from it on.
pub(crate) fn find_in<D: Disk, L: Ledger>(
    io: &mut Io<'_, D>,
    level: u8,
    ptr: Ptr,
    offset: u64,
    steps: &mut Steps<L>,
) -> Result<(Ptr, u64), BlockFault>
    requires level { level ≤ 7 }
    requires offset { offset < span level }
    ensures finds { (base : ℕ) (map : Map) → IsHonest io.new → Subtree (blocks_of io.old) level ptr base map →
        Delivers (Finds (blocks_of io.old) level ptr offset) result }
    ensures range { IfOk result (λ found. (0 < found.1) × (offset + found.1 ≤ span level)) }
    ensures hangs { IsHonest io.new → IfOk result (λ found. HangsBelow (MayHave (IsSeen (disk_of io.old).seen)) level ptr found.0) }
    ensures damaged { IsHonest io.new → NamesDamage (IsSeen (disk_of io.old).seen) (disk_of io.old).size NamesNode level ptr result }
    ensures looks { LooksInSteps level (io_of io.old) (io_of io.new) (stop_of result) steps.old steps.new }
{
    if level == 0 {
        return Ok((ptr, 1));
    }
    if ptr.is_flat() {
        return Ok((ptr, span_of(level) - offset));
    }
    load_counted(io, level, ptr, steps)?;
    let place = place_of(level, offset);
    let child = child_at(&io.node, place.child);
    find_in(io, level - 1, child, place.rest, steps)
}
