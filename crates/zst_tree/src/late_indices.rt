//! The least index from one on that is dated after a number.
ghost use Rattle.std.specs.Prelude.{◌+◌, ◌-◌, ◌*◌, ◌^◌, ◌<◌, ◌≤◌, ℕ, List, IfOk, IfSome, MatchOption};
ghost use Rattle.zst_space.specs.FreeSectors.{FreeSectors};
ghost use Rattle.zst_block.specs.Blocks.{Has};
ghost use Rattle.zst_block.specs.IoStates.{IsHonest, blocks_of, disk_of, io_of};
ghost use Rattle.zst_block.specs.IoCalls.{stop_of};
ghost use Rattle.zst_tree.specs.Changes.{Parts};
ghost use Rattle.zst_tree.specs.Damage.{IsBelow, IsSeen, NamesDamage, SumsUp};
ghost use Rattle.zst_tree.specs.Indices.{Delivers, Map, Subtree, child, span};
ghost use Rattle.zst_tree.specs.LateIndices.{HasLater, IsFirst, Quiet, ReachesLater};
ghost use Rattle.zst_tree.specs.PathAnswer.{HangsOn, IfThere, IsChild, IsInside};
ghost use Rattle.zst_tree.specs.Steps.{LooksInSteps};

use crate::nodes::{child_at, load_counted};
use crate::path_answer::{Branch, PathAnswer, nearer, stands_throughout};
use crate::spans::{place_of, start_of};
use crate::steps::Steps;
use std::sync::ledger::Ledger;
use zst_block::{BlockFault, Io, Node, Ptr};
use zst_outside::Disk;

// The first pointer from one on that has something later.
fn later_child(node: &Node, from: usize, number: u64) -> Option<usize>
    ensures { MatchOption result ((k : ℕ) → from ≤ k → k < 128 → (child node.now k).number ≤ number)
        (λ found. (from ≤ found) × (found < 128) × (number < (child node.now found).number) × ((k : ℕ) → from ≤ k → k < found → (child node.now k).number ≤ number)) }
{
    for k in from..128 {
        if child_at(node, k).number > number {
            return Some(k);
        }
    }
    None
}

// The subtree at the first pointer from one on that has something later.
fn later_from(node: &Node, level: u8, base: u64, from: usize, number: u64) -> Option<Branch>
    requires level { level ≤ 7 }
    requires inner { 0 < level }
    requires base { base + span level < 2 ^ 64 }
    ensures later { (image : List ℕ) (space : FreeSectors) (map : Map) → Parts (Has image space) (level - 1) node.now base map → from ≤ 128 →
        MatchOption result (Quiet map (base + from * span (level - 1)) (base + span level) number)
        (HasLater (Has image space) map (level - 1) (base + from * span (level - 1)) (base + span level) number) }
    ensures inside { IfSome result (IsChild (level - 1) (base + from * span (level - 1)) (base + span level)) }
    ensures late { IfSome result (λ beside. number < beside.ptr.number) }
    ensures hangs { IfSome result (HangsOn node.now (level - 1)) }
{
    match later_child(node, from, number) {
        None => None,
        Some(k) => Some(Branch {
            level: level - 1,
            ptr: child_at(node, k),
            base: start_of(level, base, k),
        }),
    }
}

// Follows the path to an offset, and keeps the nearest subtree behind it that has something later.
pub(crate) fn along<D: Disk, L: Ledger>(
    io: &mut Io<'_, D>,
    level: u8,
    ptr: Ptr,
    base: u64,
    offset: u64,
    number: u64,
    steps: &mut Steps<L>,
) -> Result<PathAnswer, BlockFault>
    requires level { level ≤ 7 }
    requires base { base + span level < 2 ^ 64 }
    requires offset { offset < span level }
    ensures reaches { (map : Map) → IsHonest io.new → Subtree (blocks_of io.old) level ptr base map →
        Delivers (ReachesLater (blocks_of io.new) map (level - 1) (base + offset) (base + span level) number) result }
    ensures inside { IfOk result (IsInside (level - 1) (base + offset) (base + span level)) }
    ensures late { IfOk result (IfThere (λ beside. number < beside.ptr.number)) }
    ensures below { IsHonest io.new → IfOk result (IfThere (λ beside. IsBelow (IsSeen (disk_of io.old).seen) (disk_of io.old).size (SumsUp (IsSeen (disk_of io.old).seen)) level ptr (IsSeen (disk_of io.old).seen) beside.level beside.ptr)) }
    ensures damaged { IsHonest io.new → NamesDamage (IsSeen (disk_of io.old).seen) (disk_of io.old).size (SumsUp (IsSeen (disk_of io.old).seen)) level ptr result }
    ensures looks { LooksInSteps level (io_of io.old) (io_of io.new) (stop_of result) steps.old steps.new }
{
    if ptr.number <= number {
        return Ok(PathAnswer::Nothing);
    }
    if stands_throughout(level, &ptr) {
        return Ok(PathAnswer::Here(base + offset));
    }
    load_counted(io, level, ptr, steps)?;
    let place = place_of(level, offset);
    let child = child_at(&io.node, place.child);
    let behind = later_from(&io.node, level, base, place.child + 1, number);
    let start = start_of(level, base, place.child);
    let reach = along(io, level - 1, child, start, place.rest, number, steps)?;
    Ok(nearer(reach, behind))
}

// The first index below a pointer that has something later.
pub(crate) fn first_in<D: Disk, L: Ledger>(
    io: &mut Io<'_, D>,
    level: u8,
    ptr: Ptr,
    base: u64,
    number: u64,
    steps: &mut Steps<L>,
) -> Result<u64, BlockFault>
    requires level { level ≤ 7 }
    requires base { base + span level < 2 ^ 64 }
    ensures first { (map : Map) → IsHonest io.new → number < ptr.number → Subtree (blocks_of io.old) level ptr base map →
        Delivers (IsFirst map base (base + span level) number) result }
    ensures range { IfOk result (λ found. (base ≤ found) × (found < base + span level)) }
    ensures damaged { number < ptr.number → IsHonest io.new → NamesDamage (IsSeen (disk_of io.old).seen) (disk_of io.old).size (SumsUp (IsSeen (disk_of io.old).seen)) level ptr result }
    ensures looks { LooksInSteps level (io_of io.old) (io_of io.new) (stop_of result) steps.old steps.new }
{
    if stands_throughout(level, &ptr) {
        return Ok(base);
    }
    load_counted(io, level, ptr, steps)?;
    match later_child(&io.node, 0, number) {
        None => Err(BlockFault::of_layout(&ptr)),
        Some(k) => {
            let child = child_at(&io.node, k);
            let start = start_of(level, base, k);
            first_in(io, level - 1, child, start, number, steps)
        }
    }
}
