//! The greatest index below one that has something present.
ghost use Rattle.std.specs.Prelude.{◌≡◌, ◌+◌, ◌-◌, ◌*◌, ◌^◌, ◌<◌, ◌≤◌, ℕ, List, IfOk, IfSome, MatchOption, true, false};
ghost use Rattle.zst_space.specs.FreeSectors.{FreeSectors};
ghost use Rattle.zst_block.specs.Blocks.{Has};
ghost use Rattle.zst_block.specs.IoStates.{IsHonest, blocks_of, disk_of, io_of};
ghost use Rattle.zst_block.specs.Ptr.{is_present};
ghost use Rattle.zst_block.specs.IoCalls.{stop_of};
ghost use Rattle.zst_tree.specs.Damage.{IsBelow, IsSeen, NamesDamage, SumsUp};
ghost use Rattle.zst_tree.specs.PresentIndices.{Empty, HasPresent, IsLast, ReachesEarlier};
ghost use Rattle.zst_tree.specs.Changes.{Parts};
ghost use Rattle.zst_tree.specs.Indices.{Delivers, Map, Subtree, child, span};
ghost use Rattle.zst_tree.specs.PathAnswer.{HangsOn, IfThere, IsChild, IsInside};
ghost use Rattle.zst_tree.specs.Steps.{LooksAtMost};

use crate::nodes::{child_at, load_node};
use crate::path_answer::{Branch, PathAnswer, nearer, stands_throughout};
use crate::spans::{place_of, span_of, start_of};
use zst_block::{BlockFault, Io, Node, Ptr};
use zst_outside::Disk;

// The last pointer before one that has something present.
fn last_child(node: &Node, below: usize) -> Option<usize>
    requires { below ≤ 128 }
    ensures { MatchOption result ((k : ℕ) → k < below → is_present (child node.now k) ≡ false)
        (λ found. (found < below) × (is_present (child node.now found) ≡ true) × ((k : ℕ) → found + 1 ≤ k → k < below → is_present (child node.now k) ≡ false)) }
{
    let mut left = below;
    while left > 0 {
        left -= 1;
        if child_at(node, left).is_present() {
            return Some(left);
        }
    }
    None
}

// The subtree at the last pointer before one that has something present.
fn earlier_from(node: &Node, level: u8, base: u64, below: usize) -> Option<Branch>
    requires level { level ≤ 7 }
    requires inner { 0 < level }
    requires base { base + span level < 2 ^ 64 }
    requires below { below ≤ 128 }
    ensures earlier { (image : List ℕ) (space : FreeSectors) (map : Map) → Parts (Has image space) (level - 1) node.now base map →
        MatchOption result (Empty map base (base + below * span (level - 1)))
        (HasPresent (Has image space) map (level - 1) base (base + below * span (level - 1))) }
    ensures inside { IfSome result (IsChild (level - 1) base (base + below * span (level - 1))) }
    ensures present { IfSome result (λ beside. is_present beside.ptr ≡ true) }
    ensures hangs { IfSome result (HangsOn node.now (level - 1)) }
{
    match last_child(node, below) {
        None => None,
        Some(k) => Some(Branch {
            level: level - 1,
            ptr: child_at(node, k),
            base: start_of(level, base, k),
        }),
    }
}

// Follows the path to an offset, and keeps the nearest subtree before it that has something present.
pub(crate) fn back_along<D: Disk>(
    io: &mut Io<'_, D>,
    level: u8,
    ptr: Ptr,
    base: u64,
    offset: u64,
) -> Result<PathAnswer, BlockFault>
    requires level { level ≤ 7 }
    requires base { base + span level < 2 ^ 64 }
    requires offset { offset < span level }
    ensures reaches { (map : Map) → IsHonest io.new → Subtree (blocks_of io.old) level ptr base map →
        Delivers (ReachesEarlier (blocks_of io.new) map (level - 1) base (base + offset + 1)) result }
    ensures inside { IfOk result (IsInside (level - 1) base (base + offset + 1)) }
    ensures present { IfOk result (IfThere (λ beside. is_present beside.ptr ≡ true)) }
    ensures below { IsHonest io.new → IfOk result (IfThere (λ beside. IsBelow (IsSeen (disk_of io.old).seen) (disk_of io.old).size (SumsUp (IsSeen (disk_of io.old).seen)) level ptr (IsSeen (disk_of io.old).seen) beside.level beside.ptr)) }
    ensures damaged { IsHonest io.new → NamesDamage (IsSeen (disk_of io.old).seen) (disk_of io.old).size (SumsUp (IsSeen (disk_of io.old).seen)) level ptr result }
    ensures looks { LooksAtMost level (io_of io.old) (io_of io.new) (stop_of result) }
{
    if !ptr.is_present() {
        return Ok(PathAnswer::Nothing);
    }
    if stands_throughout(level, &ptr) {
        return Ok(PathAnswer::Here(base + offset));
    }
    load_node(io, level, ptr)?;
    let place = place_of(level, offset);
    let child = child_at(&io.node, place.child);
    let before = earlier_from(&io.node, level, base, place.child);
    let start = start_of(level, base, place.child);
    let reach = back_along(io, level - 1, child, start, place.rest)?;
    Ok(nearer(reach, before))
}

// The last index below a pointer that has something present.
pub(crate) fn last_in<D: Disk>(
    io: &mut Io<'_, D>,
    level: u8,
    ptr: Ptr,
    base: u64,
) -> Result<u64, BlockFault>
    requires level { level ≤ 7 }
    requires base { base + span level < 2 ^ 64 }
    ensures last { (map : Map) → IsHonest io.new → is_present ptr ≡ true → Subtree (blocks_of io.old) level ptr base map →
        Delivers (IsLast map base (base + span level)) result }
    ensures range { IfOk result (λ found. (base ≤ found) × (found < base + span level)) }
    ensures damaged { is_present ptr ≡ true → IsHonest io.new → NamesDamage (IsSeen (disk_of io.old).seen) (disk_of io.old).size (SumsUp (IsSeen (disk_of io.old).seen)) level ptr result }
    ensures looks { LooksAtMost level (io_of io.old) (io_of io.new) (stop_of result) }
{
    if stands_throughout(level, &ptr) {
        return Ok(base + (span_of(level) - 1));
    }
    load_node(io, level, ptr)?;
    match last_child(&io.node, 128) {
        None => Err(BlockFault::of_layout(&ptr)),
        Some(k) => {
            let child = child_at(&io.node, k);
            let start = start_of(level, base, k);
            last_in(io, level - 1, child, start)
        }
    }
}
