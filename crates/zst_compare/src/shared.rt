//! How far two trees share what stands below the same pointers, which is read for neither.
ghost use Rattle.std.specs.Prelude.{◌≡◌, ◌⊎◌, ◌+◌, ◌*◌, ◌^◌, ◌<◌, ◌≤◌, ℕ, IfOk};
ghost use Rattle.zst_block.specs.IoStates.{IsHonest, blocks_of, disk_of, io_of};
ghost use Rattle.zst_block.specs.IoCalls.{Looks, stop_of};
ghost use Rattle.zst_objset.specs.Damage.{IfDamaged};
ghost use Rattle.zst_tree.specs.Damage.{IsBelow, IsDamagedNode, IsSeen, NamesDamage, NamesNode};
ghost use Rattle.zst_tree.specs.Indices.{Delivers, Map, Subtree, TreeIs, child, span};
ghost use Rattle.zst_compare.specs.Contents.{Alike};
ghost use Rattle.zst_compare.specs.Damage.{IsDamagedTree, OfEither};

use std::mem;
use zst_block::{BlockFault, Io, Node, Ptr};
use zst_outside::Disk;
use zst_tree::{TREE_INDEX_BOUND, Tree, child_at, load_node, span_of};

// The first child from one on that two nodes don't share, or 128.
fn first_apart(one: &Node, other: &Node, from: usize) -> usize
    requires from { from ≤ 128 }
    ensures range { (from ≤ result) × (result ≤ 128) }
    ensures shared { (k : ℕ) → from ≤ k → k < result → child one.now k ≡ child other.now k }
{
    for k in from..128 {
        if child_at(one, k) != child_at(other, k) {
            return k;
        }
    }
    128
}

// The index up to which at least two pointers of one level share all from an index on.
fn shared_below<D: Disk>(
    io: &mut Io<'_, D>,
    level: u8,
    later: Ptr,
    earlier: Ptr,
    base: u64,
    from: u64,
) -> Result<u64, BlockFault>
    requires level { level ≤ 7 }
    requires base { base + span level < 2 ^ 64 }
    requires from { (base ≤ from) × (from < base + span level) }
    ensures shared { (one other : Map) → IsHonest io.new → Subtree (blocks_of io.old) level later base one → Subtree (blocks_of io.old) level earlier base other
        → Delivers (Alike one other from) result }
    ensures range { IfOk result (λ reached. (from ≤ reached) × (reached ≤ base + span level)) }
    ensures damaged { IsHonest io.new → IfDamaged result (OfEither
        (IsDamagedNode (IsSeen (disk_of io.old).seen) (disk_of io.old).size NamesNode level later)
        (IsDamagedNode (IsSeen (disk_of io.old).seen) (disk_of io.old).size NamesNode level earlier)) }
    ensures looks { Looks (io_of io.old) (io_of io.new) (stop_of result) }
{
    if later == earlier {
        return Ok(base + span_of(level));
    }
    if level == 0 || later.is_flat() || earlier.is_flat() {
        return Ok(from);
    }
    load_node(io, level, later)?;
    let node = mem::replace(&mut io.node, Node::new());
    load_node(io, level, earlier)?;
    let part = span_of(level - 1);
    let first = ((from - base) / part) as usize;
    let k = first_apart(&node, &io.node, first);
    let start = base + k as u64 * part;
    if k > first {
        return Ok(start);
    }
    let other = child_at(&io.node, k);
    shared_below(io, level - 1, child_at(&node, k), other, start, from)
}

// The pointer at a lower level from the first index of a tree on; one that stands for all below it
// does so there too.
fn lowered<D: Disk>(io: &mut Io<'_, D>, level: u8, ptr: Ptr, lower: u8) -> Result<Ptr, BlockFault>
    requires lower { lower ≤ level }
    ensures stands { (map : Map) → IsHonest io.new → Subtree (blocks_of io.old) level ptr 0 map → Delivers (λ found. Subtree (blocks_of io.old) lower found 0 map) result }
    ensures below { IsHonest io.new → IfOk result (λ found. IsBelow (IsSeen (disk_of io.old).seen) (disk_of io.old).size NamesNode level ptr (IsSeen (disk_of io.old).seen) lower found) }
    ensures damaged { IsHonest io.new → NamesDamage (IsSeen (disk_of io.old).seen) (disk_of io.old).size NamesNode level ptr result }
    ensures looks { Looks (io_of io.old) (io_of io.new) (stop_of result) }
{
    if level == lower || ptr.is_flat() {
        return Ok(ptr);
    }
    load_node(io, level, ptr)?;
    let first = child_at(&io.node, 0);
    lowered(io, level - 1, first, lower)
}

/// The index up to which at least two trees share all from an index on. The lower tree stands below
/// the first pointers of a taller one.
pub(crate) fn shared_to<D: Disk>(
    io: &mut Io<'_, D>,
    later: &Tree,
    earlier: &Tree,
    index: u64,
) -> Result<u64, BlockFault>
    requires later { later.now.levels ≤ 7 }
    requires earlier { earlier.now.levels ≤ 7 }
    requires index { index < 2 ^ 44 }
    ensures shared { (one other : Map) → IsHonest io.new → TreeIs (blocks_of io.old) later.now one → TreeIs (blocks_of io.old) earlier.now other
        → Delivers (Alike one other index) result }
    ensures range { IfOk result (λ reached. index ≤ reached) }
    ensures damaged { IsHonest io.new → IfDamaged result (OfEither
        (IsDamagedTree (IsSeen (disk_of io.old).seen) (disk_of io.old).size later.now)
        (IsDamagedTree (IsSeen (disk_of io.old).seen) (disk_of io.old).size earlier.now)) }
    ensures looks { Looks (io_of io.old) (io_of io.new) (stop_of result) }
{
    if later == earlier {
        return Ok(TREE_INDEX_BOUND);
    }
    let level = later.levels.min(earlier.levels);
    if index >= span_of(level) {
        return Ok(index);
    }
    let mine = lowered(io, later.levels, later.root, level)?;
    let theirs = lowered(io, earlier.levels, earlier.root, level)?;
    shared_below(io, level, mine, theirs, 0, index)
}
