// The nodes of a tree, read beside those of one that was walked before.
ghost use Rattle.std.specs.Prelude.{◌≡◌, ◌↔◌, ◌+◌, ◌-◌, ◌*◌, ◌<◌, ℕ, List, false, IfOk, IsTrue, OnOk, length};
ghost use Rattle.zst_block.specs.Blocks.{IsBlock};
ghost use Rattle.zst_block.specs.IoStates.{IsHonest, blocks_of, disk_of, io_of};
ghost use Rattle.zst_block.specs.IoCalls.{Looks, stop_of};
ghost use Rattle.zst_block.specs.Ptr.{is_flat};
ghost use Rattle.zst_block.specs.ReadAnswers.{GivesBlock};
ghost use Rattle.zst_block.specs.declared.ptr.Ptr.{Ptr};
ghost use Rattle.zst_tree.specs.Damage.{IsSeen, NamesDamage, NamesNode};
ghost use Rattle.zst_tree.specs.Indices.{Delivers, span};
ghost use Rattle.zst_reach.specs.Reached.{AreMarked, IsBeside, IsInPlace, ReachesBlock};
ghost use Rattle.zst_reach.specs.ReachedSets.{AreMarkedInTree, StandsAt};

use std::mem;
use zst_block::{BlockFault, Io, Node, Ptr, load};
use zst_outside::Disk;
use zst_tree::child_at;

// Whether a pointer names a node of a level.
fn is_node(level: u8, ptr: &Ptr) -> bool
    ensures { IsTrue result ↔ NamesNode level ptr.now }
{
    (ptr.kind == 3 || ptr.kind == 4) && ptr.level == level && ptr.length == 8192
}

/// Reads the node that a pointer at a level names, of a set, of an object or of a text: no other is asked
/// to sum up what stands below it.
pub fn load_named<D: Disk>(io: &mut Io<'_, D>, level: u8, ptr: Ptr) -> Result<(), BlockFault>
    ensures block { IsHonest io.new → OnOk result (IsBlock (disk_of io.old).seen ptr io.new.node) }
    ensures there { (bytes : List ℕ) → IsHonest io.new → NamesNode level ptr → blocks_of io.old ptr bytes → GivesBlock bytes io.new.node result }
    ensures names { 0 < level → is_flat ptr ≡ false → IsHonest io.new → NamesDamage (IsSeen (disk_of io.old).seen) (disk_of io.old).size NamesNode level ptr result }
    ensures long { OnOk result (length io.new.node ≡ 8192) }
    ensures looks { Looks (io_of io.old) (io_of io.new) (stop_of result) }
{
    if !is_node(level, &ptr) {
        return Err(BlockFault::of_layout(&ptr));
    }
    load(io, ptr)
}

/// Reads the node of a tree that was walked before, where it stands at this level. What can't be read
/// there is passed over, and not counted: it is told and counted where it is walked.
pub fn load_beside<D: Disk>(
    io: &mut Io<'_, D>,
    level: u8,
    known_level: u8,
    ptr: Ptr,
) -> Result<Option<Node>, BlockFault>
    ensures beside { IsHonest io.new → IfOk result (IsBeside (disk_of io.old).seen level known_level ptr) }
    ensures there { Delivers (λ done. Unit {0}) result }
    ensures looks { Looks (io_of io.old) (io_of io.new) (stop_of result) }
{
    if known_level != level || ptr.is_flat() {
        return Ok(None);
    }
    let counted = io.checksum_errors;
    match load_named(io, level, ptr) {
        Ok(()) => Ok(Some(mem::replace(&mut io.node, Node::new()))),
        Err(BlockFault::DiskFault) => Err(BlockFault::DiskFault),
        Err(BlockFault::Damaged { .. } | BlockFault::Full { .. }) => {
            io.checksum_errors = counted;
            Ok(None)
        }
    }
}

/// What stands in the place of a child in a tree that was walked before, and at which level.
pub fn child_beside(
    beside: &Option<Node>,
    level: u8,
    known_level: u8,
    known: Ptr,
    k: usize,
) -> (u8, Ptr)
    requires level { 0 < level }
    requires child { k < 128 }
    ensures marked { (image marks : List ℕ) (end : ℕ) → IsBeside image level known_level known beside.now → AreMarked image end marks known_level known → AreMarked image end marks result.0 result.1 }
    // So it is with the leaves of a set.
    ensures marked_in { (image marks : List ℕ) (end first : ℕ) → IsBeside image level known_level known beside.now → AreMarkedInTree image end marks known_level known first
        → AreMarkedInTree image end marks result.0 result.1 (first + k * span (level - 1)) }
    // Each block and each leaf that is reached below it is reached below the known one.
    ensures below { (image : List ℕ) (found : Ptr) → IsBeside image level known_level known beside.now → ReachesBlock (IsBlock image) result.0 result.1 found → ReachesBlock (IsBlock image) known_level known found }
    ensures leaves { (image : List ℕ) (first index : ℕ) (leaf : Ptr) → IsBeside image level known_level known beside.now → is_flat leaf ≡ false → StandsAt (IsBlock image) result.0 result.1 (first + k * span (level - 1)) index leaf
        → StandsAt (IsBlock image) known_level known first index leaf }
    ensures place { IsInPlace beside.now level known_level known k result.0 result.1 }
{
    if let Some(node) = beside {
        return (level - 1, child_at(node, k));
    }
    if known_level < level && k == 0 {
        return (known_level, known);
    }
    (0, Ptr::hole(0))
}
