// The nodes of a tree, as its walks read them.
ghost use Rattle.std.specs.Prelude.{◌≡◌, ◌↔◌, ◌+◌, ◌-◌, ◌<◌, ◌≤◌, ℕ, List, false, IsTrue, OnOk, length};
ghost use Rattle.zst_block.specs.Blocks.{IsBlock};
ghost use Rattle.zst_block.specs.IoStates.{IsHonest, blocks_of, disk_of, io_of};
ghost use Rattle.zst_block.specs.Ptr.{is_flat};
ghost use Rattle.zst_block.specs.ReadAnswers.{GivesBlock};
ghost use Rattle.zst_block.specs.IoCalls.{TellsDamage, stop_of};
ghost use Rattle.zst_tree.specs.Changes.{Parts};
ghost use Rattle.zst_tree.specs.Damage.{IsSeen, NamesDamage, NamesNode};
ghost use Rattle.zst_tree.specs.Indices.{Delivers, IsNode, Map, Subtree, child};
ghost use Rattle.zst_tree.specs.Steps.{LooksAtMost, LooksInSteps};

use crate::steps::{Steps, tick};
use std::sync::ledger::Ledger;
use zst_block::{BlockFault, Io, Node, Ptr, load};
use zst_outside::Disk;

/// One of the 128 pointers of a node.
#[tactic(auto, unfolding(crate::specs::Indices::child))]
pub fn child_at(node: &Node, k: usize) -> Ptr
    requires { k < 128 }
    ensures child { result ≡ child node.now k }
    ensures long { length node.now ≡ 8192 }
{
    node.child(k)
}

/// Reads the node that a pointer at a level names. One whose pointer has another kind, level or
/// length is damaged, with both sums alike.
pub fn load_node<D: Disk>(io: &mut Io<'_, D>, level: u8, ptr: Ptr) -> Result<(), BlockFault>
    ensures block { IsHonest io.new → OnOk result (IsBlock (disk_of io.old).seen ptr io.new.node) }
    ensures there { (bytes : List ℕ) → IsHonest io.new → IsNode (blocks_of io.old) level ptr bytes → GivesBlock bytes io.new.node result }
    ensures parts { (base : ℕ) (map : Map) → 0 < level → is_flat ptr ≡ false → IsHonest io.new → Subtree (blocks_of io.old) level ptr base map
        → Delivers (λ done. Parts (blocks_of io.new) (level - 1) io.new.node base map) result }
    ensures damaged { IsHonest io.new → TellsDamage (disk_of io.old).seen (disk_of io.old).size ptr result }
    ensures names { 0 < level → is_flat ptr ≡ false → IsHonest io.new → NamesDamage (IsSeen (disk_of io.old).seen) (disk_of io.old).size NamesNode level ptr result }
    ensures long { OnOk result (length io.new.node ≡ 8192) }
    ensures looks { LooksAtMost 1 (io_of io.old) (io_of io.new) (stop_of result) }
{
    if !is_node(level, &ptr) {
        return Err(BlockFault::of_layout(&ptr));
    }
    load(io, ptr)
}

// Whether a pointer names a node of a level.
fn is_node(level: u8, ptr: &Ptr) -> bool
    ensures { IsTrue result ↔ NamesNode level ptr.now }
{
    (ptr.kind == 3 || ptr.kind == 4) && ptr.level == level && ptr.length == 8192
}

// Reads a node, as one step.
pub(crate) fn load_counted<D: Disk, L: Ledger>(
    io: &mut Io<'_, D>,
    level: u8,
    ptr: Ptr,
    steps: &mut Steps<L>,
) -> Result<(), BlockFault>
    ensures block { IsHonest io.new → OnOk result (IsBlock (disk_of io.old).seen ptr io.new.node) }
    ensures there { (bytes : List ℕ) → IsHonest io.new → IsNode (blocks_of io.old) level ptr bytes → GivesBlock bytes io.new.node result }
    ensures parts { (base : ℕ) (map : Map) → 0 < level → is_flat ptr ≡ false → IsHonest io.new → Subtree (blocks_of io.old) level ptr base map
        → Delivers (λ done. Parts (blocks_of io.new) (level - 1) io.new.node base map) result }
    ensures damaged { IsHonest io.new → TellsDamage (disk_of io.old).seen (disk_of io.old).size ptr result }
    ensures names { 0 < level → is_flat ptr ≡ false → IsHonest io.new → NamesDamage (IsSeen (disk_of io.old).seen) (disk_of io.old).size NamesNode level ptr result }
    ensures long { OnOk result (length io.new.node ≡ 8192) }
    ensures looks { LooksInSteps 1 (io_of io.old) (io_of io.new) (stop_of result) steps.old steps.new }
    ensures steps { steps.new ≡ steps.old + 1 }
{
    tick(steps);
    load_node(io, level, ptr)
}
