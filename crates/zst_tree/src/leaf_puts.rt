//! Leaves of indices that stand below one node, put at once on a copy of the path to it.
ghost use Rattle.std.specs.Prelude.{◌≡◌, ◌+◌, ◌-◌, ◌*◌, ◌<◌, ◌≤◌, ℕ, List, All, IfOk, OnOk};
ghost use Rattle.zst_space.specs.FreeSectors.{FreeSectors};
ghost use Rattle.zst_block.specs.Blocks.{Has};
ghost use Rattle.zst_block.specs.IoStates.{IsHonest, blocks_of, disk_of, io_of, IsSparedBy};
ghost use Rattle.zst_block.specs.IoCalls.{Works, stop_of};
ghost use Rattle.zst_tree.specs.Damage.{IsSummedBelow, NamesDamage, NamesNode};
ghost use Rattle.zst_tree.specs.Indices.{Delivers, Map, Subtree, span};
ghost use Rattle.zst_tree.specs.Changes.{Parts};
ghost use Rattle.zst_tree.specs.Leaves.{IsOf, with_leaves};

use crate::nodes::child_at;
use crate::puts::{close, mend_one, open, put_child};
use crate::spans::place_of;
use crate::tree::Tree;
use crate::writes::grow_to;
use zst_block::{BlockFault, Io, Node, Ptr};
use zst_outside::Disk;

/// A pointer that an index is to have.
#[derive(Clone, Copy, Debug, PartialEq, Eq)]
pub struct Leaf {
    pub index: u64,
    pub ptr: Ptr,
}

// Puts leaves at their places in the node above them.
fn put_each(node: &mut Node, leaves: &[Leaf])
    ensures parts { (image : List ℕ) (space : FreeSectors) (group : ℕ) (map : Map) → All (IsOf group) leaves.now → Parts (Has image space) 0 node.old (128 * group) map
        → Parts (Has image space) 0 node.new (128 * group) (with_leaves map leaves.now) }
{
    for leaf in leaves {
        put_child(node, (leaf.index % 128) as usize, &leaf.ptr);
    }
}

// Gives their leaves to indices below a pointer that stand below one node of level 1, the one of this number, and gives the
// pointer to what is then there.
fn put_leaves<D: Disk>(
    io: &mut Io<'_, D>,
    level: u8,
    ptr: Ptr,
    part: u64,
    leaves: &[Leaf],
) -> Result<Ptr, BlockFault>
    requires level { level ≤ 7 }
    requires inner { 0 < level }
    requires part { part < span (level - 1) }
    ensures put { (group base : ℕ) (map : Map) → IsHonest io.new → base + 128 * part ≡ 128 * group → All (IsOf group) leaves.now
        → Subtree (blocks_of io.old) level ptr base map
        → Delivers (λ made. Subtree (blocks_of io.new) level made base (with_leaves map leaves.now)) result }
    ensures damaged { IsHonest io.new → NamesDamage (IsSparedBy io.old) (disk_of io.old).size NamesNode level ptr result }
    ensures names { IfOk result (NamesNode level) }
    ensures sums { IsHonest io.new → IfOk result (IsSummedBelow (IsSparedBy io.old) (disk_of io.old).size level ptr (IsSparedBy io.new) level) }
    ensures works { Works (16 * level) 16 (io_of io.old) (io_of io.new) (stop_of result) }
{
    if level == 1 {
        open(io, level, ptr)?;
        put_each(&mut io.node, leaves);
        return close(io, level);
    }
    let place = place_of(level - 1, part);
    open(io, level, ptr)?;
    let low = child_at(&io.node, place.child);
    let made = put_leaves(io, level - 1, low, place.rest, leaves)?;
    mend_one(io, level, ptr, place.child, made)
}

impl Tree {
    ghost use Rattle.std.specs.Prelude.{◌≡◌, ◌+◌, ◌*◌, ◌^◌, ◌<◌, ◌≤◌, ℕ, All, OnErr, OnOk};
    ghost use Rattle.zst_block.specs.IoCalls.{Works, stop_of};
    ghost use Rattle.zst_tree.specs.Changes.{TreeDatedUpTo};
    ghost use Rattle.zst_tree.specs.Damage.{IsSummedBelow, NamesDamage, NamesNode};
    ghost use Rattle.zst_tree.specs.Indices.{Delivers, Map, TreeIs};
    ghost use Rattle.zst_tree.specs.Leaves.{IsOf, with_leaves};

    /// Gives indices that stand below one node their leaves, whose numbers are their dates: those of the 128 indices from
    /// `128 * group` on.
    ///
    /// After a refusal the tree is as it was.
    pub fn set_all<D: Disk>(
        &mut self,
        io: &mut Io<'_, D>,
        group: u64,
        leaves: &[Leaf],
    ) -> Result<(), BlockFault>
        requires levels { self.old.levels ≤ 7 }
        requires group { 128 * group + 128 ≤ 2 ^ 44 }
        requires leaves { All (IsOf group) leaves.now }
        // The tree that held a map holds it with these leaves.
        ensures holds { (map : Map) → IsHonest io.new → TreeIs (blocks_of io.old) self.old map
            → Delivers (λ done. TreeIs (blocks_of io.new) self.new (with_leaves map leaves.now)) result }
        // Damage is told of a node below the root alone.
        ensures damaged { IsHonest io.new → NamesDamage (IsSparedBy io.old) (disk_of io.old).size NamesNode self.old.levels self.old.root result }
        // And afterwards no more may be, of a node that has to sum up what stands below it.
        ensures sums { IsHonest io.new → OnOk result (IsSummedBelow (IsSparedBy io.old) (disk_of io.old).size self.old.levels self.old.root (IsSparedBy io.new) self.new.levels self.new.root) }
        ensures kept { OnErr result (self.new ≡ self.old) }
        ensures levels { self.new.levels ≤ 7 }
        ensures root { OnOk result ((0 < self.new.levels) × NamesNode self.new.levels self.new.root) }
        ensures dated { (bound : ℕ) (map : Map) → IsHonest io.new → TreeIs (blocks_of io.old) self.old map → TreeDatedUpTo bound self.old
            → All (λ leaf. leaf.ptr.number ≤ bound) leaves.now → OnOk result (TreeDatedUpTo bound self.new) }
        ensures works { Works 224 16 (io_of io.old) (io_of io.new) (stop_of result) }
    {
        let grown = grow_to(io, *self, 128 * group + 128)?;
        let root = put_leaves(io, grown.levels, grown.root, group, leaves)?;
        *self = Tree { root, ..grown };
        Ok(())
    }
}
