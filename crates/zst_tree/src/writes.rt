// What changes a tree: it grows, and a range gets one leaf. The tree is changed last, so a refusal
// leaves it.
ghost use Rattle.std.specs.Prelude.{◌≡◌, ◌⊎◌, ◌+◌, ◌-◌, ◌*◌, ◌^◌, ◌<◌, ◌≤◌, ℕ, List, true, false, OnErr, OnOk, IfOk};
ghost use Rattle.zst_block.specs.Ptr.{hole_of, redacted_of, is_flat, is_lawful};
ghost use Rattle.zst_block.specs.IoStates.{IsHonest, blocks_of, disk_of, io_of, IsSparedBy};
ghost use Rattle.zst_block.specs.IoCalls.{Works, stop_of};
ghost use Rattle.zst_block.specs.declared.ptr.Ptr.{Ptr};
ghost use Rattle.zst_tree.specs.Damage.{IsWithin, NamesDamage, NamesNode};
ghost use Rattle.zst_tree.specs.Indices.{Map, span, Subtree, Changed, Delivers, Stands, TreeIs};
ghost use Rattle.zst_tree.specs.Changes.{IsPutRoot, TreeDatedUpTo, most};
ghost use Rattle.zst_tree.specs.RangeChanges.{PutsRange};

use crate::puts::{close, fill, put_child, put_in};
use crate::spans::{TREE_INDEX_BOUND, span_of};
use crate::tree::Tree;
use zst_block::{BlockFault, Io, Ptr};
use zst_outside::Disk;

// A tree one level taller: its first child is the old root, and the others are holes.
fn raise<D: Disk>(io: &mut Io<'_, D>, tree: Tree) -> Result<Tree, BlockFault>
    requires levels { tree.levels < 7 }
    ensures raised { (whole : Map) → Stands (blocks_of io.old) tree whole → Delivers (λ taller. Stands (blocks_of io.new) taller whole) result }
    ensures taller { IfOk result (λ taller. taller.levels ≡ tree.levels + 1) }
    ensures within { (leaf : Ptr) → IfOk result (λ taller. IsWithin (IsSparedBy io.old) (disk_of io.old).size tree.levels tree.root leaf (IsSparedBy io.new) taller.levels taller.root) }
    ensures never_damaged { (sector : ℕ) (stated found : List ℕ) → ¬ (result ≡ Err (BlockFault.Damaged sector stated found)) }
    ensures names { IfOk result (λ taller. NamesNode taller.levels taller.root) }
    ensures works { Works 16 16 (io_of io.old) (io_of io.new) (stop_of result) }
{
    fill(&mut io.node, 0, 128, &Ptr::hole(tree.past));
    put_child(&mut io.node, 0, &tree.root);
    let root = close(io, tree.levels + 1)?;
    Ok(Tree {
        levels: tree.levels + 1,
        past: tree.past,
        root,
    })
}

// Whether a tree of so many levels has so many indices.
fn is_enough(levels: u8, need: u64) -> bool
    requires levels { levels ≤ 7 }
    requires need { need ≤ 2 ^ 44 }
    ensures enough { result ≡ true → need ≤ span levels }
    ensures short { result ≡ false → levels < 7 }
{
    need <= span_of(levels)
}

// Grows a tree until it has so many indices.
pub(crate) fn grow_to<D: Disk>(
    io: &mut Io<'_, D>,
    tree: Tree,
    need: u64,
) -> Result<Tree, BlockFault>
    requires levels { tree.levels ≤ 7 }
    requires need { need ≤ 2 ^ 44 }
    ensures grown { (whole : Map) → Stands (blocks_of io.old) tree whole → Delivers (λ grown. Stands (blocks_of io.new) grown whole) result }
    ensures size { IfOk result (λ grown. (need ≤ span grown.levels) × (grown.levels ≤ 7) × (tree.levels ≤ grown.levels)) }
    ensures within { (leaf : Ptr) → IfOk result (λ grown. IsWithin (IsSparedBy io.old) (disk_of io.old).size tree.levels tree.root leaf (IsSparedBy io.new) grown.levels grown.root) }
    ensures never_damaged { (sector : ℕ) (stated found : List ℕ) → ¬ (result ≡ Err (BlockFault.Damaged sector stated found)) }
    ensures root { IfOk result (λ grown. ((grown.levels ≡ tree.levels) × (grown.root ≡ tree.root)) ⊎ ((0 < grown.levels) × NamesNode grown.levels grown.root)) }
    ensures works { Works (16 * (7 - tree.levels)) 16 (io_of io.old) (io_of io.new) (stop_of result) }
{
    if is_enough(tree.levels, need) {
        return Ok(tree);
    }
    let taller = raise(io, tree)?;
    grow_to(io, taller, need)
}

// Gives a leaf to the indices of a range.
fn put_range<D: Disk>(
    tree: &mut Tree,
    io: &mut Io<'_, D>,
    first: u64,
    below: u64,
    leaf: Ptr,
) -> Result<(), BlockFault>
    requires levels { tree.old.levels ≤ 7 }
    requires some { first < below }
    requires below { below ≤ 2 ^ 44 }
    requires leaf { (is_flat leaf ≡ true) ⊎ (below ≡ first + 1) }
    requires lawful { is_lawful leaf ≡ true }
    ensures changes { PutsRange io.old io.new tree.old tree.new first below leaf 320 result }
    ensures dated { (bound : ℕ) (map : Map) → IsHonest io.new → TreeIs (blocks_of io.old) tree.old map → TreeDatedUpTo bound tree.old → leaf.number ≤ bound → OnOk result (TreeDatedUpTo bound tree.new) }
    ensures one { below ≡ first + 1 → Works 224 16 (io_of io.old) (io_of io.new) (stop_of result) }
{
    let grown = grow_to(io, *tree, below)?;
    let root = put_in(io, grown.levels, grown.root, first, below, leaf)?;
    *tree = Tree { root, ..grown };
    Ok(())
}

// Makes each index from one on a hole.
fn punch_on<D: Disk>(
    tree: &mut Tree,
    io: &mut Io<'_, D>,
    first: u64,
    number: u64,
) -> Result<(), BlockFault>
    requires levels { tree.old.levels ≤ 7 }
    requires first { first < 2 ^ 44 }
    ensures changes { PutsRange io.old io.new tree.old tree.new first (2 ^ 44) (hole_of number) 320 result }
    ensures dated { (bound : ℕ) (map : Map) → IsHonest io.new → TreeIs (blocks_of io.old) tree.old map → TreeDatedUpTo bound tree.old → number ≤ bound → OnOk result (TreeDatedUpTo bound tree.new) }
{
    let grown = grow_to(io, *tree, first)?;
    let root = punch_end(io, grown.levels, grown.root, first, number)?;
    *tree = Tree {
        levels: grown.levels,
        past: number,
        root,
    };
    Ok(())
}

// Makes each offset below a root from one on a hole.
fn punch_end<D: Disk>(
    io: &mut Io<'_, D>,
    levels: u8,
    root: Ptr,
    first: u64,
    number: u64,
) -> Result<Ptr, BlockFault>
    requires levels { levels ≤ 7 }
    requires first { first ≤ span levels }
    ensures puts { (map put : Map) → IsHonest io.new → Subtree (blocks_of io.old) levels root 0 map → Changed map put 0 first (span levels) (span levels) (hole_of number) → Delivers (λ made. Subtree (blocks_of io.new) levels made 0 put) result }
    ensures damaged { IsHonest io.new → NamesDamage (IsSparedBy io.old) (disk_of io.old).size NamesNode levels root result }
    ensures root { IfOk result (λ made. (made ≡ root) ⊎ IsPutRoot levels (hole_of number) made) }
    ensures within { IsHonest io.new → IfOk result (IsWithin (IsSparedBy io.old) (disk_of io.old).size levels root (hole_of number) (IsSparedBy io.new) levels) }
    ensures works { Works (16 * most levels first (span levels)) 16 (io_of io.old) (io_of io.new) (stop_of result) }
{
    let span = span_of(levels);
    if first == span {
        return Ok(root);
    }
    put_in(io, levels, root, first, span, Ptr::hole(number))
}

impl Tree {
    /// Gives an index a leaf, whose number is its date.
    ///
    /// After a refusal the tree is as it was.
    pub fn set<D: Disk>(
        &mut self,
        io: &mut Io<'_, D>,
        index: u64,
        leaf: Ptr,
    ) -> Result<(), BlockFault>
        requires levels { self.old.levels ≤ 7 }
        requires index { index < 2 ^ 44 }
        requires lawful { is_lawful leaf ≡ true }
        // The tree has the leaf at the index, and is else the same.
        ensures changes { PutsRange io.old io.new self.old self.new index (index + 1) leaf 224 result }
        ensures dated { (bound : ℕ) (map : Map) → IsHonest io.new → TreeIs (blocks_of io.old) self.old map → TreeDatedUpTo bound self.old → leaf.number ≤ bound → OnOk result (TreeDatedUpTo bound self.new) }
    {
        put_range(self, io, index, index + 1, leaf)
    }

    /// Makes the indices of a range holes, with this number as their date.
    ///
    /// After a refusal the tree is as it was.
    pub fn punch<D: Disk>(
        &mut self,
        io: &mut Io<'_, D>,
        first: u64,
        count: u64,
        number: u64,
    ) -> Result<(), BlockFault>
        requires levels { self.old.levels ≤ 7 }
        requires range { first + count ≤ 2 ^ 44 }
        // The tree has holes in the range, and is else the same.
        ensures changes { PutsRange io.old io.new self.old self.new first (first + count) (hole_of number) 320 result }
        ensures dated { (bound : ℕ) (map : Map) → IsHonest io.new → TreeIs (blocks_of io.old) self.old map → TreeDatedUpTo bound self.old → (0 < count → number ≤ bound) → OnOk result (TreeDatedUpTo bound self.new) }
    {
        if count == 0 {
            return Ok(());
        }
        if first + count == TREE_INDEX_BOUND {
            return punch_on(self, io, first, number);
        }
        put_range(self, io, first, first + count, Ptr::hole(number))
    }

    /// Makes the indices of a range redacted, with this number as their date.
    ///
    /// After a refusal the tree is as it was.
    pub fn redact<D: Disk>(
        &mut self,
        io: &mut Io<'_, D>,
        first: u64,
        count: u64,
        number: u64,
    ) -> Result<(), BlockFault>
        requires levels { self.old.levels ≤ 7 }
        requires range { first + count ≤ 2 ^ 44 }
        // The tree is redacted in the range, and is else the same.
        ensures changes { PutsRange io.old io.new self.old self.new first (first + count) (redacted_of number) 320 result }
        ensures dated { (bound : ℕ) (map : Map) → IsHonest io.new → TreeIs (blocks_of io.old) self.old map → TreeDatedUpTo bound self.old → (0 < count → number ≤ bound) → OnOk result (TreeDatedUpTo bound self.new) }
    {
        if count == 0 {
            return Ok(());
        }
        put_range(self, io, first, first + count, Ptr::redacted(number))
    }
}
