//! The calls that write blocks of an object.
ghost use Rattle.std.specs.Prelude.{true, false, ℕ, List, ◌*◌, ◌≡◌, ◌+◌, ◌/◌, ◌<◌, ◌≤◌, ◌^◌, ◌&&◌, not, nat_lt, IfErr, IfOk, None, OnOk, length};
ghost use Rattle.zst_block.specs.IoStates.{IsHonest, blocks_of, disk_of, io_of, IsSparedBy};
ghost use Rattle.zst_block.specs.IoCalls.{Works, stop_of as block_stop};
ghost use Rattle.zst_model.specs.declared.refusals.faults.Quantity.TheVariants as quantities;
ghost use Rattle.zst_model.specs.states.State.{index_bound, is_block_size, is_odd_size};
ghost use Rattle.zst_tree.specs.Changes.{TreeDatedUpTo};
ghost use Rattle.zst_tree.specs.Damage.{IsSummedBelow, NamesDamage, NamesNode};
ghost use Rattle.zst_tree.specs.Indices.{Delivers, Map, TreeIs};
ghost use Rattle.zst_tree.specs.Sets.{SetFits};
ghost use Rattle.zst_objset.specs.BlockRuns.{AreSoFar, IsBlockRun, IsWholeBlock, PutsBlocks, blocks_written};
ghost use Rattle.zst_objset.specs.Answers.{stop_of, LimitOnly, NotLimit, NotRedacted};
ghost use Rattle.zst_objset.specs.Changes.{block_written};
ghost use Rattle.zst_objset.specs.Damage.{AreTreesWithin, IsDamagedObject};
ghost use Rattle.zst_objset.specs.BlockWrites.{PutsData, PutsDataRoot, write_judged};
ghost use Rattle.zst_objset.specs.SetChanges.{ChangesTightSet, SetHas, SetHasTight};

use crate::answers::object_there;
use crate::changes::{put_there, with_tree};
use crate::fault::ObjFault;
use crate::trees::tree_of;
use zst_block::{BlockFault, Io, Ptr, write};
use zst_dnode::Dnode;
use zst_laws::applied_is_state;
use zst_model::limits::INDEX_BOUND;
use zst_model::{ApplyFault, Quantity};
use zst_outside::Disk;
use zst_tree::{Leaf, ObjSet, Tree};

// Whether an object with blocks of this size may have one at an index.
fn may_have_block(size: u32, index: u64) -> bool
    ensures { result ≡ not (is_odd_size size && nat_lt 0 index) }
{
    index == 0 || size.is_power_of_two()
}

// Whether an object may be written so many bytes at an index. The limit is judged last.
#[tactic(auto, unfolding(zst_model::specs::states::State::index_bound))]
fn judge_write(dnode: &Dnode, index: u64, count: usize) -> Result<(), ObjFault>
    ensures judged { result ≡ write_judged dnode.now.block_size index count }
    ensures index { OnOk result (index < 2 ^ 43) }
    ensures limits { IfErr result (LimitOnly quantities.Block index_bound (index + 1)) }
    ensures unredacted { IfErr result NotRedacted }
    ensures stop { stop_of result ≡ None }
{
    if count != dnode.block_size as usize {
        return Err(ObjFault::CannotApply(ApplyFault::SizeDiffers));
    }
    if !may_have_block(dnode.block_size, index) {
        return Err(ObjFault::CannotApply(ApplyFault::OddBlock));
    }
    if index >= INDEX_BOUND {
        return Err(ObjFault::Limit {
            which: Quantity::Block,
            number: INDEX_BOUND,
        });
    }
    Ok(())
}

// Writes the data of an index, and gives the tree that has it there.
fn put_data<D: Disk>(
    io: &mut Io<'_, D>,
    tree: Tree,
    index: u64,
    bytes: &[u8],
    number: u64,
) -> Result<Tree, BlockFault>
    requires levels { tree.levels ≤ 7 }
    requires index { index < 2 ^ 44 }
    requires block { IsWholeBlock (length bytes.now) }
    ensures puts { (map : Map) → IsHonest io.new → TreeIs (blocks_of io.old) tree map
        → Delivers (PutsData (blocks_of io.new) map index bytes.now number) result }
    ensures dated { (map : Map) → IsHonest io.new → TreeIs (blocks_of io.old) tree map → TreeDatedUpTo number tree → IfOk result (TreeDatedUpTo number) }
    ensures levels { IfOk result (λ made. made.levels ≤ 7) }
    ensures root { IfOk result (PutsDataRoot tree (length bytes.now)) }
    ensures damaged { IsHonest io.new → NamesDamage (IsSparedBy io.old) (disk_of io.old).size NamesNode tree.levels tree.root result }
    ensures trees { IsHonest io.new → IfOk result (λ made. IsSummedBelow (IsSparedBy io.old) (disk_of io.old).size tree.levels tree.root (IsSparedBy io.new) made.levels made.root) }
    ensures works { Works (length bytes.now / 512 + 224) (length bytes.now / 512) (io_of io.old) (io_of io.new) (block_stop result) }
{
    let block = write(io, bytes, 0, number)?;
    let mut made = tree;
    made.set(io, index, block)?;
    Ok(made)
}

/// Writes the whole block of one index.
pub(crate) fn write_block<D: Disk>(
    set: &mut ObjSet,
    io: &mut Io<'_, D>,
    object: u64,
    index: u64,
    bytes: &[u8],
    number: u64,
) -> Result<(), ObjFault>
    requires object { 0 < object }
    ensures changes { ChangesTightSet SetHas SetHasTight SetFits number (block_written number object index bytes.now) (LimitOnly quantities.Block index_bound (index + 1))
        (IsDamagedObject (IsSparedBy io.old) (disk_of io.old).size NamesNode set.old) (640 + length bytes.now / 512) (length bytes.now / 512) (io_of io.old) (io_of io.new) set.old set.new result }
    ensures trees { IsHonest io.new → OnOk result (AreTreesWithin (IsSparedBy io.old) (disk_of io.old).size set.old (IsSparedBy io.new) set.new) }
{
    applied_is_state();
    let dnode = match object_there(set, io, object) {
        Ok(dnode) => dnode,
        Err(fault) => return Err(fault),
    };
    if let Err(fault) = judge_write(&dnode, index, bytes.len()) {
        return Err(fault);
    }
    let tree = match put_data(io, tree_of(&dnode), index, bytes, number) {
        Ok(tree) => tree,
        Err(fault) => return Err(ObjFault::Block(fault)),
    };
    let end = dnode.end.max(index + 1);
    put_there(set, io, object, with_tree(dnode, tree, end))
}

// Writes neighbouring blocks of so many bytes, for the indices from one on, and gives the leaves that name them.
fn write_each<D: Disk>(
    io: &mut Io<'_, D>,
    index: u64,
    size: usize,
    bytes: &[u8],
    number: u64,
    into: &mut [Leaf],
) -> Result<(), BlockFault>
    requires block { IsWholeBlock size }
    requires long { length bytes.now ≡ length into.old * size }
    requires index { index + length into.old < 2 ^ 64 }
    ensures written { OnOk result (AreSoFar (blocks_of io.new) number size index bytes.now into.new (length into.old)) }
    ensures long { length into.new ≡ length into.old }
    ensures never_damaged { (sector : ℕ) (stated found : List ℕ) → ¬ (result ≡ Err (BlockFault.Damaged sector stated found)) }
    ensures works { Works (length into.old * (size / 512)) (size / 512) (io_of io.old) (io_of io.new) (block_stop result) }
{
    for k in 0..into.len() {
        let block = &bytes[k * size..(k + 1) * size];
        let ptr = write(io, block, 0, number)?;
        into[k] = Leaf {
            index: index + k as u64,
            ptr,
        };
    }
    Ok(())
}

// Writes neighbouring blocks of so many bytes, one for each of the leaves, and gives the tree that has them at the indices from one on.
fn put_blocks<D: Disk>(
    io: &mut Io<'_, D>,
    tree: Tree,
    index: u64,
    size: usize,
    count: usize,
    bytes: &[u8],
    number: u64,
    leaves: &mut [Leaf],
) -> Result<Tree, BlockFault>
    requires leaves { length leaves.old ≡ count }
    requires levels { tree.levels ≤ 7 }
    requires run { IsBlockRun index size count (length bytes.now) }
    requires block { IsWholeBlock size }
    ensures puts { (map : Map) → IsHonest io.new → TreeIs (blocks_of io.old) tree map
        → Delivers (PutsBlocks (blocks_of io.new) map number size count index bytes.now) result }
    ensures dated { (map : Map) → IsHonest io.new → TreeIs (blocks_of io.old) tree map → TreeDatedUpTo number tree → IfOk result (TreeDatedUpTo number) }
    ensures levels { IfOk result (λ made. made.levels ≤ 7) }
    ensures root { IfOk result (λ made. (0 < made.levels) × NamesNode made.levels made.root) }
    ensures damaged { IsHonest io.new → NamesDamage (IsSparedBy io.old) (disk_of io.old).size NamesNode tree.levels tree.root result }
    ensures trees { IsHonest io.new → IfOk result (λ made. IsSummedBelow (IsSparedBy io.old) (disk_of io.old).size tree.levels tree.root (IsSparedBy io.new) made.levels made.root) }
    ensures works { Works (count * (size / 512) + 224) (size / 512) (io_of io.old) (io_of io.new) (block_stop result) }
{
    write_each(io, index, size, bytes, number, leaves)?;
    let mut made = tree;
    made.set_all(io, index / 128, leaves)?;
    Ok(made)
}

/// Writes neighbouring whole blocks of an object, which stand below one node of its tree, as writes one after another do.
pub fn write_blocks<D: Disk>(
    set: &mut ObjSet,
    io: &mut Io<'_, D>,
    object: u64,
    index: u64,
    size: u32,
    count: usize,
    bytes: &[u8],
    number: u64,
) -> Result<(), ObjFault>
    requires object { 0 < object }
    requires size { is_block_size size ≡ true }
    requires even { is_odd_size size ≡ false }
    requires some { 0 < count }
    requires run { IsBlockRun index size count (length bytes.now) }
    ensures changes { ChangesTightSet SetHas SetHasTight SetFits number (blocks_written number object size count index bytes.now) NotLimit
        (IsDamagedObject (IsSparedBy io.old) (disk_of io.old).size NamesNode set.old) (count * (size / 512) + 464) (size / 512) (io_of io.old) (io_of io.new) set.old set.new result }
    ensures trees { IsHonest io.new → OnOk result (AreTreesWithin (IsSparedBy io.old) (disk_of io.old).size set.old (IsSparedBy io.new) set.new) }
{
    applied_is_state();
    let dnode = match object_there(set, io, object) {
        Ok(dnode) => dnode,
        Err(fault) => return Err(fault),
    };
    if dnode.block_size != size {
        return Err(ObjFault::CannotApply(ApplyFault::SizeDiffers));
    }
    let mut leaves = [Leaf {
        index: 0,
        ptr: Ptr::hole(0),
    }; 128];
    let outcome = put_blocks(
        io,
        tree_of(&dnode),
        index,
        size as usize,
        count,
        bytes,
        number,
        &mut leaves[..count],
    );
    let tree = match outcome {
        Ok(tree) => tree,
        Err(fault) => return Err(ObjFault::Block(fault)),
    };
    let end = dnode.end.max(index + count as u64);
    put_there(set, io, object, with_tree(dnode, tree, end))
}
