// A text is read from its leaves.
ghost use Rattle.std.specs.Prelude.{◌≡◌, ◌↔◌, ◌+◌, ◌/◌, ◌<◌, ◌≤◌, ℕ, List, [], All, IsTrue, IfErr, IfOk, OnOk, Vec, length};
ghost use Rattle.zst_block.specs.ReadAnswers.{GivesBlock};
ghost use Rattle.zst_block.specs.IoStates.{IsHonest, blocks_of, disk_of, io_of};
ghost use Rattle.zst_block.specs.IoCalls.{stop_of};
ghost use Rattle.zst_tree.specs.Steps.{LooksAtMost};
ghost use Rattle.zst_leaves.specs.Damage.{Names, TellsBelow, TellsPtr, TellsText};
ghost use Rattle.zst_leaves.specs.Leaves.{Appends, BlocksBefore, GivesText, HasLeaves, LeavesBelow, StandsBefore, TellsNone, blocks_for, bytes_below, leaves_for};
ghost use Rattle.zst_tree.specs.Faults.{fault_of};

use crate::sizes::{is_least, length_of};
use std::alloc::Global;
use std::mem;
use zst_block::{BlockFault, Io, Node, Ptr, load};
use zst_outside::Disk;
use zst_tree::{OrMemory, child_at};

// Whether what a pointer names stands behind sectors 0 to 7, and before this sector.
fn stands_before(ptr: &Ptr, end: u64) -> bool
    ensures { IsTrue result ↔ StandsBefore end ptr.now }
{
    let count = u64::from(ptr.length).div_ceil(512);
    8 <= ptr.sector && ptr.sector <= end && count <= end - ptr.sector
}

// Reads the block that a pointer names, where it has this kind and this level, and stands where
// blocks may.
fn load_named<D: Disk>(io: &mut Io<'_, D>, kind: u8, level: u8, ptr: Ptr) -> Result<(), BlockFault>
    ensures block { IsHonest io.new → OnOk result (BlocksBefore io.old.space.end (disk_of io.old).seen ptr io.new.node) }
    ensures kind { OnOk result (ptr.kind ≡ kind) }
    ensures level { OnOk result (ptr.level ≡ level) }
    ensures there { (bytes : List ℕ) → IsHonest io.new → ptr.kind ≡ kind → ptr.level ≡ level → blocks_of io.old ptr bytes → length bytes ≡ 8192 → GivesBlock bytes io.new.node result }
    ensures damaged { IsHonest io.new → IfErr result (TellsPtr (disk_of io.old).seen (disk_of io.old).size (¬ Names kind level io.old.space.end ptr) ptr) }
    ensures long { OnOk result (length io.new.node ≡ 8192) }
    ensures looks { LooksAtMost 1 (io_of io.old) (io_of io.new) (stop_of result) }
{
    if ptr.kind != kind || ptr.level != level || !stands_before(&ptr, io.space.end()) {
        return Err(BlockFault::of_layout(&ptr));
    }
    load(io, ptr)
}

fn are_zeros(bytes: &[u8]) -> bool
    ensures { IsTrue result ↔ All (λ byte. byte ≡ 0) bytes.now }
{
    bytes.iter().all(|byte| *byte == 0)
}

// Appends so many bytes of the leaf that a pointer names. What stands behind them must be zeros.
fn read_leaf<D: Disk>(
    io: &mut Io<'_, D>,
    text: &mut Vec<u8>,
    ptr: Ptr,
    count: u64,
) -> Result<(), OrMemory<BlockFault>>
    requires some { 0 < count }
    requires room { count ≤ 8192 }
    ensures there { (leaf : List ℕ) → IsHonest io.new → LeavesBelow (blocks_of io.old) 0 ptr leaf → length leaf ≡ count → TellsNone result }
    ensures only { IsHonest io.new → OnOk result (Appends (BlocksBefore io.old.space.end (disk_of io.old).seen) 0 ptr count text.old.items text.new.items) }
    ensures damaged { IsHonest io.new → TellsBelow io.old.space.end (disk_of io.old).seen (disk_of io.old).size 0 ptr count result }
    ensures long { OnOk result (length text.new.items ≡ length text.old.items + count) }
    ensures looks { LooksAtMost 1 (io_of io.old) (io_of io.new) (fault_of result) }
{
    load_named(io, 1, 0, ptr)?;
    let (front, rest) = io.node.as_slice().split_at(count as usize);
    if !are_zeros(rest) {
        return Err(OrMemory::Fault(BlockFault::of_layout(&ptr)));
    }
    text.extend_from_slice(front)?;
    Ok(())
}

// Appends so many bytes from the leaves below a pointer at a level. Without any it must be a hole.
fn read_below<D: Disk>(
    io: &mut Io<'_, D>,
    text: &mut Vec<u8>,
    level: u8,
    ptr: Ptr,
    count: u64,
) -> Result<(), OrMemory<BlockFault>>
    requires level { level ≤ 3 }
    requires room { count ≤ bytes_below level }
    ensures there { (leaves : List ℕ) → IsHonest io.new → LeavesBelow (blocks_of io.old) level ptr leaves → length leaves ≡ count → TellsNone result }
    ensures only { IsHonest io.new → OnOk result (Appends (BlocksBefore io.old.space.end (disk_of io.old).seen) level ptr count text.old.items text.new.items) }
    ensures damaged { IsHonest io.new → TellsBelow io.old.space.end (disk_of io.old).seen (disk_of io.old).size level ptr count result }
    ensures long { OnOk result (length text.new.items ≡ length text.old.items + count) }
    ensures looks { LooksAtMost (blocks_for level count) (io_of io.old) (io_of io.new) (fault_of result) }
{
    if count == 0 {
        return if ptr == Ptr::hole(0) {
            Ok(())
        } else {
            Err(OrMemory::Fault(BlockFault::of_layout(&ptr)))
        };
    }
    if level == 0 {
        return read_leaf(io, text, ptr, count);
    }
    load_named(io, 3, level, ptr)?;
    let node = mem::replace(&mut io.node, Node::new());
    for k in 0..128 {
        let child = child_at(&node, k);
        read_below(io, text, level - 1, child, length_of(count, level - 1, k))?;
    }
    Ok(())
}

/// Reads a text of so many bytes from the leaves below the root of a tree.
///
/// What isn't as `write_leaves` writes it is damaged, with both sums alike: the levels, a pointer's
/// kind, level or length, a hole, a place in sectors 0 to 7 or behind the end, or what stands behind
/// the text in the last leaf.
pub fn read_leaves<D: Disk>(
    io: &mut Io<'_, D>,
    alloc: Global,
    levels: u8,
    root: Ptr,
    count: u64,
) -> Result<Vec<u8>, OrMemory<BlockFault>>
    // A text that is there is read, unless the disk or the memory fails, and what is read is there.
    // What is damaged is a block to which the root leads: with other sums, or of a pointer that is wrong.
    ensures there { (text : List ℕ) → IsHonest io.new → HasLeaves (blocks_of io.old) levels root text → length text ≡ count → GivesText text (λ read. read.items) result }
    ensures only { IsHonest io.new → IfOk result (λ text. HasLeaves (BlocksBefore io.old.space.end (disk_of io.old).seen) levels root text.items) }
    ensures stands { IsHonest io.new → io.old.space.free ≡ [] → IfOk result (λ text. HasLeaves (blocks_of io.old) levels root text.items) }
    ensures long { IfOk result (λ text. length text.items ≡ count) }
    ensures damaged { IsHonest io.new → TellsText io.old.space.end (disk_of io.old).seen (disk_of io.old).size levels root count result }

    // It only reads, each block once.
    ensures looks { LooksAtMost (leaves_for count + leaves_for count / 127 + 3) (io_of io.old) (io_of io.new) (fault_of result) }
{
    if !is_least(levels, count) {
        return Err(OrMemory::Fault(BlockFault::of_layout(&root)));
    }
    let mut text = Vec::new(alloc);
    read_below(io, &mut text, levels, root, count)?;
    Ok(text)
}
