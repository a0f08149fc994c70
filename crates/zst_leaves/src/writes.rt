// A text is written into leaves.
ghost use Rattle.std.specs.Prelude.{◌≡◌, ◌+◌, ◌*◌, ◌/◌, ◌^◌, ◌<◌, ◌≤◌, ℕ, List, IfOk, OnOk, length};
ghost use Rattle.zst_space.specs.FreeSectors.{room};
ghost use Rattle.zst_block.specs.IoCalls.{Works, stop_of};
ghost use Rattle.zst_block.specs.IoStates.{blocks_of, disk_of, io_of};
ghost use Rattle.zst_leaves.specs.Leaves.{IsLeaf, IsLeast, IsOver, Laid, LeavesBelow, blocks_for, bytes_below, leaves_for};
ghost use Rattle.zst_leaves.specs.WrittenLeaves.{WritesBlocks, WritesLeaves};
ghost use Rattle.zst_leaves.specs.declared.sizes.TheConstants.{MOST_BYTES};

use crate::sizes::{levels_for, part_of};
use zst_block::{BlockFault, Io, Node, Ptr, save, write};
use zst_bytes::put_bytes;
use zst_outside::Disk;
use zst_tree::{Tree, put_child};

// Writes the last bytes of a text, or as many as a leaf has, as a leaf.
fn write_leaf<D: Disk>(io: &mut Io<'_, D>, bytes: &[u8], number: u64) -> Result<Ptr, BlockFault>
    requires room { length bytes.now ≤ 8192 }
    ensures leaf { IfOk result (λ ptr. IsLeaf (Laid number io.old.space (blocks_of io.new)) ptr bytes.now) }
    ensures written { WritesBlocks 1 (io_of io.old) (io_of io.new) result }
    ensures takes { OnOk result (room io.new.space + 16 ≡ room io.old.space) }
{
    let mut leaf = [0; 8192];
    put_bytes(&mut leaf, 0, bytes);
    write(io, &leaf, 0, number)
}

// Writes the node, of pointers to what has this number, into free sectors.
fn save_over<D: Disk>(io: &mut Io<'_, D>, level: u8, number: u64) -> Result<Ptr, BlockFault>
    ensures over { IfOk result (λ ptr. IsOver (Laid number io.old.space (blocks_of io.new)) level ptr io.old.node) }
    ensures written { WritesBlocks 1 (io_of io.old) (io_of io.new) result }
{
    let ptr = save(io, level, number)?;
    Ok(Ptr { kind: 3, ..ptr })
}

// Writes a text into leaves below a pointer at a level, and gives the pointer: of no text a hole.
fn write_below<D: Disk>(
    io: &mut Io<'_, D>,
    level: u8,
    bytes: &[u8],
    number: u64,
) -> Result<Ptr, BlockFault>
    requires level { level ≤ 3 }
    requires room { length bytes.now ≤ bytes_below level }
    ensures below { IfOk result (λ ptr. LeavesBelow (Laid number io.old.space (blocks_of io.new)) level ptr bytes.now) }
    ensures written { WritesBlocks (blocks_for level (length bytes.now)) (io_of io.old) (io_of io.new) result }
    ensures one_leaf { level ≡ 0 → 0 < length bytes.now → OnOk result (room io.new.space + 16 ≡ room io.old.space) }
{
    if bytes.is_empty() {
        return Ok(Ptr::hole(0));
    }
    if level == 0 {
        return write_leaf(io, bytes, number);
    }
    let mut node = Node::new();
    for k in 0..128 {
        let child = write_below(io, level - 1, part_of(bytes, level - 1, k), number)?;
        put_child(&mut node, k, &child);
    }
    io.node = node;
    save_over(io, level, number)
}

/// Writes a text into leaves of 8,192 bytes, the last filled with zeros, below the root of a tree
/// of as few levels as have room for it. Behind the last leaf stand holes of the date 0.
pub fn write_leaves<D: Disk>(
    io: &mut Io<'_, D>,
    bytes: &[u8],
    number: u64,
) -> Result<Tree, BlockFault>
    requires some { 0 < length bytes.now }
    requires small { length bytes.now ≤ MOST_BYTES }

    // The text stands there, by pointers with the number, in sectors that were free. Taken are so many blocks in turn.
    ensures written { IfOk result (WritesLeaves number (blocks_of io.new) bytes.now io.old.space io.new.space) }

    // Free sectors alone are written: 16 for each leaf and for each node above.
    ensures works { Works (16 * (leaves_for (length bytes.now) + leaves_for (length bytes.now) / 127 + 3)) 16 (io_of io.old) (io_of io.new) (stop_of result) }
    ensures two_levels { length bytes.now ≤ 8192 * 128 ^ 2 → Works (16 * (leaves_for (length bytes.now) + leaves_for (length bytes.now) / 128 + 3)) 16 (io_of io.old) (io_of io.new) (stop_of result) }
    // By the levels that have room for the text, no more blocks than it has are written.
    ensures exact { (levels : ℕ) → IsLeast levels (length bytes.now) → Works (16 * blocks_for levels (length bytes.now)) 16 (io_of io.old) (io_of io.new) (stop_of result) }
    ensures one_leaf { length bytes.now ≤ 8192 → OnOk result (room io.new.space + 16 ≡ room io.old.space) }
    ensures never_damaged { (sector : ℕ) (stated found : List ℕ) → ¬ (result ≡ Err (BlockFault.Damaged sector stated found)) }
    ensures calls { (disk_of io.new).calls ≤ (disk_of io.old).calls + (leaves_for (length bytes.now) + leaves_for (length bytes.now) / 127 + 3) }
{
    let levels = levels_for(bytes.len() as u64);
    let root = write_below(io, levels, bytes, number)?;
    Ok(Tree {
        levels,
        past: 0,
        root,
    })
}
