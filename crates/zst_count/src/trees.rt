// The blocks of a tree are met, and its data read, beside a tree that was walked before.
ghost use Rattle.std.specs.Prelude.{◌≡◌, ◌⊎◌, ◌<◌, ◌≤◌, ℕ, List, IfSome, OnOk, Some};
ghost use Rattle.zst_block.specs.Blocks.{IsBlock};
ghost use Rattle.zst_block.specs.IoStates.{IsHonest, blocks_of, disk_of, io_of};
ghost use Rattle.zst_block.specs.IoCalls.{Looks, stop_of};
ghost use Rattle.zst_leaves.specs.Leaves.{HasLeaves};
ghost use Rattle.zst_marks.specs.Marks.{IsMarked};
ghost use Rattle.zst_objset.specs.Damage.{IfDamaged};
ghost use Rattle.zst_tree.specs.Damage.{IsSeen};
ghost use Rattle.zst_tree.specs.Indices.{Delivers};
ghost use Rattle.zst_count.specs.DataDamage.{IsDamagedBelow};
ghost use Rattle.zst_count.specs.FirstSectors.{IsFirstBelow};
ghost use Rattle.zst_count.specs.MetBlocks.{AreMet, AreRead, MetMore};
ghost use Rattle.zst_count.specs.PastLeaves.{told_below};
ghost use Rattle.zst_count.specs.StandingData.{DataStand};

use crate::met_blocks::MetBlocks;
use std::mem;
use zst_block::{BlockFault, Io, Node, Ptr};
use zst_outside::Disk;
use zst_reach::{child_beside, load_beside, load_named};
use zst_tree::child_at;

// How long the leaves below a child are, or nothing where they aren't read: those of an index of 2^43 or more, which only a tree of 7
// levels has, are no blocks of an object.
fn length_below(length: Option<u32>, level: u8, k: usize) -> Option<u32>
    ensures { result ≡ told_below length level k }
{
    if level > 6 && k > 1 { None } else { length }
}

/// Meets each block that is reached below a pointer at a level, beside one in the same place of a tree that was walked before, which is
/// passed by where it is the same. The leaves are data of so many bytes, or, where no length is told, met and not read; and so are those
/// past the indices that an object may have.
pub(crate) fn count_below<D: Disk>(
    io: &mut Io<'_, D>,
    met: &mut MetBlocks,
    level: u8,
    ptr: Ptr,
    length: Option<u32>,
    known: (u8, Ptr),
) -> Result<(), BlockFault>
    requires long { IfSome length (λ count. count ≤ 131072) }

    // Where all below the known one was met, all below this one is. Nothing else is met than what is reached, and what was met stays so.
    ensures all { IsHonest io.new → AreMet (disk_of io.old).seen met.old.end met.old.marks known.0 known.1 → OnOk result (AreMet (disk_of io.old).seen met.new.end met.new.marks level ptr) }
    ensures only { IsHonest io.new → (sector : ℕ) → IsMarked met.new.marks sector → IsMarked met.old.marks sector ⊎ (IsFirstBelow (IsBlock (disk_of io.old).seen) level ptr sector × (sector < met.old.end)) }
    ensures more { MetMore met.old met.new }

    // So it is with what is read.
    ensures read { IsHonest io.new → AreRead (disk_of io.old).seen length known.0 known.1 → OnOk result (AreRead (disk_of io.old).seen length level ptr) }

    // A tree that stands is walked, unless the disk fails. What is damaged is a node of the tree, or a leaf that is read.
    ensures stands { IsHonest io.new → DataStand (blocks_of io.old) length level ptr → Delivers (λ done. Unit {0}) result }
    ensures damaged { IsHonest io.new → IfDamaged result (IsDamagedBelow (IsSeen (disk_of io.old).seen) (disk_of io.old).size length level ptr) }

    // What is shared isn't read again.
    ensures shared { known.0 ≡ level → known.1 ≡ ptr → io.new ≡ io.old }
    ensures looks { Looks (io_of io.old) (io_of io.new) (stop_of result) }
{
    if ptr.is_flat() {
        return Ok(());
    }
    if known.0 == level && known.1 == ptr {
        return Ok(());
    }
    met.meet(&ptr);
    if level == 0 {
        return match length {
            Some(length) => met.read_data(io, &ptr, length),
            None => Ok(()),
        };
    }
    load_named(io, level, ptr)?;
    let node = mem::replace(&mut io.node, Node::new());
    let beside = load_beside(io, level, known.0, known.1)?;
    for k in 0..128 {
        let under = child_beside(&beside, level, known.0, known.1, k);
        let told = length_below(length, level, k);
        count_below(io, met, level - 1, child_at(&node, k), told, under)?;
    }
    Ok(())
}

/// Meets the leaves of a text and the nodes above them, and reads them.
pub(crate) fn count_text<D: Disk>(
    io: &mut Io<'_, D>,
    met: &mut MetBlocks,
    levels: u8,
    root: Ptr,
) -> Result<(), BlockFault>
    ensures all { IsHonest io.new → OnOk result (AreMet (disk_of io.old).seen met.new.end met.new.marks levels root) }
    ensures only { IsHonest io.new → (sector : ℕ) → IsMarked met.new.marks sector → IsMarked met.old.marks sector ⊎ (IsFirstBelow (IsBlock (disk_of io.old).seen) levels root sector × (sector < met.old.end)) }
    ensures more { MetMore met.old met.new }
    ensures read { IsHonest io.new → OnOk result (AreRead (disk_of io.old).seen (Some 8192) levels root) }

    // A text that is there is read, unless the disk fails, and what is damaged is a leaf or a node above.
    ensures there { (text : List ℕ) → IsHonest io.new → HasLeaves (blocks_of io.old) levels root text → Delivers (λ done. Unit {0}) result }
    ensures damaged { IsHonest io.new → IfDamaged result (IsDamagedBelow (IsSeen (disk_of io.old).seen) (disk_of io.old).size (Some 8192) levels root) }
    ensures looks { Looks (io_of io.old) (io_of io.new) (stop_of result) }
{
    count_below(io, met, levels, root, Some(8192), (0, Ptr::hole(0)))
}
