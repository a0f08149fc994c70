//! The lines of the objects of a set.
ghost use Rattle.std.specs.Prelude.{◌≡◌, [], ◌∷◌, ◌++◌, IfOk, OnOk, string_bytes};
ghost use Rattle.zst_block.specs.IoCalls.{Looks};
ghost use Rattle.zst_block.specs.IoStates.{IsHonest, blocks_of, disk_of, io_of};
ghost use Rattle.zst_listing.specs.Listing.{ListsObjects, dnode_line, pointer_word};
ghost use Rattle.zst_model.specs.states.DatedState.{DatedState};
ghost use Rattle.zst_objset.specs.Answers.{IsOfBlock};
ghost use Rattle.zst_objset.specs.Damage.{IsDamagedSet};
ghost use Rattle.zst_objset.specs.OrMemory.{IfTold, stop_of};
ghost use Rattle.zst_objset.specs.Sets.{SetHolds};
ghost use Rattle.zst_tree.specs.Damage.{IsSeen};
ghost use Rattle.zst_tree.specs.Faults.{IfFault};

use std::alloc::{AllocError, Global};
use zst_block::{Io, Ptr};
use zst_dnode::Dnode;
use zst_model::{Bytes, Reply};
use zst_objset::{ObjFault, Objects};
use zst_outside::Disk;
use zst_tree::{ObjSet, OrMemory};

// The length of the block that a spill pointer names, or none, after a blank.
fn pointer_word(alloc: Global, spill: &Ptr) -> Result<String, AllocError>
    ensures { IfOk result (λ word. string_bytes word ≡ pointer_word spill.now) }
{
    if spill.kind == 0 {
        format!(in alloc; " none")
    } else {
        format!(in alloc; " {}", spill.length)
    }
}

// The line of an object, by its dnode.
fn object_line(alloc: Global, number: u64, dnode: &Dnode) -> Result<Bytes, AllocError>
    ensures { IfOk result (λ line. line ≡ dnode_line number dnode.now) }
{
    let spill = pointer_word(alloc, &dnode.spill)?;
    let line = format!(in alloc;
        "object {number} type {} size {} bonustype {} bonus {} spill{spill} end {}",
        dnode.type_, dnode.block_size, dnode.bonus_type, dnode.bonus_len, dnode.end
    )?;
    Ok(Bytes::new(line.into_bytes()))
}

// Adds the line of an object to those before it.
fn push_line(
    alloc: Global,
    lines: &mut Vec<Bytes>,
    number: u64,
    dnode: &Dnode,
) -> Result<(), AllocError>
    ensures { OnOk result (lines.new.items ≡ lines.old.items ++ dnode_line number dnode.now ∷ []) }
{
    let line = object_line(alloc, number, dnode)?;
    lines.push(line)?;
    Ok(())
}

/// The lines of the objects of a set, by rising number. A run of holes costs one look.
pub fn list_objects<D: Disk>(
    io: &mut Io<'_, D>,
    alloc: Global,
    set: &ObjSet,
) -> Result<Reply, OrMemory<ObjFault>>
    ensures told { (state : DatedState) → IsHonest io.new → SetHolds (blocks_of io.old) set.now state → ListsObjects state result }
    ensures known { IfFault result IsOfBlock }
    ensures damaged { IsHonest io.new → IfTold result (IsDamagedSet (IsSeen (disk_of io.old).seen) (disk_of io.old).size set.now) }
    ensures looks { Looks (io_of io.old) (io_of io.new) (stop_of result) }
{
    let mut lines = Vec::new(alloc);
    let mut from = 1;
    while let Some((number, dnode)) = set.next_object(io, from)? {
        push_line(alloc, &mut lines, number, &dnode)?;
        from = number + 1;
    }
    Ok(Reply::new(lines))
}
