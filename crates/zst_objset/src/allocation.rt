//! The call that allocates an object, or gives it other attributes.
ghost use Rattle.std.specs.Prelude.{◌≡◌, ◌<◌, ◌≤◌, ℕ, true, List, length, IfSome, OnOk, ◌+◌};
ghost use Rattle.zst_space.specs.FreeSectors.{FreeSectors};
ghost use Rattle.zst_block.specs.Blocks.{Has};
ghost use Rattle.zst_block.specs.IoStates.{IsHonest, disk_of, io_of, IsSparedBy};
ghost use Rattle.zst_dnode.specs.Dnode.{DnodeFits};
ghost use Rattle.zst_dnode.specs.declared.slot.Slot.TheVariants.{There};
ghost use Rattle.zst_model.specs.declared.refusals.faults.Quantity.TheVariants as quantities;
ghost use Rattle.zst_model.specs.declared.states.item.Change.TheVariants.{Put};
ghost use Rattle.zst_model.specs.pools.Step.{filled};
ghost use Rattle.zst_model.specs.states.DatedState.{DatedState};
ghost use Rattle.zst_model.specs.states.State.{IsHead, is_number, largest_bonus, number_bound};
ghost use Rattle.zst_tree.specs.Sets.{SetFits};
ghost use Rattle.zst_objset.specs.KeptBlocks.{KeepsTree, kept_blocks, kept_spill, no_blocks};
ghost use Rattle.zst_objset.specs.Answers.{LimitOnly};
ghost use Rattle.zst_objset.specs.Changes.{object_put};
ghost use Rattle.zst_objset.specs.Damage.{AreTreesWithin, IsDamagedSet, IsSetWithin};
ghost use Rattle.zst_objset.specs.Dnodes.{DnodeIs};
ghost use Rattle.zst_objset.specs.SlotPuts.{MakesDnode};
ghost use Rattle.zst_objset.specs.Sets.{date_in};
ghost use Rattle.zst_objset.specs.SetChanges.{ChangesTightSet, SetHas, SetHasTight};

use crate::changes::put_dnode;
use crate::fault::ObjFault;
use crate::slot_reads::dnode_at;
use zst_block::{Io, Ptr};
use zst_dnode::Dnode;
use zst_model::limits::NUMBER_BOUND;
use zst_model::{ObjectHead, Quantity};
use zst_outside::Disk;
use zst_tree::{ObjSet, Tree};

// The tree of an object's blocks, and the end of the object.
#[derive(Clone, Copy)]
struct BlockTree {
    tree: Tree,
    end: u64,
}

// No block: each index is a hole of this date.
fn no_blocks(number: u64) -> BlockTree
    ensures { result ≡ no_blocks number }
{
    BlockTree {
        tree: Tree {
            levels: 0,
            past: number,
            root: Ptr::hole(number),
        },
        end: 0,
    }
}

// The blocks of what was there, where it has this block size.
fn kept_blocks(was: &Option<Dnode>, block_size: u32, number: u64) -> BlockTree
    ensures { result ≡ kept_blocks block_size number was.now }
{
    match was {
        Some(dnode) if dnode.block_size == block_size => BlockTree {
            tree: Tree {
                levels: dnode.levels,
                past: dnode.past,
                root: dnode.root,
            },
            end: dnode.end,
        },
        _ => no_blocks(number),
    }
}

// The spill of what was there, where it is to be kept.
fn kept_spill(was: &Option<Dnode>, keep_spill: bool, number: u64) -> Ptr
    ensures { result ≡ kept_spill keep_spill number was.now }
{
    match was {
        Some(dnode) if keep_spill => dnode.spill,
        _ => Ptr::hole(number),
    }
}

// A bonus, and zeros behind it.
fn bonus_field(bonus: &[u8]) -> [u8; 320]
    requires { length bonus.now ≤ largest_bonus }
    ensures { result ≡ filled 320 bonus.now }
{
    let mut field = [0; 320];
    field[..bonus.len()].copy_from_slice(bonus);
    field
}

// The dnode that this change makes of what was at a number.
fn made_dnode(
    was: &Option<Dnode>,
    head: ObjectHead,
    bonus: &[u8],
    keep_spill: bool,
    number: u64,
) -> Dnode
    requires head { IsHead head }
    requires bonus { length bonus.now ≤ largest_bonus }
    requires ranges { IfSome was.now DnodeFits }
    ensures fits { DnodeFits result }
    ensures tree { KeepsTree was.now result }
    ensures dated { IfSome was.now (λ dnode. date_in (There dnode) ≤ number) → date_in (There result) ≤ number }
    ensures made { (image : List ℕ) (space : FreeSectors) (object : ℕ) (state : DatedState) → is_number object ≡ true → DnodeIs (Has image space) state object was.now
        → MakesDnode (Has image space) number object (Put head bonus.now keep_spill 0) state result }
{
    let blocks = kept_blocks(was, head.block_size, number);
    Dnode {
        type_: head.type_,
        bonus_type: head.bonus_type,
        block_size: head.block_size,
        bonus_len: bonus.len() as u32,
        date: number,
        levels: blocks.tree.levels,
        past: blocks.tree.past,
        end: blocks.end,
        root: blocks.tree.root,
        spill: kept_spill(was, keep_spill, number),
        bonus: bonus_field(bonus),
    }
}

/// Allocates an object, or gives it other attributes. With an equal block size its blocks stay;
/// otherwise, and in a new object, all indices are holes. Its spill block goes unless it is to be
/// kept.
pub(crate) fn put_object<D: Disk>(
    set: &mut ObjSet,
    io: &mut Io<'_, D>,
    object: u64,
    head: ObjectHead,
    bonus: &[u8],
    keep_spill: bool,
    number: u64,
) -> Result<(), ObjFault>
    requires object { 0 < object }
    requires head { IsHead head }
    requires bonus { length bonus.now ≤ largest_bonus }
    ensures changes { ChangesTightSet SetHas SetHasTight SetFits number (object_put number object head bonus.now keep_spill) (LimitOnly quantities.Object number_bound (object + 1))
        (IsDamagedSet (IsSparedBy io.old) (disk_of io.old).size set.old) 640 16 (io_of io.old) (io_of io.new) set.old set.new result }
    ensures within { IsHonest io.new → OnOk result (IsSetWithin (IsSparedBy io.old) (disk_of io.old).size set.old (IsSparedBy io.new) set.new) }
    ensures trees { IsHonest io.new → OnOk result (AreTreesWithin (IsSparedBy io.old) (disk_of io.old).size set.old (IsSparedBy io.new) set.new) }
{
    if object >= NUMBER_BOUND {
        return Err(ObjFault::Limit {
            which: Quantity::Object,
            number: NUMBER_BOUND,
        });
    }
    let found = match dnode_at(set, io, object) {
        Ok(found) => found,
        Err(fault) => return Err(ObjFault::Block(fault)),
    };
    put_dnode(
        set,
        io,
        object,
        made_dnode(&found, head, bonus, keep_spill, number),
    )
}
