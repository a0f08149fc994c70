//! The calls that change a set.
ghost use Rattle.std.specs.Prelude.{◌≡◌, ◌+◌, ◌/◌, ◌<◌, ◌^◌, ℕ, true, Ok, OnOk, length};
ghost use Rattle.zst_block.specs.Ptr.{PtrFits};
ghost use Rattle.zst_block.specs.IoStates.{IsHonest, blocks_of, disk_of, io_of, IsSparedBy};
ghost use Rattle.zst_dnode.specs.Dnode.{DnodeFits};
ghost use Rattle.zst_dnode.specs.declared.slot.Slot.TheVariants.{There};
ghost use Rattle.zst_model.specs.declared.states.item.Change.{Change};
ghost use Rattle.zst_model.specs.declared.states.item.Item.TheVariants.{At};
ghost use Rattle.zst_model.specs.pools.Soundness.{DatedUpTo};
ghost use Rattle.zst_model.specs.states.DatedState.{DatedState};
ghost use Rattle.zst_model.specs.states.State.{is_spill_size};
ghost use Rattle.zst_tree.specs.Sets.{SetFits};
ghost use Rattle.zst_objset.specs.Answers.{Changes, NotLimit};
ghost use Rattle.zst_objset.specs.Changes.{changed, spill_put};
ghost use Rattle.zst_objset.specs.Damage.{AreTreesWithin, IsDamagedSet};
ghost use Rattle.zst_objset.specs.SlotPuts.{DatesRise, MakesDnode, PutsSlot};
ghost use Rattle.zst_objset.specs.Sets.{SetHolds};
ghost use Rattle.zst_objset.specs.TightSets.{IsTightDnode, IsTightSlot, SetIsTight};
ghost use Rattle.zst_objset.specs.SetChanges.{ChangesTightSet, PutsInSet, SetHas, SetHasTight};

use crate::answers::object_there;
use crate::fault::ObjFault;
use crate::slot_puts::put_in_leaf;
use zst_block::{Io, Ptr, write};
use zst_dnode::{Dnode, Slot};
use zst_laws::applied_is_state;
use zst_outside::Disk;
use zst_tree::{ObjSet, Tree};

// A dnode with another spill pointer, of a date.
fn with_spill(dnode: Dnode, spill: Ptr, number: u64) -> Dnode
    ensures made { result ≡ record dnode { spill = spill; date = number } }
    ensures fits { PtrFits spill }
    ensures date { number < 2 ^ 64 }
{
    Dnode {
        spill,
        date: number,
        ..dnode
    }
}

/// A dnode with another tree and another end. Its date stays: a change of its indices doesn't date
/// the number.
pub(crate) fn with_tree(dnode: Dnode, tree: Tree, end: u64) -> Dnode
    ensures made { result ≡ record dnode { levels = tree.levels; past = tree.past; end = end; root = tree.root } }
    ensures root { PtrFits tree.root }
    ensures past { tree.past < 2 ^ 64 }
{
    Dnode {
        levels: tree.levels,
        past: tree.past,
        end,
        root: tree.root,
        ..dnode
    }
}

/// Puts the dnode of an object that a state has.
pub(crate) fn put_there<D: Disk>(
    set: &mut ObjSet,
    io: &mut Io<'_, D>,
    object: u64,
    dnode: Dnode,
) -> Result<(), ObjFault>
    requires object { (0 < object) × (object < 2 ^ 48) }
    requires dnode { DnodeFits dnode }
    ensures changed { (before now : DatedState) → IsHonest io.new → SetHolds (blocks_of io.old) set.old before
        → PutsSlot (blocks_of io.old) before now object (object + 1) (There dnode)
        → Changes (SetHolds (blocks_of io.new) set.new) (Ok now) result }
    ensures tight { (before now : DatedState) → IsHonest io.new → SetIsTight (blocks_of io.old) set.old before
        → PutsSlot (blocks_of io.old) before now object (object + 1) (There dnode) → IsTightSlot now object (There dnode) → DatesRise before now
        → Changes (SetIsTight (blocks_of io.new) set.new) (Ok now) result }
    ensures puts { PutsInSet dnode (io_of io.old) (io_of io.new) set.old set.new result }
{
    match put_in_leaf(*set, io, object, object + 1, &Slot::There(dnode)) {
        Ok(made) => {
            *set = made;
            Ok(())
        }
        Err(fault) => Err(ObjFault::Block(fault)),
    }
}

/// Puts the dnode of what a change makes of an object.
pub(crate) fn put_dnode<D: Disk>(
    set: &mut ObjSet,
    io: &mut Io<'_, D>,
    object: u64,
    dnode: Dnode,
) -> Result<(), ObjFault>
    requires object { (0 < object) × (object < 2 ^ 48) }
    requires dnode { DnodeFits dnode }
    ensures changed { (number : ℕ) (change : Change) (state : DatedState) → IsHonest io.new → SetHolds (blocks_of io.old) set.old state
        → MakesDnode (blocks_of io.old) number object change state dnode
        → Changes (SetHolds (blocks_of io.new) set.new) (changed number (At object change) state) result }
    ensures tight { (number : ℕ) (change : Change) (state : DatedState) → IsHonest io.new → SetIsTight (blocks_of io.old) set.old state → DatedUpTo number state
        → MakesDnode (blocks_of io.old) number object change state dnode → IsTightDnode number object change state dnode
        → Changes (SetIsTight (blocks_of io.new) set.new) (changed number (At object change) state) result }
    ensures puts { PutsInSet dnode (io_of io.old) (io_of io.new) set.old set.new result }
{
    applied_is_state();
    put_there(set, io, object, dnode)
}

/// Gives an object another spill block.
pub(crate) fn put_spill<D: Disk>(
    set: &mut ObjSet,
    io: &mut Io<'_, D>,
    object: u64,
    bytes: &[u8],
    number: u64,
) -> Result<(), ObjFault>
    requires object { 0 < object }
    requires spill { is_spill_size (length bytes.now) ≡ true }
    ensures changes { ChangesTightSet SetHas SetHasTight SetFits number (spill_put number object bytes.now) NotLimit
        (IsDamagedSet (IsSparedBy io.old) (disk_of io.old).size set.old) (640 + length bytes.now / 512) (length bytes.now / 512) (io_of io.old) (io_of io.new) set.old set.new result }
    ensures trees { IsHonest io.new → OnOk result (AreTreesWithin (IsSparedBy io.old) (disk_of io.old).size set.old (IsSparedBy io.new) set.new) }
{
    let dnode = match object_there(set, io, object) {
        Ok(dnode) => dnode,
        Err(fault) => return Err(fault),
    };
    let spill = match write(io, bytes, 0, number) {
        Ok(ptr) => ptr,
        Err(fault) => return Err(ObjFault::Block(fault)),
    };
    put_dnode(set, io, object, with_spill(dnode, spill, number))
}
