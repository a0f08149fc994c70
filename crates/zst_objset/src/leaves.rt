//! The leaves of a set, read and written.
ghost use Rattle.std.specs.Prelude.{◌≡◌, ◌+◌, ◌^◌, ◌<◌, ◌≤◌, true, ℕ, IfOk, OnOk};
ghost use Rattle.zst_block.specs.Ptr.{is_lawful};
ghost use Rattle.zst_block.specs.IoStates.{IsHonest, blocks_of, disk_of, io_of};
ghost use Rattle.zst_block.specs.IoCalls.{Looks, Works, stop_of};
ghost use Rattle.zst_dnode.specs.declared.slot.Slot.{Slot};
ghost use Rattle.zst_model.specs.states.DatedState.{DatedState};
ghost use Rattle.zst_tree.specs.Damage.{HangsIn, IsSeen, MayHave};
ghost use Rattle.zst_tree.specs.Indices.{Delivers};
ghost use Rattle.zst_tree.specs.Steps.{LooksAtMost};
ghost use Rattle.zst_objset.specs.Damage.{HasAllSlots, IfDamaged, IsDamagedLeaf, IsDamagedSet, IsLoaded, TellsLacking};
ghost use Rattle.zst_objset.specs.Sets.{HasSlots, HasSlotsIn, LeafIn, LeafIs, NamesSlots, SetHolds, Spells};
ghost use Rattle.zst_objset.specs.Dnodes.{outside};
ghost use Rattle.zst_model.specs.sends.Inclusion.{Pairs};
ghost use Rattle.zst_objset.specs.TightSets.{AreTight, SetIsTight};

use crate::slots::{put_slots, summed_up};
use crate::trees::leaf_at;
use zst_block::{BlockFault, Io, Ptr, load, save};
use zst_dnode::Slot;
use zst_outside::Disk;
use zst_tree::ObjSet;

/// Loads the sixteen slots that a pointer stands for into the node. A hole stands for absent ones of
/// its date; no object has the number 0, whose slot stays as it began.
pub fn load_slots<D: Disk>(io: &mut Io<'_, D>, ptr: Ptr, leaf: u64) -> Result<(), BlockFault>
    requires leaf { leaf < 2 ^ 44 }
    ensures slots { (snap : DatedState) → IsHonest io.new → LeafIs (blocks_of io.old) snap leaf ptr
        → Delivers (λ done. HasSlots (blocks_of io.old) snap leaf io.new.node) result }
    // So it is where the blocks of some pairs aren't read.
    ensures slots_in { (snap : DatedState) (pairs : Pairs) → IsHonest io.new → LeafIn (blocks_of io.old) (outside pairs (blocks_of io.old)) snap leaf ptr
        → Delivers (λ done. HasSlotsIn (blocks_of io.old) (outside pairs (blocks_of io.old)) snap leaf io.new.node) result }
    ensures loaded { IsHonest io.new → OnOk result (IsLoaded (IsSeen (disk_of io.old).seen) ptr io.new.node) }
    ensures damaged { IsHonest io.new → IfDamaged result (IsDamagedLeaf (IsSeen (disk_of io.old).seen) (disk_of io.old).size ptr) }
    ensures looks { Looks (io_of io.old) (io_of io.new) (stop_of result) }
    ensures calls { (disk_of io.new).calls ≤ (disk_of io.old).calls + 1 }
{
    if ptr.kind != 0 {
        return load(io, ptr);
    }
    put_slots(&mut io.node, 0, 16, &Slot::Absent { date: ptr.number });
    if leaf == 0 {
        put_slots(&mut io.node, 0, 1, &Slot::Absent { date: 0 });
    }
    Ok(())
}

// Saves the node as a leaf, in place of the one that this pointer stood for.
pub(crate) fn save_slots<D: Disk>(io: &mut Io<'_, D>, was: &Ptr) -> Result<Ptr, BlockFault>
    ensures names { (slots : ℕ → Slot) → Spells io.old.node slots → Delivers (λ ptr. NamesSlots (blocks_of io.new) ptr io.old.node slots) result }
    ensures lawful { IfOk result (λ ptr. is_lawful ptr ≡ true) }
    ensures damaged { IfDamaged result (TellsLacking io.old.node was.now) }
    ensures wrote { IfOk result (λ ptr. blocks_of io.new ptr io.old.node) }
    ensures some { OnOk result (HasAllSlots io.old.node) }
    ensures works { Works 16 16 (io_of io.old) (io_of io.new) (stop_of result) }
{
    match summed_up(&io.node) {
        None => Err(BlockFault::of_layout(was)),
        Some(told) => {
            let kind = if told.there { 3 } else { 4 };
            let ptr = save(io, 0, told.number)?;
            Ok(Ptr { kind, ..ptr })
        }
    }
}

// Loads the sixteen slots of a leaf of a set into the node, and gives the pointer that stands for
// them. A set of more than 7 levels isn't of the layout.
pub(crate) fn find_slots<D: Disk>(
    set: &ObjSet,
    io: &mut Io<'_, D>,
    leaf: u64,
) -> Result<Ptr, BlockFault>
    requires leaf { leaf < 2 ^ 44 }
    ensures slots { (snap : DatedState) → IsHonest io.new → SetHolds (blocks_of io.old) set.now snap
        → Delivers (λ was. HasSlots (blocks_of io.old) snap leaf io.new.node) result }
    ensures tight { (snap : DatedState) → IsHonest io.new → SetIsTight (blocks_of io.old) set.now snap
        → OnOk result (AreTight snap leaf io.new.node) }
    ensures levels { OnOk result (set.now.tree.levels ≤ 7) }
    ensures hangs { IsHonest io.new → IfOk result (HangsIn (MayHave (IsSeen (disk_of io.old).seen)) set.now.tree) }
    ensures loaded { IsHonest io.new → IfOk result (λ was. IsLoaded (IsSeen (disk_of io.old).seen) was io.new.node) }
    ensures damaged { IsHonest io.new → IfDamaged result (IsDamagedSet (IsSeen (disk_of io.old).seen) (disk_of io.old).size set.now) }
    ensures looks { LooksAtMost 8 (io_of io.old) (io_of io.new) (stop_of result) }
{
    if set.tree.levels > 7 {
        return Err(BlockFault::of_layout(&set.tree.root));
    }
    let was = leaf_at(&set.tree, io, leaf)?;
    load_slots(io, was, leaf)?;
    Ok(was)
}
