//! A slot, put at some numbers of one leaf of a set.
ghost use Rattle.std.specs.Prelude.{◌≡◌, ◌+◌, ◌*◌, ◌/◌, ◌<◌, ◌≤◌, ◌^◌, ℕ, IfOk};
ghost use Rattle.zst_block.specs.IoStates.{IsHonest, blocks_of, io_of};
ghost use Rattle.zst_dnode.specs.Slot.{SlotFits};
ghost use Rattle.zst_dnode.specs.declared.slot.Slot.TheVariants.{There};
ghost use Rattle.zst_model.specs.states.DatedState.{DatedState};
ghost use Rattle.zst_tree.specs.Indices.{Delivers};
ghost use Rattle.zst_tree.specs.Sets.{SetFits};
ghost use Rattle.zst_objset.specs.SlotPuts.{DatesRise, PutsSlot};
ghost use Rattle.zst_objset.specs.Sets.{SetHolds};
ghost use Rattle.zst_objset.specs.TightSets.{IsTightSlot, SetIsTight};
ghost use Rattle.zst_objset.specs.SetChanges.{MakesSet};

use crate::leaves::{find_slots, save_slots};
use crate::slots::put_slots;
use zst_block::{BlockFault, Io};
use zst_dnode::Slot;
use zst_outside::Disk;
use zst_tree::{ObjSet, Tree};

/// The set over a tree.
pub(crate) fn set_over(tree: Tree) -> ObjSet
    requires { tree.levels ≤ 7 }
    ensures made { result ≡ record { tree = tree } }
    ensures fits { SetFits result }
{
    ObjSet { tree }
}

/// The set with this slot from one number on and below another, all of one leaf.
pub(crate) fn put_in_leaf<D: Disk>(
    set: ObjSet,
    io: &mut Io<'_, D>,
    first: u64,
    below: u64,
    slot: &Slot,
) -> Result<ObjSet, BlockFault>
    requires first { 0 < first }
    requires some { first < below }
    requires bound { below ≤ 2 ^ 48 }
    requires leaf { below ≤ 16 * (first / 16) + 16 }
    requires slot { SlotFits slot.now }
    ensures put { (snap after : DatedState) → IsHonest io.new → SetHolds (blocks_of io.old) set snap
        → PutsSlot (blocks_of io.old) snap after first below slot.now
        → Delivers (λ made. SetHolds (blocks_of io.new) made after) result }
    ensures tight { (snap after : DatedState) → IsHonest io.new → SetIsTight (blocks_of io.old) set snap
        → PutsSlot (blocks_of io.old) snap after first below slot.now → ((k : ℕ) → first ≤ k → k < below → IsTightSlot after k slot.now) → DatesRise snap after
        → IfOk result (λ made. SetIsTight (blocks_of io.new) made after) }
    ensures makes { MakesSet (λ dnode. slot.now ≡ There dnode) 240 (io_of io.old) (io_of io.new) set result }
    ensures levels { IfOk result SetFits }
{
    let leaf = first / 16;
    let from = first - 16 * leaf;
    let to = below - 16 * leaf;
    let was = find_slots(&set, io, leaf)?;
    put_slots(&mut io.node, from as usize, to as usize, slot);
    let ptr = save_slots(io, &was)?;
    let mut tree = set.tree;
    tree.set(io, leaf, ptr)?;
    Ok(set_over(tree))
}
