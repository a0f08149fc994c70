//! Whether an object that tells a late date is included.
ghost use Rattle.std.specs.Prelude.{◌≡◌, ◌+◌, ◌^◌, ◌<◌, true, IfOk};
ghost use Rattle.zst_block.specs.IoStates.{IsHonest, blocks_of, disk_of, io_of};
ghost use Rattle.zst_block.specs.IoCalls.{stop_of};
ghost use Rattle.zst_dnode.specs.Dnode.{DnodeFits};
ghost use Rattle.zst_dnode.specs.declared.slot.Slot.TheVariants as slots;
ghost use Rattle.zst_model.specs.sends.Inclusion.{is_after, Pairs};
ghost use Rattle.zst_model.specs.states.DatedState.{DatedState};
ghost use Rattle.zst_tree.specs.Damage.{IsSeen};
ghost use Rattle.zst_tree.specs.Indices.{Delivers};
ghost use Rattle.zst_tree.specs.declared.tree.ObjSet.{ObjSet};
ghost use Rattle.zst_tree.specs.Steps.{LooksInSteps};
ghost use Rattle.zst_objset.specs.Damage.{StandsIn};
ghost use Rattle.zst_objset.specs.Dnodes.{IsThereIn, outside};
ghost use Rattle.zst_objset.specs.Sets.{date_in};
ghost use Rattle.zst_traverse.specs.Cells.{choice_after};
ghost use Rattle.zst_traverse.specs.Leaves.{Advances, IsNext, ShowsAhead};
ghost use Rattle.zst_traverse.specs.StandingEntries.{AheadStands};
ghost use Rattle.zst_traverse.specs.WalkCalls.{IsOfWalk};
ghost use Rattle.zst_objset.specs.TightSets.{IsTightSlot};

use crate::dates::{is_after, next_late};
use crate::leaves::WalkStep;
use crate::walk_entry::WalkEntry;
use std::sync::ledger::Ledger;
use zst_block::{BlockFault, Io};
use zst_dnode::Dnode;
use zst_model::limits::INDEX_BOUND;
use zst_objset::tree_of;
use zst_outside::Disk;
use zst_tree::Steps;

/// Shows an object where its number is included: by its own date, or by that of an index, which its
/// tree tells.
#[tactic(auto, unfolding(zst_model::specs::states::State::index_bound))]
pub(crate) fn judged<D: Disk, L: Ledger>(
    io: &mut Io<'_, D>,
    number: u64,
    dnode: Dnode,
    source: Option<u64>,
    steps: &mut Steps<L>,
) -> Result<WalkStep, BlockFault>
    requires number { (0 < number) × (number < 2 ^ 48) }
    requires dnode { DnodeFits dnode }
    ensures shows { (snap : DatedState) (pairs : Pairs) → IsHonest io.new → IsThereIn (blocks_of io.old) (outside pairs (blocks_of io.old)) snap number dnode
        → Delivers (ShowsAhead (blocks_of io.old) (outside pairs (blocks_of io.old)) snap (choice_after source) number) result }
    ensures goes_on { IfOk result (Advances number) }
    ensures of_walk { (set : ObjSet) → IsHonest io.new → StandsIn (IsSeen (disk_of io.old).seen) set dnode → IsOfWalk (disk_of io.old).seen (disk_of io.old).size set result (λ images. AheadStands images set) }
    ensures next { (snap : DatedState) (pairs : Pairs) → IsHonest io.new → IsThereIn (blocks_of io.old) (outside pairs (blocks_of io.old)) snap number dnode
        → IsTightSlot snap number (slots.There dnode) → is_after source (date_in (slots.There dnode)) ≡ true → IfOk result IsNext }
    ensures looks { LooksInSteps 13 (io_of io.old) (io_of io.new) (stop_of result) steps.old steps.new }
{
    let object = WalkEntry::Object { number, dnode };
    if is_after(source, dnode.date) {
        return Ok(WalkStep::Next(object));
    }
    match next_late(io, &tree_of(&dnode), source, 0, INDEX_BOUND, steps)? {
        Some(_) => Ok(WalkStep::Next(object)),
        None => Ok(WalkStep::Nothing { below: number + 1 }),
    }
}
