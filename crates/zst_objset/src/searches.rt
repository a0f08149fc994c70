//! The search for the next object of a set, which passes over holes by their runs.
ghost use Rattle.std.specs.Prelude.{◌+◌, ◌*◌, ◌<◌, ◌≤◌, ◌^◌, ℕ, IfErr, IfNone, IfOk, IfSome};
ghost use Rattle.zst_block.specs.IoStates.{IsHonest, blocks_of, disk_of, io_of};
ghost use Rattle.zst_block.specs.IoCalls.{Looks, stop_of as block_stop_of};
ghost use Rattle.zst_dnode.specs.Dnode.{DnodeFits};
ghost use Rattle.zst_dnode.specs.declared.slot.Slot.{Slot};
ghost use Rattle.zst_model.specs.states.DatedState.{DatedState};
ghost use Rattle.zst_tree.specs.Damage.{IsSeen};
ghost use Rattle.zst_tree.specs.Indices.{Delivers};
ghost use Rattle.zst_tree.specs.Steps.{LooksAtMost};
ghost use Rattle.zst_objset.specs.Answers.{IsOfBlock, stop_of};
ghost use Rattle.zst_objset.specs.Damage.{IfDamaged, IfSetDamaged, IsDamagedSet, LacksSlot};
ghost use Rattle.zst_objset.specs.Searches.{FindsNext, IsAfter, ShowsAhead, ShowsSlots};
ghost use Rattle.zst_objset.specs.Sets.{SetHolds, Spells};

use crate::fault::ObjFault;
use crate::leaves::load_slots;
use crate::trees::run_at;
use zst_block::{BlockFault, Io, Node};
use zst_dnode::{Dnode, Slot};
use zst_model::limits::NUMBER_BOUND;
use zst_outside::Disk;
use zst_tree::ObjSet;

/// What one look ahead in a set shows.
#[derive(Clone, Copy)]
pub(crate) enum SearchStep {
    /// The first object.
    Object { number: u64, dnode: Dnode },
    /// That there is none below a number.
    Nothing { below: u64 },
}

// The first object in the slots of a leaf from a place on; nothing is told where some slot before it
// isn't one.
fn first_there(node: &Node, leaf: u64, from: usize) -> Option<SearchStep>
    requires leaf { leaf < 2 ^ 44 }
    requires from { from < 16 }
    ensures none { IfNone result (LacksSlot node.now) }
    ensures shows { IfSome result (λ ahead. (slots : ℕ → Slot) → Spells node.now slots → ShowsSlots slots leaf from ahead) }
    ensures ranges { IfSome result (IsAfter (16 * leaf + from)) }
{
    for place in from..16 {
        if let Slot::There(dnode) = Slot::get(node.as_slice(), 512 * place)? {
            let number = 16 * leaf + place as u64;
            return Some(SearchStep::Object { number, dnode });
        }
    }
    let below = 16 * leaf + 16;
    Some(SearchStep::Nothing { below })
}

// Looks from a number on, as far as the run of a hole goes, or else in the number's leaf. A set of
// more than 7 levels isn't of the layout.
fn look_ahead<D: Disk>(
    set: &ObjSet,
    io: &mut Io<'_, D>,
    from: u64,
) -> Result<SearchStep, BlockFault>
    requires from { (0 < from) × (from < 2 ^ 48) }
    ensures shows { (state : DatedState) → IsHonest io.new → SetHolds (blocks_of io.old) set.now state
        → Delivers (ShowsAhead (blocks_of io.new) state from) result }
    ensures ranges { IfOk result (IsAfter from) }
    ensures damaged { IsHonest io.new → IfDamaged result (IsDamagedSet (IsSeen (disk_of io.old).seen) (disk_of io.old).size set.now) }
    ensures looks { LooksAtMost 8 (io_of io.old) (io_of io.new) (block_stop_of result) }
{
    if set.tree.levels > 7 {
        return Err(BlockFault::of_layout(&set.tree.root));
    }
    let leaf = from / 16;
    let (was, count) = run_at(&set.tree, io, leaf)?;
    if was.kind == 0 {
        let below = 16 * (leaf + count);
        return Ok(SearchStep::Nothing { below });
    }
    load_slots(io, was, leaf)?;
    match first_there(&io.node, leaf, (from % 16) as usize) {
        Some(ahead) => Ok(ahead),
        None => Err(BlockFault::of_layout(&was)),
    }
}

/// The first object from a number on, with its number.
#[tactic(auto, unfolding(zst_model::specs::states::State::number_bound))]
pub(crate) fn next_object<D: Disk>(
    set: &ObjSet,
    io: &mut Io<'_, D>,
    from: u64,
) -> Result<Option<(u64, Dnode)>, ObjFault>
    requires from { 0 < from }
    ensures found { (state : DatedState) → IsHonest io.new → SetHolds (blocks_of io.old) set.now state
        → FindsNext (blocks_of io.new) state from result }
    ensures ranges { IfOk result (λ found. IfSome found (λ next. (from ≤ next.0) × (next.0 < 2 ^ 48) × DnodeFits next.1)) }
    ensures known { IfErr result IsOfBlock }
    ensures damaged { IsHonest io.new → IfSetDamaged result (IsDamagedSet (IsSeen (disk_of io.old).seen) (disk_of io.old).size set.now) }
    ensures looks { Looks (io_of io.old) (io_of io.new) (stop_of result) }
{
    let mut at = from;
    while at < NUMBER_BOUND {
        match look_ahead(set, io, at) {
            Ok(SearchStep::Object { number, dnode }) => return Ok(Some((number, dnode))),
            Ok(SearchStep::Nothing { below }) => at = below,
            Err(fault) => return Err(ObjFault::Block(fault)),
        }
    }
    Ok(None)
}
