//! The search for the first included number, which passes over leaves where nothing is late.
ghost use Rattle.std.specs.Prelude.{◌≡◌, ◌+◌, ◌%◌, ◌^◌, ◌<◌, ◌≤◌, IfOk, IfSome};
ghost use Rattle.zst_block.specs.IoStates.{IsHonest, blocks_of, disk_of, io_of};
ghost use Rattle.zst_block.specs.IoCalls.{stop_of};
ghost use Rattle.zst_model.specs.states.DatedState.{DatedState};
ghost use Rattle.zst_tree.specs.Damage.{HangsIn, IsSeen, MayHave};
ghost use Rattle.zst_tree.specs.Indices.{Delivers};
ghost use Rattle.zst_tree.specs.Steps.{LooksBySteps, LooksInSteps};
ghost use Rattle.zst_objset.specs.Sets.{SetHoldsBut};
ghost use Rattle.zst_traverse.specs.Cells.{choice_after};
ghost use Rattle.zst_traverse.specs.Leaves.{Advances, EndsAll, FindsNumber, HoldsLeaf, HoldsTightLeaf, IsFromIn, NumberFits, ShowsAhead};
ghost use Rattle.zst_traverse.specs.StandingEntries.{AheadStands, FoundStands};
ghost use Rattle.zst_traverse.specs.WalkCalls.{IsOfWalk};
ghost use Rattle.zst_objset.specs.TightSets.{SetIsTightIn};
ghost use Rattle.zst_objset.specs.Dnodes.{outside};
ghost use Rattle.zst_model.specs.sends.Inclusion.{Pairs};

use crate::dates::next_late;
use crate::leaves::{Leaf, WalkStep, leaf_at, look};
use crate::walk_entry::WalkEntry;
use std::sync::ledger::Ledger;
use zst_block::{BlockFault, Io};
use zst_model::limits::NUMBER_BOUND;
use zst_outside::Disk;
use zst_tree::{ObjSet, Steps};

/// Indices of the leaves of a set are below this.
const LEAF_BOUND: u64 = NUMBER_BOUND / 16;

// Looks at the first leaf, from that of a number on, that tells a date after the source.
fn look_on<D: Disk, L: Ledger>(
    io: &mut Io<'_, D>,
    set: &ObjSet,
    source: Option<u64>,
    from: u64,
    steps: &mut Steps<L>,
) -> Result<WalkStep, BlockFault>
    requires levels { set.now.tree.levels ≤ 7 }
    requires from { (0 < from) × (from < 2 ^ 48) }
    ensures shows { (snap : DatedState) (pairs : Pairs) → IsHonest io.new → SetHoldsBut (blocks_of io.old) pairs set.now snap
        → Delivers (ShowsAhead (blocks_of io.old) (outside pairs (blocks_of io.old)) snap (choice_after source) from) result }
    ensures goes_on { IfOk result (Advances from) }
    ensures of_walk { IsHonest io.new → IsOfWalk (disk_of io.old).seen (disk_of io.old).size set.now result (λ images. AheadStands images set.now) }
    ensures ends { (snap : DatedState) (pairs : Pairs) → IsHonest io.new → SetIsTightIn (blocks_of io.old) (outside pairs (blocks_of io.old)) set.now snap → from % 16 ≡ 0 → IfOk result EndsAll }
    ensures looks { LooksInSteps 34 (io_of io.old) (io_of io.new) (stop_of result) steps.old steps.new }
{
    match next_late(io, &set.tree, source, from / 16, LEAF_BOUND, steps)? {
        None => Ok(WalkStep::Nothing {
            below: NUMBER_BOUND,
        }),
        Some(index) => {
            let leaf = leaf_at(io, &set.tree, index, steps)?;
            look(io, &leaf, source, from.max(16 * index), steps)
        }
    }
}

/// The first included number from one on, at which a leaf ends or which stands in it.
pub(crate) fn next_number<D: Disk, L: Ledger>(
    io: &mut Io<'_, D>,
    set: &ObjSet,
    source: Option<u64>,
    leaf: &Leaf,
    from: u64,
    steps: &mut Steps<L>,
) -> Result<Option<WalkEntry>, BlockFault>
    requires levels { set.now.tree.levels ≤ 7 }
    requires leaf { IsFromIn from leaf.now }
    ensures found { (snap : DatedState) (pairs : Pairs) → IsHonest io.new → HoldsLeaf (blocks_of io.old) (outside pairs (blocks_of io.old)) set.now snap leaf.now
        → Delivers (FindsNumber (blocks_of io.old) (outside pairs (blocks_of io.old)) snap (choice_after source) from) result }
    ensures ranges { IfOk result (λ found. IfSome found (NumberFits from)) }
    ensures of_walk { IsHonest io.new → HangsIn (MayHave (IsSeen (disk_of io.old).seen)) set.now.tree leaf.now.ptr → IsOfWalk (disk_of io.old).seen (disk_of io.old).size set.now result (λ images found. IfSome found (FoundStands images set.now)) }
    ensures looks { LooksBySteps (io_of io.old) (io_of io.new) (stop_of result) steps.old steps.new }
    ensures few { (snap : DatedState) (pairs : Pairs) → IsHonest io.new → HoldsTightLeaf (blocks_of io.old) (outside pairs (blocks_of io.old)) set.now snap leaf.now → steps.new ≤ steps.old + 35 }
{
    let mut at = match look(io, leaf, source, from, steps)? {
        WalkStep::Next(found) => return Ok(Some(found)),
        WalkStep::Nothing { below } => below,
    };
    while at < NUMBER_BOUND {
        match look_on(io, set, source, at, steps)? {
            WalkStep::Next(found) => return Ok(Some(found)),
            WalkStep::Nothing { below } => at = below,
        }
    }
    Ok(None)
}
