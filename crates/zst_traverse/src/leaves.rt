//! The leaves of a set, as a walk looks at them.
ghost use Rattle.std.specs.Prelude.{◌≡◌, ◌+◌, ◌*◌, ◌^◌, ◌<◌, ◌≤◌, ℕ, List, IfOk, OnOk};
ghost use Rattle.zst_space.specs.FreeSectors.{FreeSectors};
ghost use Rattle.zst_block.specs.Blocks.{Has};
ghost use Rattle.zst_block.specs.IoStates.{IsHonest, blocks_of, disk_of, io_of};
ghost use Rattle.zst_block.specs.IoCalls.{stop_of};
ghost use Rattle.zst_model.specs.sends.Inclusion.{Pairs};
ghost use Rattle.zst_model.specs.states.DatedState.{DatedState};
ghost use Rattle.zst_tree.specs.Damage.{HangsIn, IsSeen, MayHave, NamesDamage, NamesNode};
ghost use Rattle.zst_tree.specs.Lookups.{Shows};
ghost use Rattle.zst_tree.specs.Indices.{Delivers, Map, TreeIs};
ghost use Rattle.zst_tree.specs.declared.tree.ObjSet.{ObjSet};
ghost use Rattle.zst_tree.specs.Steps.{LooksInSteps};
ghost use Rattle.zst_objset.specs.Damage.{IfDamaged, IsDamagedLeaf, IsLoaded};
ghost use Rattle.zst_objset.specs.Sets.{HasSlotsIn, LeafIn};
ghost use Rattle.zst_traverse.specs.Cells.{choice_after};
ghost use Rattle.zst_traverse.specs.Leaves.{AheadFits, GoesOn, IsFromIn, IsFromUpTo, LooksTightly, PassesHole, ShowsAhead, StandsFor, StandsTightly};
ghost use Rattle.zst_traverse.specs.StandingEntries.{AheadStands};
ghost use Rattle.zst_traverse.specs.WalkCalls.{IsOfWalk};
ghost use Rattle.zst_objset.specs.Dnodes.{outside};

use crate::dates::is_after;
use crate::objects::judged;
use crate::slots::{Glance, glance_at};
use crate::walk_entry::WalkEntry;
use std::sync::ledger::Ledger;
use zst_block::{BlockFault, Io, Ptr};
use zst_model::limits::NUMBER_BOUND;
use zst_objset::load_slots;
use zst_outside::Disk;
use zst_tree::{Steps, Tree, tick};

/// A leaf of a set: its index, its pointer, and for how many indices from it on the pointer stands.
#[derive(Clone, Copy)]
pub(crate) struct Leaf {
    pub index: u64,
    pub ptr: Ptr,
    pub count: u64,
}

/// What a look from a number on shows.
#[derive(Clone, Copy)]
pub(crate) enum WalkStep {
    /// The first included number.
    Next(WalkEntry),
    /// That there is none below a number.
    Nothing { below: u64 },
}

/// The leaf of an index.
pub(crate) fn leaf_at<D: Disk, L: Ledger>(
    io: &mut Io<'_, D>,
    tree: &Tree,
    index: u64,
    steps: &mut Steps<L>,
) -> Result<Leaf, BlockFault>
    requires levels { tree.now.levels ≤ 7 }
    requires index { index < 2 ^ 44 }
    ensures shows { (map : Map) → IsHonest io.new → TreeIs (blocks_of io.old) tree.now map → Delivers (λ leaf. Shows map index (leaf.ptr, leaf.count)) result }
    ensures index { IfOk result (λ leaf. leaf.index ≡ index) }
    ensures range { IfOk result (λ leaf. (0 < leaf.count) × (index + leaf.count ≤ 2 ^ 49)) }
    ensures hangs { IsHonest io.new → IfOk result (λ leaf. HangsIn (MayHave (IsSeen (disk_of io.old).seen)) tree.now leaf.ptr) }
    ensures damaged { IsHonest io.new → NamesDamage (IsSeen (disk_of io.old).seen) (disk_of io.old).size NamesNode tree.now.levels tree.now.root result }
    ensures looks { LooksInSteps 7 (io_of io.old) (io_of io.new) (stop_of result) steps.old steps.new }
{
    let (ptr, count) = tree.get(io, index, steps)?;
    Ok(Leaf { index, ptr, count })
}

/// Loads the slots of a leaf into the node, as one step.
pub(crate) fn load_leaf<D: Disk, L: Ledger>(
    io: &mut Io<'_, D>,
    leaf: &Leaf,
    steps: &mut Steps<L>,
) -> Result<(), BlockFault>
    requires index { leaf.now.index < 2 ^ 44 }
    ensures slots { (snap : DatedState) (pairs : Pairs) → IsHonest io.new → LeafIn (blocks_of io.old) (outside pairs (blocks_of io.old)) snap leaf.now.index leaf.now.ptr
        → Delivers (λ done. HasSlotsIn (blocks_of io.old) (outside pairs (blocks_of io.old)) snap leaf.now.index io.new.node) result }
    ensures loaded { IsHonest io.new → OnOk result (IsLoaded (IsSeen (disk_of io.old).seen) leaf.now.ptr io.new.node) }
    ensures damaged { IsHonest io.new → IfDamaged result (IsDamagedLeaf (IsSeen (disk_of io.old).seen) (disk_of io.old).size leaf.now.ptr) }
    ensures looks { LooksInSteps 1 (io_of io.old) (io_of io.new) (stop_of result) steps.old steps.new }
    ensures steps { steps.new ≡ steps.old + 1 }
{
    tick(steps);
    load_slots(io, leaf.ptr, leaf.index)
}

// What a hole in place of leaves shows from a number on: their numbers are absent since its date.
fn in_hole(leaf: &Leaf, source: Option<u64>, from: u64) -> WalkStep
    requires leaf { IsFromUpTo from leaf.now }
    ensures shows { (snap : DatedState) (pairs : Pairs) (image : List ℕ) (space : FreeSectors) → leaf.now.ptr.kind ≡ 0 → StandsFor (Has image space) (outside pairs (Has image space)) snap leaf.now → ShowsAhead (Has image space) (outside pairs (Has image space)) snap (choice_after source) from result }
    ensures passes { PassesHole leaf.now source from result }
    ensures stands { (seen : List ℕ) (set : ObjSet) → AheadStands (IsSeen seen) set result }
{
    let below = NUMBER_BOUND.min(16 * (leaf.index + leaf.count));
    if from < below && is_after(source, leaf.ptr.number) {
        let count = below - from;
        WalkStep::Next(WalkEntry::Gone { first: from, count })
    } else {
        WalkStep::Nothing { below }
    }
}

/// Looks at a leaf from a number on, or at the run of leaves that a hole stands for.
pub(crate) fn look<D: Disk, L: Ledger>(
    io: &mut Io<'_, D>,
    leaf: &Leaf,
    source: Option<u64>,
    from: u64,
    steps: &mut Steps<L>,
) -> Result<WalkStep, BlockFault>
    requires leaf { IsFromIn from leaf.now }
    ensures shows { (snap : DatedState) (pairs : Pairs) → IsHonest io.new → StandsFor (blocks_of io.old) (outside pairs (blocks_of io.old)) snap leaf.now
        → Delivers (ShowsAhead (blocks_of io.old) (outside pairs (blocks_of io.old)) snap (choice_after source) from) result }
    ensures ranges { IfOk result (AheadFits from) }
    ensures goes_on { from < 16 * leaf.now.index + 16 → IfOk result (GoesOn from) }
    ensures of_walk { (set : ObjSet) → IsHonest io.new → HangsIn (MayHave (IsSeen (disk_of io.old).seen)) set.tree leaf.now.ptr → IsOfWalk (disk_of io.old).seen (disk_of io.old).size set result (λ images. AheadStands images set) }

    // In a tight leaf an object that may be included is.
    ensures tightly { (snap : DatedState) (pairs : Pairs) → IsHonest io.new → StandsTightly (blocks_of io.old) (outside pairs (blocks_of io.old)) snap leaf.now
        → LooksTightly leaf.now source from steps.old steps.new result }
    ensures looks { LooksInSteps 14 (io_of io.old) (io_of io.new) (stop_of result) steps.old steps.new }
{
    if leaf.ptr.kind == 0 {
        return Ok(in_hole(leaf, source, from));
    }
    load_leaf(io, leaf, steps)?;
    let place = (from - 16 * leaf.index) as usize;
    match glance_at(&io.node, source, leaf.index, place) {
        None => Err(BlockFault::of_layout(&leaf.ptr)),
        Some(Glance::Nothing) => Ok(WalkStep::Nothing {
            below: 16 * leaf.index + 16,
        }),
        Some(Glance::Absent { first, count }) => Ok(WalkStep::Next(WalkEntry::Gone {
            first,
            count,
        })),
        Some(Glance::There { place, dnode }) => {
            judged(io, 16 * leaf.index + place as u64, dnode, source, steps)
        }
    }
}
