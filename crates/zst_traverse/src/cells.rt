//! The first included number or index at or after a point.
ghost use Rattle.std.specs.Prelude.{◌≡◌, ◌⊎◌, ◌+◌, ◌*◌, ◌/◌, ◌^◌, ◌<◌, ◌≤◌, false, true, IfOk, IfSome, Some};
ghost use Rattle.zst_block.specs.IoStates.{IsHonest, blocks_of, disk_of, io_of};
ghost use Rattle.zst_block.specs.IoCalls.{stop_of};
ghost use Rattle.zst_dnode.specs.Dnode.{DnodeFits};
ghost use Rattle.zst_model.specs.states.DatedState.{DatedState};
ghost use Rattle.zst_model.specs.states.State.{IsState};
ghost use Rattle.zst_tree.specs.Damage.{HangsIn, IsSeen, MayHave};
ghost use Rattle.zst_tree.specs.Indices.{Delivers};
ghost use Rattle.zst_tree.specs.declared.tree.ObjSet.{ObjSet};
ghost use Rattle.zst_tree.specs.Steps.{LooksBySteps, LooksInSteps};
ghost use Rattle.zst_objset.specs.Damage.{StandsIn};
ghost use Rattle.zst_objset.specs.Dnodes.{DnodeIn, outside};
ghost use Rattle.zst_objset.specs.Sets.{LeafIn, SetHoldsBut};
ghost use Rattle.zst_traverse.specs.Cells.{choice_with, FoundFits, IsNextCellIn};
ghost use Rattle.zst_traverse.specs.Leaves.{HoldsLeaf, HoldsTightLeaf};
ghost use Rattle.zst_traverse.specs.Runs.{FindsPairs, RunFits, SearchesIn};
ghost use Rattle.zst_traverse.specs.StandingEntries.{FoundStands, RunStands};
ghost use Rattle.zst_traverse.specs.WalkCalls.{IsOfWalk};
ghost use Rattle.zst_objset.specs.TightSets.{SetIsTightIn};
ghost use Rattle.zst_model.specs.sends.Inclusion.{Pairs};
ghost use Rattle.zst_model.specs.fields.Lists.{has_pair};
ghost use Rattle.zst_traverse.specs.ListedNumbers.{AreIncluded};

use crate::leaves::{Leaf, leaf_at, load_leaf};
use crate::listed::next_listed;
use crate::pairs::{Run, next_pairs};
use crate::walk_entry::WalkEntry;
use std::sync::ledger::Ledger;
use zst_block::{BlockFault, Io};
use zst_dnode::{Dnode, Slot};
use zst_model::limits::NUMBER_BOUND;
use zst_model::{List, Point};
use zst_outside::Disk;
use zst_tree::{ObjSet, Steps};

// The dnode of a number, in its leaf.
pub(crate) fn dnode_in<D: Disk, L: Ledger>(
    io: &mut Io<'_, D>,
    leaf: &Leaf,
    number: u64,
    steps: &mut Steps<L>,
) -> Result<Option<Dnode>, BlockFault>
    requires number { (0 < number) × (number < 2 ^ 48) × (leaf.now.index ≡ number / 16) }
    ensures found { (snap : DatedState) (pairs : Pairs) → IsHonest io.new → LeafIn (blocks_of io.old) (outside pairs (blocks_of io.old)) snap leaf.now.index leaf.now.ptr
        → Delivers (DnodeIn (blocks_of io.old) (outside pairs (blocks_of io.old)) snap number) result }
    ensures ranges { IfOk result (λ found. IfSome found DnodeFits) }
    ensures of_walk { (set : ObjSet) → IsHonest io.new → HangsIn (MayHave (IsSeen (disk_of io.old).seen)) set.tree leaf.now.ptr → IsOfWalk (disk_of io.old).seen (disk_of io.old).size set result (λ images found. IfSome found (StandsIn images set)) }
    ensures looks { LooksInSteps 1 (io_of io.old) (io_of io.new) (stop_of result) steps.old steps.new }
{
    if leaf.ptr.kind == 0 {
        return Ok(None);
    }
    load_leaf(io, leaf, steps)?;
    let place = (number % 16) as usize;
    match Slot::get(io.node.as_slice(), 512 * place) {
        Some(Slot::There(dnode)) => Ok(Some(dnode)),
        Some(Slot::Absent { .. }) => Ok(None),
        None => Err(BlockFault::of_layout(&leaf.ptr)),
    }
}

// The first included indices of the point's object, in its leaf.
fn own_pairs<D: Disk, L: Ledger>(
    io: &mut Io<'_, D>,
    leaf: &Leaf,
    source: Option<u64>,
    listed: &List,
    withheld: &List,
    point: Point,
    steps: &mut Steps<L>,
) -> Result<Option<Run>, BlockFault>
    requires object { (0 < point.object) × (point.object < 2 ^ 48) × (leaf.now.index ≡ point.object / 16) }
    ensures found { (snap : DatedState) → IsHonest io.new → IsState snap.state → LeafIn (blocks_of io.old) (outside (has_pair withheld.now) (blocks_of io.old)) snap leaf.now.index leaf.now.ptr
        → Delivers (FindsPairs (blocks_of io.old) snap (choice_with source listed.now withheld.now) point) result }
    ensures ranges { IfOk result (λ found. IfSome found (RunFits 0 (2 ^ 43))) }
    ensures of_walk { (set : ObjSet) → IsHonest io.new → HangsIn (MayHave (IsSeen (disk_of io.old).seen)) set.tree leaf.now.ptr → IsOfWalk (disk_of io.old).seen (disk_of io.old).size set result (λ images found. IfSome found (RunStands images set)) }
    ensures steps { SearchesIn 21 14 (io_of io.old) (io_of io.new) result steps.old steps.new }
{
    match dnode_in(io, leaf, point.object, steps)? {
        None => Ok(None),
        Some(dnode) => next_pairs(io, &dnode, source, listed, withheld, point, steps),
    }
}

// What a run of indices is told as.
fn told(object: u64, run: Run) -> WalkEntry
    ensures { result ≡ WalkEntry.Pairs object run.first run.count run.what run.ptr }
{
    WalkEntry::Pairs {
        object,
        first: run.first,
        count: run.count,
        what: run.what,
        ptr: run.ptr,
    }
}

// The first included index of the point's object, or else the first included number behind it.
fn behind_slot<D: Disk, L: Ledger>(
    io: &mut Io<'_, D>,
    set: &ObjSet,
    leaf: &Leaf,
    source: Option<u64>,
    listed: &List,
    withheld: &List,
    point: Point,
    steps: &mut Steps<L>,
) -> Result<Option<WalkEntry>, BlockFault>
    requires levels { set.now.tree.levels ≤ 7 }
    requires object { (0 < point.object) × (point.object < 2 ^ 48) × (leaf.now.index ≡ point.object / 16) }
    requires count { (0 < leaf.now.count) × (leaf.now.index + leaf.now.count ≤ 2 ^ 49) }
    ensures found { (snap : DatedState) → IsHonest io.new → HoldsLeaf (blocks_of io.old) (outside (has_pair withheld.now) (blocks_of io.old)) set.now snap leaf.now
        → Delivers (IsNextCellIn (blocks_of io.old) (outside (has_pair withheld.now) (blocks_of io.old)) snap (choice_with source listed.now withheld.now) point false) result }
    ensures ranges { IfOk result (λ found. IfSome found (FoundFits point)) }
    ensures of_walk { IsHonest io.new → HangsIn (MayHave (IsSeen (disk_of io.old).seen)) set.now.tree leaf.now.ptr → IsOfWalk (disk_of io.old).seen (disk_of io.old).size set.now result (λ images found. IfSome found (FoundStands images set.now)) }
    ensures looks { LooksBySteps (io_of io.old) (io_of io.new) (stop_of result) steps.old steps.new }
    ensures few { (snap : DatedState) → IsHonest io.new → HoldsTightLeaf (blocks_of io.old) (outside (has_pair withheld.now) (blocks_of io.old)) set.now snap leaf.now
        → AreIncluded snap (choice_with source listed.now withheld.now) listed.now withheld.now → steps.new ≤ steps.old + 57 }
{
    match own_pairs(io, leaf, source, listed, withheld, point, steps)? {
        Some(run) => Ok(Some(told(point.object, run))),
        None => next_listed(
            io,
            set,
            source,
            listed,
            withheld,
            leaf,
            point.object + 1,
            steps,
        ),
    }
}

// Whether a point's own number is passed over, whose indices come next. No object has the number 0.
fn is_passed(point: Point, slot: bool) -> bool
    ensures passed { result ≡ true → (slot ≡ false) × (0 < point.object) }
    ensures judged { result ≡ false → (slot ≡ true) ⊎ (point.object ≡ 0) }
{
    !slot && point.object > 0
}

/// The first included number or pair at or after a point, of a set whose numbers and pairs are
/// included where they are dated after a source, or stand in the source's list, or in that of the
/// withheld pairs, which are told as redacted and whose blocks aren't read. The point's own number
/// comes first where `slot` is true and is passed over where it is false; its indices count from the
/// point's offset.
pub fn next_cell<D: Disk, L: Ledger>(
    io: &mut Io<'_, D>,
    set: &ObjSet,
    from: Option<u64>,
    listed: &List,
    withheld: &List,
    point: Point,
    slot: bool,
    steps: &mut Steps<L>,
) -> Result<Option<WalkEntry>, BlockFault>
    // Of a set that holds a state, but for the blocks of the withheld pairs, what is found is next there, and no damage is told.
    ensures found { (snap : DatedState) → IsHonest io.new → SetHoldsBut (blocks_of io.old) (has_pair withheld.now) set.now snap
        → Delivers (IsNextCellIn (blocks_of io.new) (outside (has_pair withheld.now) (blocks_of io.new)) snap (choice_with from listed.now withheld.now) point slot) result }

    // Whatever the image, what is found is in its range and stands in the set, and damage is told of a block of the walk.
    ensures ranges { IfOk result (λ found. IfSome found (FoundFits point)) }
    ensures of_walk { IsHonest io.new → IsOfWalk (disk_of io.old).seen (disk_of io.old).size set.now result (λ images found. IfSome found (FoundStands images set.now)) }

    // It only reads, a block each step, and of a set whose slots are tight at most 64, where each number that a list has a pair of is included.
    ensures looks { LooksBySteps (io_of io.old) (io_of io.new) (stop_of result) steps.old steps.new }
    ensures few { (snap : DatedState) → IsHonest io.new → SetIsTightIn (blocks_of io.old) (outside (has_pair withheld.now) (blocks_of io.old)) set.now snap
        → AreIncluded snap (choice_with from listed.now withheld.now) listed.now withheld.now → steps.new ≤ steps.old + 64 }
{
    if set.tree.levels > 7 {
        return Err(BlockFault::of_layout(&set.tree.root));
    }
    if point.object >= NUMBER_BOUND {
        return Ok(None);
    }
    let leaf = leaf_at(io, &set.tree, point.object / 16, steps)?;
    if is_passed(point, slot) {
        behind_slot(io, set, &leaf, from, listed, withheld, point, steps)
    } else {
        let number = point.object.max(1);
        next_listed(io, set, from, listed, withheld, &leaf, number, steps)
    }
}
