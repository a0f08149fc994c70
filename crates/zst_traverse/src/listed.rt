//! The first included number, where a list's pairs include numbers too.
ghost use Rattle.std.specs.Prelude.{◌≡◌, ◌+◌, ◌^◌, ◌<◌, ◌≤◌, ◌||◌, true, false, ℕ, IfOk, IfSome};
ghost use Rattle.zst_block.specs.IoStates.{IsHonest, blocks_of, disk_of, io_of};
ghost use Rattle.zst_block.specs.IoCalls.{stop_of};
ghost use Rattle.zst_dnode.specs.Dnode.{DnodeFits};
ghost use Rattle.zst_model.specs.fields.Lists.{has_pair};
ghost use Rattle.zst_model.specs.states.DatedState.{DatedState};
ghost use Rattle.zst_tree.specs.Damage.{HangsIn, IsSeen, MayHave};
ghost use Rattle.zst_tree.specs.Indices.{Delivers};
ghost use Rattle.zst_tree.specs.Steps.{LooksBySteps, LooksInSteps};
ghost use Rattle.zst_objset.specs.Damage.{StandsIn};
ghost use Rattle.zst_objset.specs.Dnodes.{outside};
ghost use Rattle.zst_objset.specs.Sets.{SetHoldsBut};
ghost use Rattle.zst_traverse.specs.Cells.{choice_with};
ghost use Rattle.zst_traverse.specs.WalkCalls.{IsOfWalk};
ghost use Rattle.zst_traverse.specs.Leaves.{FindsNumber, HoldsLeaf, HoldsTightLeaf, IsFromIn, NumberFits};
ghost use Rattle.zst_traverse.specs.ListedNumbers.{AreIncluded, FindsListed, FindsObject, FindsOf, first_found, IsListedBelow, or_below};
ghost use Rattle.zst_traverse.specs.StandingEntries.{FoundStands};

use crate::cells::dnode_in;
use crate::leaves::{Leaf, leaf_at};
use crate::number_search::next_number;
use crate::pairs::next_in;
use crate::walk_entry::WalkEntry;
use std::sync::ledger::Ledger;
use zst_block::{BlockFault, Io};
use zst_dnode::Dnode;
use zst_model::List;
use zst_model::limits::NUMBER_BOUND;
use zst_outside::Disk;
use zst_tree::{ObjSet, Steps};

// The first number from one on of which a list has a pair.
fn first_of(list: &List, from: u64) -> Option<u64>
    ensures first { FindsOf list.now from result }
{
    list.next_from(from, 0).map(|(number, _)| number)
}

fn or_below(found: Option<u64>, below: u64) -> u64
    ensures { result ≡ or_below below found }
{
    match found {
        Some(number) => number.min(below),
        None => below,
    }
}

// The first number from one on and below another of which one of two lists has a pair.
fn next_of(listed: &List, withheld: &List, from: u64, below: u64) -> Option<u64>
    ensures first { FindsListed listed.now withheld.now from below result }
{
    let one = first_of(listed, from);
    let other = first_of(withheld, from);
    let first = or_below(one, below).min(or_below(other, below));
    if first < below { Some(first) } else { None }
}

// Whether one of two lists has a pair of an object below an end.
fn is_listed(listed: &List, withheld: &List, object: u64, end: u64) -> bool
    ensures some { result ≡ true → IsListedBelow listed.now withheld.now object end }
    ensures none { result ≡ false → (i : ℕ) → i < end → (has_pair listed.now object i || has_pair withheld.now object i) ≡ false }
{
    next_in(listed, object, 0, end).is_some() || next_in(withheld, object, 0, end).is_some()
}

// The object of a number, where a list has a pair of it below its end.
fn listed_object<D: Disk, L: Ledger>(
    io: &mut Io<'_, D>,
    set: &ObjSet,
    listed: &List,
    withheld: &List,
    number: u64,
    steps: &mut Steps<L>,
) -> Result<Option<Dnode>, BlockFault>
    requires levels { set.now.tree.levels ≤ 7 }
    requires number { (0 < number) × (number < 2 ^ 48) }
    ensures found { (snap : DatedState) → IsHonest io.new → SetHoldsBut (blocks_of io.old) (has_pair withheld.now) set.now snap
        → Delivers (FindsObject (blocks_of io.old) (outside (has_pair withheld.now) (blocks_of io.old)) snap listed.now withheld.now number) result }
    ensures ranges { IfOk result (λ found. IfSome found DnodeFits) }
    ensures of_walk { IsHonest io.new → IsOfWalk (disk_of io.old).seen (disk_of io.old).size set.now result (λ images found. IfSome found (StandsIn images set.now)) }
    ensures looks { LooksInSteps 8 (io_of io.old) (io_of io.new) (stop_of result) steps.old steps.new }
{
    let leaf = leaf_at(io, &set.tree, number / 16, steps)?;
    match dnode_in(io, &leaf, number, steps)? {
        None => Ok(None),
        Some(dnode) => {
            if is_listed(listed, withheld, number, dnode.end) {
                Ok(Some(dnode))
            } else {
                Ok(None)
            }
        }
    }
}

// The number at which what is found begins.
fn first_found(found: &Option<WalkEntry>) -> u64
    ensures { result ≡ first_found found.now }
{
    match found {
        None => NUMBER_BOUND,
        Some(WalkEntry::Object { number, .. }) => *number,
        Some(WalkEntry::Gone { first, .. }) => *first,
        Some(WalkEntry::Pairs { object, .. }) => *object,
    }
}

/// The first included number from one on, which stands in the leaf or at which it ends: a number is
/// included by a date or by a list's pair.
pub(crate) fn next_listed<D: Disk, L: Ledger>(
    io: &mut Io<'_, D>,
    set: &ObjSet,
    source: Option<u64>,
    listed: &List,
    withheld: &List,
    leaf: &Leaf,
    from: u64,
    steps: &mut Steps<L>,
) -> Result<Option<WalkEntry>, BlockFault>
    requires levels { set.now.tree.levels ≤ 7 }
    requires leaf { IsFromIn from leaf.now }
    ensures found { (snap : DatedState) → IsHonest io.new → HoldsLeaf (blocks_of io.old) (outside (has_pair withheld.now) (blocks_of io.old)) set.now snap leaf.now
        → Delivers (FindsNumber (blocks_of io.old) (outside (has_pair withheld.now) (blocks_of io.old)) snap (choice_with source listed.now withheld.now) from) result }
    ensures ranges { IfOk result (λ found. IfSome found (NumberFits from)) }
    ensures of_walk { IsHonest io.new → HangsIn (MayHave (IsSeen (disk_of io.old).seen)) set.now.tree leaf.now.ptr → IsOfWalk (disk_of io.old).seen (disk_of io.old).size set.now result (λ images found. IfSome found (FoundStands images set.now)) }
    ensures looks { LooksBySteps (io_of io.old) (io_of io.new) (stop_of result) steps.old steps.new }
    ensures few { (snap : DatedState) → IsHonest io.new → HoldsTightLeaf (blocks_of io.old) (outside (has_pair withheld.now) (blocks_of io.old)) set.now snap leaf.now
        → AreIncluded snap (choice_with source listed.now withheld.now) listed.now withheld.now → steps.new ≤ steps.old + 43 }
{
    let by_date = next_number(io, set, source, leaf, from, steps)?;
    let below = first_found(&by_date);
    let mut at = from;
    while let Some(number) = next_of(listed, withheld, at, below) {
        match listed_object(io, set, listed, withheld, number, steps)? {
            Some(dnode) => return Ok(Some(WalkEntry::Object { number, dnode })),
            None => at = number + 1,
        }
    }
    Ok(by_date)
}
