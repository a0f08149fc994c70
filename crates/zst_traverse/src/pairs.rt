//! The search for the first included indices of an object.
ghost use Rattle.std.specs.Prelude.{◌≡◌, ◌↔◌, ◌+◌, ◌*◌, ◌<◌, ◌≤◌, true, ℕ, Bool, false, IfOk, IfSome};
ghost use Rattle.zst_block.specs.IoStates.{IsHonest, blocks_of, disk_of, io_of};
ghost use Rattle.zst_block.specs.IoCalls.{stop_of};
ghost use Rattle.zst_dnode.specs.Dnode.{DnodeFits};
ghost use Rattle.zst_model.specs.states.DatedState.{DatedState};
ghost use Rattle.zst_tree.specs.Damage.{IsSeen};
ghost use Rattle.zst_tree.specs.Indices.{Delivers, Map};
ghost use Rattle.zst_tree.specs.declared.tree.ObjSet.{ObjSet};
ghost use Rattle.zst_tree.specs.Steps.{LooksInSteps};
ghost use Rattle.zst_objset.specs.Damage.{StandsIn};
ghost use Rattle.zst_objset.specs.Dnodes.{IsThereIn, ObjectIn, outside};
ghost use Rattle.zst_model.specs.fields.Lists.{has_pair};
ghost use Rattle.zst_model.specs.states.State.{IsObject, IsState, Object};
ghost use Rattle.zst_traverse.specs.Cells.{choice_with};
ghost use Rattle.zst_traverse.specs.Runs.{outside_indices, cell_of, count_of, FindsIn, FindsPairs, IsRun, RunFits, SearchesIn, TakesTurn, TellsWithheld};
ghost use Rattle.zst_traverse.specs.StandingEntries.{RunStands};
ghost use Rattle.zst_traverse.specs.WalkCalls.{IsOfWalk};

use crate::dates::next_late;
use std::sync::ledger::Ledger;
use zst_block::{BlockFault, Io, Ptr};
use zst_dnode::Dnode;
use zst_model::{Cell, List, Point};
use zst_objset::tree_of;
use zst_outside::Disk;
use zst_tree::Steps;

/// So many indices that are alike.
#[derive(Clone, Copy)]
pub(crate) struct Run {
    pub first: u64,
    pub count: u64,
    pub what: Cell,
    pub ptr: Ptr,
}

// The first index whose place is at or past an offset.
fn first_index(offset: u64, block_size: u32) -> u64
    requires { 0 < block_size }
    ensures { (i : ℕ) → offset ≤ i * block_size ↔ result ≤ i }
{
    offset.div_ceil(u64::from(block_size))
}

// What a pointer in the tree of an object whose blocks have this size stands for; none of the
// layout where there is no such.
fn cell_of(ptr: &Ptr, size: u32) -> Option<Cell>
    ensures { result ≡ cell_of ptr.now size }
{
    match ptr.kind {
        0 => Some(Cell::Hole),
        1 if ptr.length == size => Some(Cell::Data),
        2 => Some(Cell::Redacted),
        _ => None,
    }
}

// How many indices are told of so many that are alike, where so many are left below the end.
#[tactic(auto, unfolding(crate::specs::Runs::count_of))]
fn count_of(what: Cell, alike: u64, left: u64) -> u64
    ensures { result ≡ count_of what alike left }
{
    match what {
        Cell::Data => 1,
        Cell::Hole => alike.min(left),
        Cell::Redacted => alike.min(left),
    }
}

// The indices from one on and below the end of an object that are like it.
#[tactic(auto, unfolding(zst_model::specs::states::State::index_bound))]
fn run_at<D: Disk, L: Ledger>(
    io: &mut Io<'_, D>,
    dnode: &Dnode,
    index: u64,
    steps: &mut Steps<L>,
) -> Result<Run, BlockFault>
    requires dnode { DnodeFits dnode.now }
    requires index { index < dnode.now.end }
    ensures run { (object : Object) (date : ℕ) (dates : ℕ → ℕ) (map : Map) (withheld : ℕ → Bool) → IsHonest io.new → IsObject object → withheld index ≡ false
        → ObjectIn (blocks_of io.old) (outside_indices withheld (blocks_of io.old)) dnode.now object date dates map
        → Delivers (IsRun (blocks_of io.old) withheld object dates index) result }
    ensures ranges { IfOk result (RunFits index dnode.now.end) }
    ensures of_walk { (set : ObjSet) → IsHonest io.new → StandsIn (IsSeen (disk_of io.old).seen) set dnode.now → IsOfWalk (disk_of io.old).seen (disk_of io.old).size set result (λ images. RunStands images set) }
    ensures looks { LooksInSteps 7 (io_of io.old) (io_of io.new) (stop_of result) steps.old steps.new }
{
    let (ptr, alike) = tree_of(dnode).get(io, index, steps)?;
    let Some(what) = cell_of(&ptr, dnode.block_size) else {
        return Err(BlockFault::of_layout(&ptr));
    };
    let count = count_of(what, alike, dnode.end - index);
    Ok(Run {
        first: index,
        count,
        what,
        ptr,
    })
}

/// What comes next of an object's indices.
#[derive(Clone, Copy, Debug)]
pub(crate) struct Turn {
    pub index: u64,
    /// So many from it on may be told with it.
    pub most: u64,
    /// Its block is withheld, and isn't read.
    pub is_withheld: bool,
}

// The first index of an object in a list, from one on and below another.
pub(crate) fn next_in(list: &List, object: u64, from: u64, below: u64) -> Option<u64>
    ensures { FindsIn (has_pair list.now object) from below result }
{
    match list.next_from(object, from) {
        Some((number, index)) if number == object && index < below => Some(index),
        _ => None,
    }
}

// The first of three indices, where each is the first of its own test from one on and below another.
fn first_turn(
    late: Option<u64>,
    listed: Option<u64>,
    withheld: Option<u64>,
    below: u64,
) -> Option<Turn>
    ensures ranges { IfSome result (λ turn. (0 < turn.most) × (turn.index + turn.most ≤ below)) }
    ensures turn { (is_late is_listed is_withheld : ℕ → Bool) (from : ℕ) → FindsIn is_late from below late → FindsIn is_listed from below listed → FindsIn is_withheld from below withheld
        → TakesTurn is_late is_listed is_withheld from below result }
{
    let first = late.unwrap_or(below).min(listed.unwrap_or(below));
    let first_withheld = withheld.unwrap_or(below).min(below);
    if first_withheld < below && first_withheld <= first {
        return Some(Turn {
            index: first_withheld,
            most: 1,
            is_withheld: true,
        });
    }
    if first >= below {
        return None;
    }
    let most = if late == Some(first) {
        first_withheld - first
    } else {
        1
    };
    Some(Turn {
        index: first,
        most,
        is_withheld: false,
    })
}
/// The first included indices of an object at or past an offset: those that are dated after the source, or
/// stand in the source's list, or in that of the withheld pairs, whose blocks aren't read.
#[tactic(auto, unfolding(zst_model::specs::states::State::index_bound))]
pub(crate) fn next_pairs<D: Disk, L: Ledger>(
    io: &mut Io<'_, D>,
    dnode: &Dnode,
    source: Option<u64>,
    listed: &List,
    withheld: &List,
    point: Point,
    steps: &mut Steps<L>,
) -> Result<Option<Run>, BlockFault>
    requires dnode { DnodeFits dnode.now }
    ensures found { (snap : DatedState) → IsHonest io.new → IsState snap.state
        → IsThereIn (blocks_of io.old) (outside (has_pair withheld.now) (blocks_of io.old)) snap point.object dnode.now
        → Delivers (FindsPairs (blocks_of io.old) snap (choice_with source listed.now withheld.now) point) result }
    ensures ranges { IfOk result (λ found. IfSome found (RunFits 0 dnode.now.end)) }
    ensures of_walk { (set : ObjSet) → IsHonest io.new → StandsIn (IsSeen (disk_of io.old).seen) set dnode.now → IsOfWalk (disk_of io.old).seen (disk_of io.old).size set result (λ images found. IfSome found (RunStands images set)) }
    ensures steps { SearchesIn 20 13 (io_of io.old) (io_of io.new) result steps.old steps.new }
{
    let from = first_index(point.offset, dnode.block_size);
    let late = next_late(io, &tree_of(dnode), source, from, dnode.end, steps)?;
    let in_listed = next_in(listed, point.object, from, dnode.end);
    let in_withheld = next_in(withheld, point.object, from, dnode.end);
    match first_turn(late, in_listed, in_withheld, dnode.end) {
        None => Ok(None),
        Some(turn) => {
            let run = run_of(io, dnode, turn, steps)?;
            Ok(Some(run))
        }
    }
}

// What is told of the index whose turn it is, and of as many behind it as are like it.
#[tactic(auto, unfolding(zst_model::specs::states::State::index_bound))]
fn run_of<D: Disk, L: Ledger>(
    io: &mut Io<'_, D>,
    dnode: &Dnode,
    turn: Turn,
    steps: &mut Steps<L>,
) -> Result<Run, BlockFault>
    requires dnode { DnodeFits dnode.now }
    requires turn { (0 < turn.most) × (turn.index + turn.most ≤ dnode.now.end) }
    ensures withheld { turn.is_withheld ≡ true → TellsWithheld turn result × ((disk_of io.new).calls ≤ (disk_of io.old).calls) }
    ensures run { (object : Object) (date : ℕ) (dates : ℕ → ℕ) (map : Map) (withheld : ℕ → Bool) → IsHonest io.new → IsObject object → turn.is_withheld ≡ false → withheld turn.index ≡ false
        → ObjectIn (blocks_of io.old) (outside_indices withheld (blocks_of io.old)) dnode.now object date dates map
        → Delivers (λ run. IsRun (blocks_of io.old) withheld object dates turn.index run × (run.count ≤ turn.most)) result }
    ensures ranges { IfOk result (RunFits turn.index dnode.now.end) }
    ensures of_walk { (set : ObjSet) → IsHonest io.new → StandsIn (IsSeen (disk_of io.old).seen) set dnode.now → IsOfWalk (disk_of io.old).seen (disk_of io.old).size set result (λ images. RunStands images set) }
    ensures looks { LooksInSteps 7 (io_of io.old) (io_of io.new) (stop_of result) steps.old steps.new }
{
    if turn.is_withheld {
        return Ok(Run {
            first: turn.index,
            count: 1,
            what: Cell::Redacted,
            ptr: Ptr::hole(0),
        });
    }
    let run = run_at(io, dnode, turn.index, steps)?;
    Ok(Run {
        count: run.count.min(turn.most),
        ..run
    })
}
