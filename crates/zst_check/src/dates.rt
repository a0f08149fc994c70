// Part 2 of soundness, of dates.
ghost use Rattle.std.specs.Prelude.{◌≡◌, ◌<◌, ◌≤◌, ℕ, All, IfOk, [], true, Some, None};
ghost use Rattle.zst_block.specs.IoCalls.{Looks, stop_of};
ghost use Rattle.zst_block.specs.IoStates.{IsHonest, blocks_of, disk_of, io_of};
ghost use Rattle.zst_image.specs.Reads.{RunsBy};
ghost use Rattle.zst_model.specs.pools.Pool.{Pool};
ghost use Rattle.zst_model.specs.pools.Rows.{rows};
ghost use Rattle.zst_model.specs.pools.Soundness.{DatedUpTo};
ghost use Rattle.zst_model.specs.sends.Inclusion.{includes_number};
ghost use Rattle.zst_model.specs.states.DatedState.{DatedState};
ghost use Rattle.zst_objset.specs.Damage.{IfDamaged, StandsIn};
ghost use Rattle.zst_objset.specs.Dnodes.{IsThere};
ghost use Rattle.zst_objset.specs.Sets.{SetHolds};
ghost use Rattle.zst_traverse.specs.Cells.{choice_after};
ghost use Rattle.zst_traverse.specs.Damage.{IsDamagedCell};
ghost use Rattle.zst_tree.specs.Damage.{IsSeen};
ghost use Rattle.zst_tree.specs.Indices.{Delivers};
ghost use Rattle.zst_tree.specs.declared.tree.ObjSet.{ObjSet};
ghost use Rattle.zst_check.specs.Damage.{IsDamagedInStates};
ghost use Rattle.zst_check.specs.FailingPlaces.{LateDate};
ghost use Rattle.zst_check.specs.Findings.{Finds, FindsLate};
ghost use Rattle.zst_check.specs.ReportNames.{FindsNamed};

use crate::names::alone;
use crate::report::Report;
use crate::states::state_at;
use std::alloc::Global;
use std::marker::Brand;
use std::sync::ledger::{Blank, Ledger};
use zst_block::{BlockFault, Io};
use zst_dir::Dir;
use zst_dnode::Dnode;
use zst_model::limits::INDEX_BOUND;
use zst_model::{List, Point};
use zst_objset::tree_of;
use zst_outside::Disk;
use zst_traverse::{WalkEntry, next_cell};
use zst_tree::{ObjSet, Steps};

// What is dated after a number in an object that has something so: the number itself, or an index.
fn late_block<D: Disk, L: Ledger>(
    io: &mut Io<'_, D>,
    dnode: &Dnode,
    number: u64,
    steps: &mut Steps<L>,
) -> Result<u64, BlockFault>
    requires levels { dnode.now.levels ≤ 7 }
    ensures late { (state : DatedState) (object : ℕ) → IsHonest io.new → IsThere (blocks_of io.old) state object dnode.now
        → includes_number state (choice_after (Some number)) object ≡ true → Delivers (λ block. FindsLate number state (Some (object, block))) result }
    ensures damaged { (set : ObjSet) → IsHonest io.new → StandsIn (IsSeen (disk_of io.old).seen) set dnode.now → IfDamaged result (IsDamagedCell (IsSeen (disk_of io.old).seen) (disk_of io.old).size set) }
    ensures looks { Looks (io_of io.old) (io_of io.new) (stop_of result) }
{
    if dnode.date > number {
        return Ok(INDEX_BOUND);
    }
    let index = tree_of(dnode).next_after(io, 0, INDEX_BOUND, number, steps)?;
    // The walk found the object by such an index.
    Ok(index.unwrap_or(INDEX_BOUND))
}

// The first object that has something dated after a number, and what.
fn late_in<D: Disk, L: Ledger>(
    io: &mut Io<'_, D>,
    set: &ObjSet,
    number: u64,
    none: &List,
    blank: Blank,
) -> Result<Option<(u64, u64)>, BlockFault>
    requires none { none.now ≡ [] }
    requires name { blank.name ≡ L.name }
    requires parts { blank.parts ≡ L.parts }
    requires some { 0 < blank.parts }
    ensures late { (state : DatedState) → IsHonest io.new → SetHolds (blocks_of io.old) set.now state → Delivers (FindsLate number state) result }
    ensures damaged { IsHonest io.new → IfDamaged result (IsDamagedCell (IsSeen (disk_of io.old).seen) (disk_of io.old).size set.now) }
    ensures looks { Looks (io_of io.old) (io_of io.new) (stop_of result) }
{
    let mut steps = Steps::<L>::new(blank);
    let start = Point {
        object: 0,
        offset: 0,
    };
    match next_cell(io, set, Some(number), none, none, start, true, &mut steps)? {
        None => Ok(None),
        Some(WalkEntry::Gone { first, .. }) => Ok(Some((first, INDEX_BOUND))),
        Some(WalkEntry::Pairs { object, first, .. }) => Ok(Some((object, first))),
        Some(
            WalkEntry::Object {
                number: object,
                dnode,
            },
        ) => {
            let block = late_block(io, &dnode, number, &mut steps)?;
            Ok(Some((object, block)))
        }
    }
}

/// A state that has something dated above its number, which is the pool's where it has none of its own.
pub(crate) fn late_state<D: Disk>(
    io: &mut Io<'_, D>,
    alloc: Global,
    dir: &Dir,
    number: u64,
) -> Result<Option<Report>, BlockFault>
    ensures found { (pool : Pool) → IsHonest io.new → RunsBy None (blocks_of io.old) dir.now pool → pool.number ≡ number
        → Delivers (Finds (All (λ row. DatedUpTo row.number row.objects) (rows pool)) (LateDate pool)) result }
    ensures named { IfOk result (FindsNamed dir.now) }
    ensures damaged { IsHonest io.new → IfDamaged result (IsDamagedInStates (IsSeen (disk_of io.old).seen) (disk_of io.old).size dir.now) }
    ensures looks { Looks (io_of io.old) (io_of io.new) (stop_of result) }
{
    let none = List::empty(alloc);
    let mut place = 0;
    while let Some(state) = state_at(dir, place) {
        let blank = Blank::new(1);
        let found = late_in::<D, Brand>(io, &state.set(), state.number(number), &none, blank)?;
        if let Some((object, block)) = found {
            return Ok(Some(alone(state.name(), object, block)));
        }
        place += 1;
    }
    Ok(None)
}
