//! Two object sets, compared.
ghost use Rattle.std.specs.Prelude.{◌≡◌, ◌*◌, ◌^◌, ◌<◌, ◌≤◌, ℕ, IfOk};
ghost use Rattle.zst_block.specs.IoStates.{IsHonest, blocks_of, disk_of, io_of};
ghost use Rattle.zst_block.specs.IoCalls.{Looks, stop_of};
ghost use Rattle.zst_model.specs.states.DatedState.{DatedState};
ghost use Rattle.zst_objset.specs.Damage.{IfDamaged};
ghost use Rattle.zst_objset.specs.Sets.{SetHolds};
ghost use Rattle.zst_tree.specs.Damage.{IsSeen};
ghost use Rattle.zst_tree.specs.Indices.{Delivers};
ghost use Rattle.zst_compare.specs.Agreement.{AreHoles, ComparesSets, ComparesStep, StepFits};
ghost use Rattle.zst_compare.specs.Damage.{IsDamagedIn, OfEither};

use crate::difference::Difference;
use crate::leaves::compare_leaves;
use crate::runs::run_at;
use crate::shared::shared_to;
use zst_block::{BlockFault, Io, Ptr};
use zst_model::limits::INDEX_BOUND;
use zst_outside::Disk;
use zst_tree::{ObjSet, TREE_INDEX_BOUND};

/// What comes of comparing the leaves of two sets from an index on.
#[derive(Clone, Copy)]
pub(crate) enum CompareStep {
    /// They agree below another index.
    Agrees { below: u64 },
    /// They differ.
    Differs(Difference),
}

// Compares holes in place of the leaves from an index on and below another: by their dates alone. No
// object has the number 0.
#[tactic(auto, unfolding(zst_model::specs::states::State::index_bound))]
fn compare_holes(index: u64, below: u64, later: &Ptr, earlier: &Ptr) -> CompareStep
    requires index { index < 2 ^ 44 }
    requires below { index < below }
    ensures compared { (number : ℕ) (was now : DatedState) → later.now.number ≤ number → AreHoles now index below later.now → AreHoles was index below earlier.now
        → ComparesStep number was now (16 * index) result }
    ensures on { StepFits index result }
{
    if later.number == earlier.number {
        return CompareStep::Agrees { below };
    }
    CompareStep::Differs(Difference {
        object: (16 * index).max(1),
        block: INDEX_BOUND,
    })
}

// Compares the leaves of an index, with those behind it that have the same pointers.
fn compare_step<D: Disk>(
    io: &mut Io<'_, D>,
    later: &ObjSet,
    earlier: &ObjSet,
    number: u64,
    index: u64,
) -> Result<CompareStep, BlockFault>
    requires later { later.now.tree.levels ≤ 7 }
    requires earlier { earlier.now.tree.levels ≤ 7 }
    requires index { index < 2 ^ 44 }
    ensures compared { (was now : DatedState) → IsHonest io.new → SetHolds (blocks_of io.old) later.now now → SetHolds (blocks_of io.old) earlier.now was
        → Delivers (ComparesStep number was now (16 * index)) result }
    ensures on { IfOk result (StepFits index) }
    ensures damaged { IsHonest io.new → IfDamaged result (OfEither
        (IsDamagedIn (IsSeen (disk_of io.old).seen) (disk_of io.old).size later.now)
        (IsDamagedIn (IsSeen (disk_of io.old).seen) (disk_of io.old).size earlier.now)) }
    ensures looks { Looks (io_of io.old) (io_of io.new) (stop_of result) }
{
    let (now, count) = run_at(io, &later.tree, index)?;
    if now.kind == 0 && now.number > number {
        let below = index + count;
        return Ok(CompareStep::Agrees { below });
    }
    let (was, run) = run_at(io, &earlier.tree, index)?;
    if now.kind == 0 && was.kind == 0 {
        let below = index + count.min(run);
        return Ok(compare_holes(index, below, &now, &was));
    }
    match compare_leaves(io, index, now, was, number)? {
        Some(place) => Ok(CompareStep::Differs(place)),
        None => Ok(CompareStep::Agrees { below: index + 1 }),
    }
}

/// The first place, by the object, then the number itself, then the index, that the later set dates at
/// or below a number, and that has another content or another date in the earlier one.
pub fn compare_sets<D: Disk>(
    io: &mut Io<'_, D>,
    later: &ObjSet,
    earlier: &ObjSet,
    number: u64,
) -> Result<Option<Difference>, BlockFault>
    // Where both sets hold a state, none means that these agree, and a place is one where they don't. No damage is found.
    ensures compared { (was now : DatedState) → IsHonest io.new → SetHolds (blocks_of io.old) later.now now → SetHolds (blocks_of io.old) earlier.now was
        → Delivers (ComparesSets number was now) result }

    // What is damaged is a block of the one set or of the other.
    ensures damaged { IsHonest io.new → IfDamaged result (OfEither
        (IsDamagedIn (IsSeen (disk_of io.old).seen) (disk_of io.old).size later.now)
        (IsDamagedIn (IsSeen (disk_of io.old).seen) (disk_of io.old).size earlier.now)) }

    // What is shared isn't read again.
    ensures shared { later.now ≡ earlier.now → io.new ≡ io.old }
    ensures looks { Looks (io_of io.old) (io_of io.new) (stop_of result) }
{
    if later == earlier {
        return Ok(None);
    }
    if later.tree.levels > 7 {
        return Err(BlockFault::of_layout(&later.tree.root));
    }
    if earlier.tree.levels > 7 {
        return Err(BlockFault::of_layout(&earlier.tree.root));
    }
    let mut index = 0;
    while index < TREE_INDEX_BOUND {
        let shared = shared_to(io, &later.tree, &earlier.tree, index)?;
        if shared >= TREE_INDEX_BOUND {
            return Ok(None);
        }
        match compare_step(io, later, earlier, number, shared)? {
            CompareStep::Agrees { below } => index = below,
            CompareStep::Differs(place) => return Ok(Some(place)),
        }
    }
    Ok(None)
}
