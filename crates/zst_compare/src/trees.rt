//! The indices of two objects, compared.
ghost use Rattle.std.specs.Prelude.{◌≡◌, ◌+◌, ◌^◌, ◌<◌, ◌≤◌, ℕ, IfOk, IfSome};
ghost use Rattle.zst_block.specs.IoStates.{IsHonest, blocks_of, disk_of, io_of};
ghost use Rattle.zst_block.specs.IoCalls.{Looks, stop_of};
ghost use Rattle.zst_model.specs.states.State.{Content};
ghost use Rattle.zst_objset.specs.Damage.{IfDamaged};
ghost use Rattle.zst_tree.specs.Damage.{IsSeen};
ghost use Rattle.zst_tree.specs.Indices.{Delivers};
ghost use Rattle.zst_compare.specs.Contents.{AreKept, ComparesAll, ComparesRun, HasContents};
ghost use Rattle.zst_compare.specs.Damage.{IsDamagedIndex, OfEither};

use crate::blocks::same_content;
use crate::runs::run_at;
use crate::shared::shared_to;
use zst_block::{BlockFault, Io};
use zst_model::limits::INDEX_BOUND;
use zst_outside::Disk;
use zst_tree::Tree;

/// The indices of an object: the tree of its blocks, and the size of one.
#[derive(Clone, Copy, Debug)]
pub(crate) struct Indices {
    pub tree: Tree,
    pub size: u32,
}

// Compares an index, with those behind it that have the same pointers: the index below which they are
// kept, or none where this one isn't.
fn compare_run<D: Disk>(
    io: &mut Io<'_, D>,
    later: &Indices,
    earlier: &Indices,
    number: u64,
    index: u64,
) -> Result<Option<u64>, BlockFault>
    requires later { (later.now.tree.levels ≤ 7) × (later.now.size ≤ 131072) }
    requires earlier { earlier.now.tree.levels ≤ 7 }
    requires index { index < 2 ^ 43 }
    ensures compared { (now was : ℕ → Content) (now_dates was_dates : ℕ → ℕ) → IsHonest io.new → HasContents (blocks_of io.old) later.now now now_dates → HasContents (blocks_of io.old) earlier.now was was_dates
        → Delivers (ComparesRun number was was_dates now now_dates index) result }
    ensures on { IfOk result (λ below. IfSome below (λ next. (index < next) × (next ≤ 2 ^ 49))) }
    ensures damaged { IsHonest io.new → IfDamaged result (OfEither
        (IsDamagedIndex (IsSeen (disk_of io.old).seen) (disk_of io.old).size later.now)
        (IsDamagedIndex (IsSeen (disk_of io.old).seen) (disk_of io.old).size earlier.now)) }
    ensures looks { Looks (io_of io.old) (io_of io.new) (stop_of result) }
{
    let (now, count) = run_at(io, &later.tree, index)?;
    if now.number > number {
        return Ok(Some(index + count));
    }
    let (was, run) = run_at(io, &earlier.tree, index)?;
    if was.number == now.number && same_content(io, &now, later.size, &was, earlier.size)? {
        return Ok(Some(index + count.min(run)));
    }
    Ok(None)
}

// The index up to which at least two objects share all from an index on. With blocks of two sizes one
// pointer, where it is redacted, stands for two contents: then nothing is taken as shared.
fn shared_indices<D: Disk>(
    io: &mut Io<'_, D>,
    later: &Indices,
    earlier: &Indices,
    index: u64,
) -> Result<u64, BlockFault>
    requires later { later.now.tree.levels ≤ 7 }
    requires earlier { earlier.now.tree.levels ≤ 7 }
    requires index { index < 2 ^ 44 }
    ensures kept { (number : ℕ) (now was : ℕ → Content) (now_dates was_dates : ℕ → ℕ) → IsHonest io.new → HasContents (blocks_of io.old) later.now now now_dates → HasContents (blocks_of io.old) earlier.now was was_dates
        → Delivers (AreKept number was was_dates now now_dates index) result }
    ensures range { IfOk result (λ reached. index ≤ reached) }
    ensures damaged { IsHonest io.new → IfDamaged result (OfEither
        (IsDamagedIndex (IsSeen (disk_of io.old).seen) (disk_of io.old).size later.now)
        (IsDamagedIndex (IsSeen (disk_of io.old).seen) (disk_of io.old).size earlier.now)) }
    ensures looks { Looks (io_of io.old) (io_of io.new) (stop_of result) }
{
    if later.size != earlier.size {
        return Ok(index);
    }
    shared_to(io, &later.tree, &earlier.tree, index)
}

/// The first index that the later of two objects dates at or below a number, and that has another
/// content or another date in the earlier one.
#[tactic(auto, unfolding(zst_model::specs::states::State::index_bound))]
pub(crate) fn compare_indices<D: Disk>(
    io: &mut Io<'_, D>,
    later: &Indices,
    earlier: &Indices,
    number: u64,
) -> Result<Option<u64>, BlockFault>
    requires later { (later.now.tree.levels ≤ 7) × (later.now.size ≤ 131072) }
    requires earlier { earlier.now.tree.levels ≤ 7 }
    ensures compared { (now was : ℕ → Content) (now_dates was_dates : ℕ → ℕ) → IsHonest io.new → HasContents (blocks_of io.old) later.now now now_dates → HasContents (blocks_of io.old) earlier.now was was_dates
        → Delivers (ComparesAll number was was_dates now now_dates) result }
    ensures damaged { IsHonest io.new → IfDamaged result (OfEither
        (IsDamagedIndex (IsSeen (disk_of io.old).seen) (disk_of io.old).size later.now)
        (IsDamagedIndex (IsSeen (disk_of io.old).seen) (disk_of io.old).size earlier.now)) }
    ensures looks { Looks (io_of io.old) (io_of io.new) (stop_of result) }
{
    let mut index = 0;
    while index < INDEX_BOUND {
        let shared = shared_indices(io, later, earlier, index)?;
        if shared >= INDEX_BOUND {
            return Ok(None);
        }
        match compare_run(io, later, earlier, number, shared)? {
            Some(below) => index = below,
            None => return Ok(Some(shared)),
        }
    }
    Ok(None)
}
