// Part 1 of soundness: each state is compared with the nearest snapshots before it.
ghost use Rattle.std.specs.Prelude.{IfOk, None};
ghost use Rattle.zst_block.specs.IoCalls.{Looks, stop_of};
ghost use Rattle.zst_block.specs.IoStates.{IsHonest, blocks_of, disk_of, io_of};
ghost use Rattle.zst_image.specs.Reads.{RunsBy};
ghost use Rattle.zst_model.specs.pools.Pool.{IsPool, Pool};
ghost use Rattle.zst_model.specs.pools.Pool as plain;
ghost use Rattle.zst_model.specs.pools.Rows.{Row};
ghost use Rattle.zst_model.specs.pools.Soundness.{Agrees, Dated};
ghost use Rattle.zst_laws.specs.NearestSnapshots.{AgreesWithNearest, IsNearest};
ghost use Rattle.zst_objset.specs.Damage.{IfDamaged};
ghost use Rattle.zst_tree.specs.Damage.{IsSeen};
ghost use Rattle.zst_tree.specs.Indices.{Delivers};
ghost use Rattle.zst_check.specs.Damage.{IsDamagedInStates};
ghost use Rattle.zst_check.specs.FailingPlaces.{Differs};
ghost use Rattle.zst_check.specs.Findings.{Finds, IsStateOf, StandsAtPlace, StandsFor};
ghost use Rattle.zst_check.specs.ReportNames.{FindsNamed};

use crate::nearest::nearest_of;
use crate::report::Report;
use crate::states::{State, state_at};
use zst_block::{BlockFault, Io};
use zst_compare::compare_sets;
use zst_dir::Dir;
use zst_model::NameText;
use zst_outside::Disk;

// Where a state differs from the snapshot at a place, though it dates that at or below the snapshot's number.
fn differing_from<D: Disk>(
    io: &mut Io<'_, D>,
    dir: &Dir,
    state: &State<'_>,
    place: Option<usize>,
) -> Result<Option<Report>, BlockFault>
    ensures found { (pool : Pool) (row : Row) → IsHonest io.new → RunsBy None (blocks_of io.old) dir.now pool → StandsFor (blocks_of io.old) pool state.now row
        → ((earlier : plain.Snapshot) → StandsAtPlace pool.snapshots place earlier → IsNearest pool earlier row.place)
        → Delivers (Finds ((earlier : plain.Snapshot) → StandsAtPlace pool.snapshots place earlier → Agrees earlier row.objects) (Differs pool)) result }
    ensures named { IsStateOf dir.now state.now → IfOk result (FindsNamed dir.now) }
    ensures damaged { IsHonest io.new → IsStateOf dir.now state.now
        → IfDamaged result (IsDamagedInStates (IsSeen (disk_of io.old).seen) (disk_of io.old).size dir.now) }
    ensures looks { Looks (io_of io.old) (io_of io.new) (stop_of result) }
{
    let Some(place) = place else {
        return Ok(None);
    };
    let Some(earlier) = dir.snapshots().get(place) else {
        return Ok(None);
    };
    match compare_sets(io, &state.set(), &earlier.objects, earlier.number)? {
        None => Ok(None),
        Some(difference) => Ok(Some(Report::Unsound {
            earlier: NameText::new(earlier.name.text().as_bytes()),
            later: state.name(),
            object: difference.object,
            block: difference.block,
        })),
    }
}

/// A state that differs from a snapshot nearest before it.
pub(crate) fn differing_state<D: Disk>(
    io: &mut Io<'_, D>,
    dir: &Dir,
) -> Result<Option<Report>, BlockFault>
    ensures found { (pool : Pool) → IsHonest io.new → RunsBy None (blocks_of io.old) dir.now pool → IsPool pool → Dated pool
        → Delivers (Finds (AgreesWithNearest pool) (Differs pool)) result }
    ensures named { IfOk result (FindsNamed dir.now) }
    ensures damaged { IsHonest io.new → IfDamaged result (IsDamagedInStates (IsSeen (disk_of io.old).seen) (disk_of io.old).size dir.now) }
    ensures looks { Looks (io_of io.old) (io_of io.new) (stop_of result) }
{
    let mut place = 0;
    while let Some(state) = state_at(dir, place) {
        let nearest = nearest_of(dir, &state);
        if let Some(report) = differing_from(io, dir, &state, nearest.before)? {
            return Ok(Some(report));
        }
        if let Some(report) = differing_from(io, dir, &state, nearest.base)? {
            return Ok(Some(report));
        }
        place += 1;
    }
    Ok(None)
}
