// What a rollback looks up before it changes anything, and the directory that it commits.
ghost use Rattle.std.specs.Prelude.{◌≡◌, ◌<◌, [], false, Option, Result, OnOk, IfOk, bytes_eq, filter, find, map, option_map};
ghost use Rattle.zst_model.specs.pools.Pool as plain;
ghost use Rattle.zst_model.specs.pools.Step.{least_name, lesser_name, unless_newer, unless_used};
ghost use Rattle.zst_dir.specs.Removal.{AreUnused, takes_bookmark, takes_snapshot};
ghost use Rattle.zst_pool.specs.Checks.{ChecksRows, PlansCommit, JudgesNext};
ghost use Rattle.zst_pool.specs.Lineage.{JudgesRollback, if_rolls_back, newer_in_pool, newer_than, rows_rolled_back, CanRollBack};
ghost use Rattle.zst_pool.specs.RowChanges.{MakesDir};

use crate::checks::{busy_partial, check_number, has_partial};
use crate::lineage::{check_unused, find_snapshot};
use std::alloc::{AllocError, Global};
use zst_dir::{Dir, Removal, Snapshot};
use zst_image::PoolState;
use zst_model::{Holder, PlanFault};
use zst_names::{BookName, DatasetName, SnapName};

// What is newer than this snapshot.
fn newer_than(snapshot: &Snapshot) -> Removal
    ensures { result ≡ newer_than snapshot.now }
{
    Removal::Newer {
        dataset: snapshot.name.dataset(),
        number: snapshot.number,
    }
}

// The name of the first bookmark that goes.
fn first_going(dir: &Dir, going: &Removal) -> Option<BookName>
    ensures { result ≡ option_map (λ bookmark. bookmark.name) (find (takes_bookmark going.now) dir.now.bookmarks) }
{
    dir.bookmarks()
        .iter()
        .find(|bookmark| going.takes_bookmark(bookmark))
        .map(|bookmark| bookmark.name.duplicate())
}

// The lesser of a name and another, where there is another.
fn lesser(name: SnapName, other: Option<SnapName>) -> SnapName
    ensures { result ≡ lesser_name name other }
{
    match other {
        None => name,
        Some(other) => { if other < name { other } else { name } }
    }
}

// The least name of the snapshots that go.
fn least_going(dir: &Dir, going: &Removal) -> Option<SnapName>
    ensures { result ≡ least_name (map (λ snapshot. snapshot.name) (filter (takes_snapshot going.now) dir.now.snapshots)) }
{
    let mut least = None;
    for snapshot in dir.snapshots() {
        if going.takes_snapshot(snapshot) {
            least = Some(lesser(snapshot.name.duplicate(), least));
        }
    }
    least
}

// E5 where something goes: the first bookmark, or else the snapshot with the least name.
fn check_newer(dir: &Dir, going: &Removal) -> Result<(), PlanFault>
    ensures unused { OnOk result (AreUnused going.now dir.now) }
    ensures checks { ChecksRows dir.now (λ pool answer. (taken : plain.Snapshot) → going.now ≡ newer_in_pool taken → JudgesNext (unless_newer false taken) pool answer) result }
{
    if let Some(bookmark) = first_going(dir, going) {
        return Err(PlanFault::Busy(Holder::Bookmark(bookmark)));
    }
    if let Some(snapshot) = least_going(dir, going) {
        return Err(PlanFault::Busy(Holder::Snapshot(snapshot)));
    }
    Ok(())
}

// E5 where the dataset has a partial state.
fn check_no_partial(dir: &Dir, name: &DatasetName) -> Result<(), PlanFault>
    ensures checks { ChecksRows dir.now (JudgesNext (unless_used (λ partial. bytes_eq partial.target name.now) [])) result }
{
    if has_partial(dir, name) {
        return Err(busy_partial(name));
    }
    Ok(())
}

// E5 where a rollback to this snapshot loses what is held, or, unless it destroys, anything.
fn check_rollback(dir: &Dir, destroys: bool, snapshot: &Snapshot) -> Result<(), PlanFault>
    ensures unused { OnOk result (AreUnused (newer_than snapshot.now) dir.now) }
    ensures checks { ChecksRows dir.now (λ pool answer. (taken : plain.Snapshot) → newer_than snapshot.now ≡ newer_in_pool taken → JudgesNext (if_rolls_back destroys taken) pool answer) result }
{
    let going = newer_than(snapshot);
    if destroys {
        return check_unused(dir, &going);
    }
    check_no_partial(dir, &snapshot.name.dataset())?;
    check_newer(dir, &going)
}

/// The snapshot to roll back to, or the first refusal of its definition.
pub fn plan_rollback<'a>(
    kept: &'a PoolState,
    destroys: bool,
    name: &SnapName,
) -> Result<&'a Snapshot, PlanFault>
    ensures can { IfOk result (λ row. CanRollBack kept.now.dir row.now) }
    ensures plans { PlansCommit kept.now (JudgesRollback kept.now.dir destroys name.now) result }
{
    let snapshot = find_snapshot(&kept.dir, name)?;
    check_rollback(&kept.dir, destroys, snapshot)?;
    check_number(&kept.body)?;
    Ok(snapshot)
}

/// The directory without what is newer than a snapshot, and with the head of its dataset as that.
pub fn dir_rolled_back(alloc: Global, dir: &Dir, snapshot: &Snapshot) -> Result<Dir, AllocError>
    requires can { CanRollBack dir.now snapshot.now }
    ensures makes { MakesDir 136 dir.now (rows_rolled_back snapshot.now dir.now) result }
{
    let mut next = dir.copy(alloc)?;
    next.leave_out(&newer_than(snapshot));
    next.set_objects(&snapshot.name.dataset(), snapshot.objects, &snapshot.redact);
    Ok(next)
}
