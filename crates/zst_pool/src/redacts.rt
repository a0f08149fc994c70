// The command redact: it reads which blocks of a snapshot its redaction snapshots have left, and commits a
// bookmark with their list.
ghost use Rattle.std.specs.Prelude.{◌≡◌, ◌≢◌, ◌⊎◌, ◌∷◌, ◌≤◌, ◌<◌, ◌^◌, ℕ, List as Several, None, Result, Err, All, IfErr, IfOk, OnOk, length, true};
ghost use Rattle.zst_block.specs.IoCalls.{Looks, Works};
ghost use Rattle.zst_block.specs.IoStates.{IsHonest, blocks_of, disk_of, io_of};
ghost use Rattle.zst_block.specs.Ptr.{PtrFits};
ghost use Rattle.zst_names.specs.Names.{IsBookmark};
ghost use Rattle.zst_list.specs.StoredLists.{HasList, list_sectors};
ghost use Rattle.zst_model.specs.declared.refusals.plan_fault.PlanFault.{PlanFault};
ghost use Rattle.zst_model.specs.pools.Limits.{most_runs};
ghost use Rattle.zst_model.specs.pools.Pool.{Pool, Snapshot as Plain, inserted, is_before};
ghost use Rattle.zst_model.specs.pools.Step.{IsRedact, with_redaction};
ghost use Rattle.zst_tree.specs.Damage.{IsSeen};
ghost use Rattle.zst_dir.specs.RowNames.{AreNamed, Match};
ghost use Rattle.zst_dir.specs.Rows.{IsBookmarkRow, IsLawful, IsSnapshotRow};
ghost use Rattle.zst_image.specs.Reads.{SnapshotIs};
ghost use Rattle.zst_redact.specs.Damage.{IsDamagedAmong};
ghost use Rattle.zst_pool.specs.Checks.{JudgesCommit};
ghost use Rattle.zst_pool.specs.CommandRuns.{CanBegin, Runs as RunsCommand, RunsByPlan};
ghost use Rattle.zst_pool.specs.Cost.{redact_cost};
ghost use Rattle.zst_pool.specs.Damage.{IsOf, redact_damage};
ghost use Rattle.zst_pool.specs.Faults.{of_built};
ghost use Rattle.zst_pool.specs.PartialRows.{each_stays};
ghost use Rattle.zst_pool.specs.Plans.{IsLast, IsLong};
ghost use Rattle.zst_pool.specs.Queries.{stop_of};
ghost use Rattle.zst_pool.specs.Redactions.{MakesList, Redacts, left_of, redaction_row, row_guids, rows_of, sets_of};
ghost use Rattle.zst_pool.specs.RowChanges.{MakesDir};

use crate::checks::check_number;
use crate::fault::{PoolFault, of_built, of_committed};
use crate::redactions::{guid_set, plan_redaction, rows_of};
use std::alloc::{AllocError, Global};
use zst_block::Io;
use zst_dir::{Bookmark, Dir, Snapshot};
use zst_image::{PoolState, commit_dir};
use zst_list::write_list;
use zst_model::{GuidSet, List};
use zst_names::{BookName, SnapName};
use zst_outside::Disk;
use zst_redact::build;
use zst_tree::{ObjSet, Tree};

// The object sets of these rows.
fn sets_of(alloc: Global, rows: &[Snapshot]) -> Result<Vec<ObjSet>, AllocError>
    ensures { IfOk result (λ sets. sets.items ≡ sets_of rows.now) }
{
    rows.iter().map(|row| row.objects).collect(alloc)
}

// The list of the blocks of a snapshot that none of these has kept. It only reads.
fn build_list<D: Disk>(
    io: &mut Io<'_, D>,
    alloc: Global,
    row: &Snapshot,
    rows: &[Snapshot],
) -> Result<List, PoolFault>
    ensures list { (taken : Plain) (redactions : Several Plain) → IsHonest io.new → SnapshotIs None (blocks_of io.old) row.now taken → Match (SnapshotIs None (blocks_of io.old)) rows.now redactions
        → MakesList (left_of taken redactions) result }
    ensures short { IfOk result (λ list. length list ≤ most_runs) }
    ensures limits { (fault : PlanFault) → result ≡ Err (PoolFault.Plan fault) → IsLong true fault }
    ensures open_still { ¬ (result ≡ Err PoolFault.Failed) }
    ensures damaged { IsHonest io.new → IfErr result (IsOf (IsDamagedAmong (IsSeen (disk_of io.old).seen) (disk_of io.old).size (sets_of (row.now ∷ rows.now)))) }
    ensures looks { Looks (io_of io.old) (io_of io.new) (stop_of result) }
{
    let sets = sets_of(alloc, rows)?;
    of_built(build(io, alloc, &row.objects, row.number, sets.as_slice()))
}

// Writes a list for the next commit. E23 where the last one was made.
fn write_runs<D: Disk>(
    io: &mut Io<'_, D>,
    alloc: Global,
    kept: &PoolState,
    list: &List,
) -> Result<Tree, PoolFault>
    requires short { length list.now ≤ 2 ^ 16 }
    ensures there { IfOk result (λ tree. HasList (blocks_of io.new) tree.levels tree.root (length list.now) list.now) }
    ensures low { IfOk result (λ tree. tree.levels ≤ 3) }
    ensures works { Works (list_sectors (length list.now)) 16 (io_of io.old) (io_of io.new) (stop_of result) }
    ensures judged { (pool : Pool) → pool.number ≡ kept.now.body.uber.number → JudgesCommit pool result }
    ensures below { OnOk result (kept.now.body.uber.number < 2 ^ 63) }
    ensures limits { (fault : PlanFault) → result ≡ Err (PoolFault.Plan fault) → IsLast kept.now.body.uber.number fault }
    ensures open_still { ¬ (result ≡ Err PoolFault.Failed) }
    ensures sound { (sector : ℕ) (stated found : Several ℕ) → ¬ (result ≡ Err (PoolFault.Damaged sector stated found)) }
{
    check_number(&kept.body)?;
    Ok(write_list(io, alloc, list, kept.body.uber().number + 1)?)
}

// The row of a redaction bookmark of a snapshot, whose list of so many runs stands in a tree.
fn redaction_row(
    name: &BookName,
    row: &Snapshot,
    redact: GuidSet,
    runs: u64,
    tree: Tree,
) -> Bookmark
    ensures same { result ≡ redaction_row name.now row.now redact runs tree }
    ensures name { IsBookmark name.now }
    ensures runs { runs < 2 ^ 64 }
    ensures root { PtrFits tree.root }
{
    Bookmark {
        name: name.duplicate(),
        guid: row.guid,
        time: row.time,
        number: row.number,
        redact,
        runs,
        levels: tree.levels,
        root: tree.root,
    }
}

// The directory with one more bookmark.
fn dir_with_bookmark(alloc: Global, dir: &Dir, bookmark: Bookmark) -> Result<Dir, AllocError>
    requires row { IsBookmarkRow bookmark }
    requires absent { All (λ other. other.name ≢ bookmark.name) dir.now.bookmarks }
    ensures lawful { IfOk result IsLawful }
    ensures makes { MakesDir 1024 dir.now (record dir.now { bookmarks = inserted (λ a b. is_before a.name b.name) bookmark dir.now.bookmarks }) result }
{
    let mut next = dir.copy(alloc)?;
    next.add_bookmark(bookmark)?;
    let _lawful = next.datasets();
    Ok(next)
}

// The directory with the redaction bookmark of this list.
fn dir_redacted(
    alloc: Global,
    dir: &Dir,
    name: &BookName,
    row: &Snapshot,
    rows: &[Snapshot],
    list: &List,
    tree: Tree,
) -> Result<Dir, AllocError>
    requires row { IsSnapshotRow row.now }
    requires rows { All IsSnapshotRow rows.now }
    requires few { length rows.now ≤ 16 }
    requires low { tree.levels ≤ 3 }
    requires absent { All (λ other. other.name ≢ name.now) dir.now.bookmarks }
    ensures lawful { IfOk result IsLawful }
    ensures makes { MakesDir 1024 dir.now (record dir.now { bookmarks = inserted (λ a b. is_before a.name b.name) (redaction_row name.now row.now (row_guids rows.now) (length list.now) tree) dir.now.bookmarks }) result }
{
    let redact = guid_set(alloc, rows)?;
    let bookmark = redaction_row(name, row, redact, list.runs().len() as u64, tree);
    dir_with_bookmark(alloc, dir, bookmark)
}

// Commits the redaction bookmark of a snapshot once its plan has passed.
fn commit_redaction<D: Disk>(
    io: &mut Io<'_, D>,
    alloc: Global,
    kept: &PoolState,
    name: &BookName,
    row: &Snapshot,
    rows: &[Snapshot],
) -> Result<PoolState, PoolFault>
    requires begins { CanBegin (io_of io.old) kept.now }
    requires row { IsSnapshotRow row.now }
    requires rows { All IsSnapshotRow rows.now }
    requires some { 0 < length rows.now }
    requires few { length rows.now ≤ 16 }
    requires absent { All (λ other. other.name ≢ name.now) kept.now.dir.bookmarks }
    ensures runs { (of : Several ℕ) (names : Several (Several ℕ)) → rows.now ≡ rows_of names kept.now.dir → ((pool : Pool) → AreNamed kept.now.dir pool → Redacts kept.now.dir of name.now names pool row.now)
        → RunsCommand (with_redaction of name.now names) (redact_cost of names) (IsDamagedAmong (IsSeen (disk_of io.old).seen) (disk_of io.old).size (sets_of (row.now ∷ rows.now))) kept.now (io_of io.old) (io_of io.new) result }
    ensures limits { (fault : PlanFault) → result ≡ Err (PoolFault.Plan fault) → IsLong true fault ⊎ IsLast kept.now.body.uber.number fault }
    ensures partials { IfOk result (λ next. next.dir.partials ≡ kept.now.dir.partials) }
{
    let list = build_list(io, alloc, row, rows)?;
    let tree = write_runs(io, alloc, kept, &list)?;
    let dir = dir_redacted(alloc, &kept.dir, name, row, rows, &list, tree)?;
    of_committed(commit_dir(io, alloc, &kept.body, kept.body.uber().guids, dir))
}

/// Makes a redaction bookmark of a snapshot: a list of its blocks that these have not kept.
pub fn make_redaction<D: Disk>(
    io: &mut Io<'_, D>,
    alloc: Global,
    kept: &PoolState,
    snapshot: &SnapName,
    name: &BookName,
    redactions: &[SnapName],
) -> Result<PoolState, PoolFault>
    requires words { IsRedact snapshot.now name.now redactions.now }
    requires begins { CanBegin (io_of io.old) kept.now }
    ensures does { RunsByPlan (with_redaction snapshot.now name.now redactions.now) (redact_cost snapshot.now redactions.now) (redact_damage (disk_of io.old) (snapshot.now ∷ redactions.now) kept.now.dir) 0 0 true each_stays kept.now (io_of io.old) (io_of io.new) result }
{
    let row = plan_redaction(&kept.dir, snapshot, name, redactions)?;
    let rows = rows_of(alloc, &kept.dir, redactions)?;
    commit_redaction(io, alloc, kept, name, row, rows.as_slice())
}
