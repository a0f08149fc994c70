// Part 4 of soundness: the lists of redaction bookmarks.
ghost use Rattle.std.specs.Prelude.{◌≡◌, ◌∷◌, Contains, IfOk, None};
ghost use Rattle.std.specs.List.{AllZip};
ghost use Rattle.zst_block.specs.IoCalls.{Looks};
ghost use Rattle.zst_block.specs.IoStates.{IsHonest, blocks_of, disk_of, io_of};
ghost use Rattle.zst_image.specs.Reads.{BookmarkIs, RunsBy, SnapshotIs};
ghost use Rattle.zst_model.specs.pools.Pool.{IsPool, Pool};
ghost use Rattle.zst_model.specs.pools.Pool as plain;
ghost use Rattle.zst_model.specs.pools.RedSet.{objects_of};
ghost use Rattle.zst_model.specs.pools.Soundness.{Sound};
ghost use Rattle.zst_laws.specs.RedactionLists.{AreListed, Lists};
ghost use Rattle.zst_compare.specs.Damage.{OfEither};
ghost use Rattle.zst_objset.specs.Damage.{IfDamage};
ghost use Rattle.zst_objset.specs.Sets.{SetHolds};
ghost use Rattle.zst_redact.specs.Damage.{IsDamagedAmong};
ghost use Rattle.zst_tree.specs.Damage.{IsSeen};
ghost use Rattle.zst_tree.specs.Faults.{GivesOrTells, IfFault, fault_of};
ghost use Rattle.zst_tree.specs.Indices.{IsNoDamage};
ghost use Rattle.zst_check.specs.Damage.{IsDamagedInChecked, IsDamagedList};
ghost use Rattle.zst_check.specs.FailingPlaces.{ListDiffers};
ghost use Rattle.zst_check.specs.Findings.{Finds};
ghost use Rattle.zst_check.specs.Redactions.{DiffersFrom, IsListed, Redactions};
ghost use Rattle.zst_check.specs.ReportNames.{FindsNamed};

use crate::list_pairs::differing_pair;
use crate::redactions::{own_of, redaction_sets};
use crate::report::Report;
use std::alloc::Global;
use std::marker::Brand;
use std::sync::ledger::Blank;
use zst_block::{BlockFault, Io};
use zst_dir::{Bookmark, Dir, Snapshot};
use zst_list::read_list;
use zst_model::{List, NameText};
use zst_outside::Disk;
use zst_tree::{ObjSet, OrMemory};

// Where the list of a bookmark isn't that of what these have left of its own snapshot.
fn differing_from<D: Disk>(
    io: &mut Io<'_, D>,
    alloc: Global,
    row: &Bookmark,
    own: &Snapshot,
    sets: &[ObjSet],
) -> Result<Option<Report>, OrMemory<BlockFault>>
    ensures found { (bookmark : plain.Bookmark) (snapshot : plain.Snapshot) (redactions : Redactions) → IsHonest io.new → BookmarkIs (blocks_of io.old) row.now bookmark
        → SnapshotIs None (blocks_of io.old) own.now snapshot → AllZip (SetHolds (blocks_of io.old)) sets.now (objects_of redactions)
        → GivesOrTells (Finds (Lists bookmark snapshot redactions) (DiffersFrom bookmark snapshot redactions)) IsNoDamage result }
    ensures named { IfOk result (Finds (Unit {0}) (λ earlier later object block. (row.now.name ≡ earlier) × (own.now.name ≡ later))) }
    ensures damaged { IsHonest io.new → IfFault result (λ fault. IfDamage fault (OfEither
        (IsDamagedAmong (IsSeen (disk_of io.old).seen) (disk_of io.old).size (own.now.objects ∷ sets.now))
        (IsDamagedList io.old.space.end (disk_of io.old).seen (disk_of io.old).size row.now))) }
    ensures looks { Looks (io_of io.old) (io_of io.new) (fault_of result) }
{
    let list = read_list(io, alloc, row.levels, row.root, row.runs)?;
    let none = List::empty(alloc);
    let found = differing_pair::<D, Brand>(io, own, sets, &list, &none, Blank::new(1))?;
    match found {
        None => Ok(None),
        Some((object, block)) => Ok(Some(Report::Unsound {
            earlier: NameText::new(row.name.text().as_bytes()),
            later: NameText::new(own.name.text().as_bytes()),
            object,
            block,
        })),
    }
}

// The same of the bookmark's own snapshot and redaction snapshots; none, where it lacks one of them or where nothing redacted it.
fn differing_row<D: Disk>(
    io: &mut Io<'_, D>,
    alloc: Global,
    dir: &Dir,
    row: &Bookmark,
) -> Result<Option<Report>, OrMemory<BlockFault>>
    ensures found { (pool : Pool) (bookmark : plain.Bookmark) → IsHonest io.new → RunsBy None (blocks_of io.old) dir.now pool → IsPool pool → Sound pool → Contains pool.bookmarks bookmark
        → BookmarkIs (blocks_of io.old) row.now bookmark → GivesOrTells (Finds (IsListed pool bookmark) (ListDiffers pool)) IsNoDamage result }
    ensures named { Contains dir.now.bookmarks row.now → IfOk result (FindsNamed dir.now) }
    ensures damaged { IsHonest io.new → Contains dir.now.bookmarks row.now
        → IfFault result (λ fault. IfDamage fault (IsDamagedInChecked io.old.space.end (disk_of io.old).seen (disk_of io.old).size dir.now)) }
    ensures looks { Looks (io_of io.old) (io_of io.new) (fault_of result) }
{
    if row.redact.as_slice().is_empty() {
        return Ok(None);
    }
    let Some(place) = own_of(dir, row) else {
        return Ok(None);
    };
    let own = &dir.snapshots()[place];
    match redaction_sets(alloc, dir, own, row.redact.as_slice())? {
        None => Ok(None),
        Some(sets) => differing_from(io, alloc, row, own, sets.as_slice()),
    }
}

/// The first bookmark whose list is another.
pub(crate) fn differing_list<D: Disk>(
    io: &mut Io<'_, D>,
    alloc: Global,
    dir: &Dir,
) -> Result<Option<Report>, OrMemory<BlockFault>>
    ensures found { (pool : Pool) → IsHonest io.new → RunsBy None (blocks_of io.old) dir.now pool → IsPool pool → Sound pool
        → GivesOrTells (Finds (AreListed pool) (ListDiffers pool)) IsNoDamage result }
    ensures named { IfOk result (FindsNamed dir.now) }
    ensures damaged { IsHonest io.new → IfFault result (λ fault. IfDamage fault (IsDamagedInChecked io.old.space.end (disk_of io.old).seen (disk_of io.old).size dir.now)) }
    ensures looks { Looks (io_of io.old) (io_of io.new) (fault_of result) }
{
    for row in dir.bookmarks() {
        if let Some(report) = differing_row(io, alloc, dir, row)? {
            return Ok(Some(report));
        }
    }
    Ok(None)
}
