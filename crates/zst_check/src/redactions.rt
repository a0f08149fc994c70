// What a redaction bookmark was made of: its own snapshot, and its redaction snapshots, where these are known by their guids.
ghost use Rattle.std.specs.Prelude.{◌≡◌, ◌↔◌, ◌<◌, ◌==◌, ◌&&◌, List, length, All, Contains, IfOk, IfSome, MatchOption, position};
ghost use Rattle.zst_dir.specs.RowNames.{AreNamed, NamesBookmark, NamesSnapshot};
ghost use Rattle.zst_model.specs.fields.Guids.{IsGuidSet};
ghost use Rattle.zst_model.specs.pools.Ancestry.{OfBookmark, OfSnapshot};
ghost use Rattle.zst_model.specs.pools.Pool.{IsPool, Pool};
ghost use Rattle.zst_model.specs.pools.Pool as plain;
ghost use Rattle.zst_model.specs.pools.Soundness.{Dated, Sound};
ghost use Rattle.zst_model.specs.sends.SendPlan.{comes_before};
ghost use Rattle.zst_laws.specs.RedactionLists.{AreRedactions};
ghost use Rattle.zst_laws.specs.RememberedStates.{IsOwn};
ghost use Rattle.zst_check.specs.Findings.{StandsAtPlace};
ghost use Rattle.zst_check.specs.Redactions.{AreSetsOf, IsOnlyBehind, IsSetOfRow, is_own_row};

use std::alloc::{AllocError, Global};
use zst_dir::{Bookmark, Dir, Snapshot};
use zst_plan::snapshot_comes_before;
use zst_tree::ObjSet;

// Whether a snapshot is of the bookmark's dataset and has its number.
fn is_own(row: &Bookmark, other: &Snapshot) -> bool
    ensures { result ≡ is_own_row row.now other.now }
{
    other.number == row.number && other.name.dataset() == row.name.dataset()
}

// The place of the first that is so.
fn first_own(dir: &Dir, row: &Bookmark) -> Option<usize>
    ensures { result ≡ position (is_own_row row.now) dir.now.snapshots }
{
    dir.snapshots().iter().position(|other| is_own(row, other))
}

// The place of the bookmark's own snapshot: the one of its dataset with its number.
pub(crate) fn own_of(dir: &Dir, row: &Bookmark) -> Option<usize>
    ensures inside { IfSome result (λ place. place < length dir.now.snapshots) }
    ensures own { (pool : Pool) (bookmark : plain.Bookmark) (snapshot : plain.Snapshot) → AreNamed dir.now pool → Dated pool → NamesBookmark row.now bookmark
        → (Contains pool.snapshots snapshot × IsOwn (OfBookmark bookmark) snapshot) ↔ StandsAtPlace pool.snapshots result snapshot }
{
    first_own(dir, row)
}

// Whether it has this guid, and stands behind a snapshot.
fn is_behind(dir: &Dir, own: &Snapshot, row: &Snapshot, guid: u64) -> bool
    ensures { (pool : Pool) (from to : plain.Snapshot) → AreNamed dir.now pool → NamesSnapshot own.now from → NamesSnapshot row.now to
        → result ≡ (to.guid == guid && comes_before pool (OfSnapshot from) to) }
{
    row.guid == guid && snapshot_comes_before(dir, own, row)
}

// The place of the only snapshot that is so, and none where several are.
fn only_behind(dir: &Dir, own: &Snapshot, guid: u64) -> Option<usize>
    ensures inside { IfSome result (λ place. place < length dir.now.snapshots) }
    ensures only { (pool : Pool) (from snapshot : plain.Snapshot) → AreNamed dir.now pool → IsPool pool → Sound pool → Contains pool.snapshots from → NamesSnapshot own.now from
        → IsOnlyBehind pool from guid snapshot ↔ StandsAtPlace pool.snapshots result snapshot }
{
    let mut found = None;
    for (place, row) in dir.snapshots().iter().enumerate() {
        if is_behind(dir, own, row, guid) {
            if found.is_some() {
                return None;
            }
            found = Some(place);
        }
    }
    found
}

// The sets of the snapshots behind a snapshot that have these guids, one each, and none where one of the guids isn't that of exactly one.
pub(crate) fn redaction_sets(
    alloc: Global,
    dir: &Dir,
    own: &Snapshot,
    guids: &[u64],
) -> Result<Option<Vec<ObjSet>>, AllocError>
    requires { IsGuidSet guids.now }
    ensures rows { IfOk result (λ found. IfSome found (λ sets. All (IsSetOfRow dir.now.snapshots) sets.items)) }
    ensures only { (pool : Pool) (from : plain.Snapshot) → AreNamed dir.now pool → IsPool pool → Sound pool → Contains pool.snapshots from → NamesSnapshot own.now from
        → IfOk result (λ found. MatchOption found
        ((redactions : List plain.Snapshot) → AreRedactions pool from guids.now redactions → ⊥)
        (λ sets. (redactions : List plain.Snapshot) × AreRedactions pool from guids.now redactions × AreSetsOf dir.now.snapshots pool.snapshots sets.items redactions)) }
{
    let mut sets = Vec::new(alloc);
    for guid in guids {
        match only_behind(dir, own, *guid) {
            None => return Ok(None),
            Some(place) => sets.push(dir.snapshots()[place].objects)?,
        }
    }
    Ok(Some(sets))
}
