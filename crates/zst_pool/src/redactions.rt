// What redact looks up before it reads anything.
ghost use Rattle.std.specs.Prelude.{◌≡◌, ◌≢◌, ◌≤◌, ◌++◌, [], List, true, All, Ok, Some, Result, OnOk, IfErr, IfOk, find, is_none, length, option_map, position, bytes_eq, nat_le, get_or, ◌<◌, ◌==◌};
ghost use Rattle.zst_model.specs.fields.Guids.{IsGuidSet};
ghost use Rattle.zst_model.specs.pools.Pool.{Pool, Snapshot as Plain};
ghost use Rattle.zst_model.specs.declared.refusals.refusal.Refusal.{Refusal};
ghost use Rattle.zst_model.specs.pools.Step.{Stepped, find_each, with_guid};
ghost use Rattle.zst_dir.specs.RowNames.{AreNamed, NamesSnapshot};
ghost use Rattle.zst_dir.specs.Rows.{IsSnapshotRow};
ghost use Rattle.zst_pool.specs.Checks.{ChecksRows, Judges};
ghost use Rattle.zst_pool.specs.Plans.{is_by_rows};
ghost use Rattle.zst_pool.specs.Redactions.{JudgesEach, JudgesRedaction, comes_after, if_descend, if_redacts, if_whole, row_guids, rows_of, snapshot_row, with_found};

use crate::lineage::{
    check_dataset, check_few_bookmarks, check_free_bookmark, find_snapshot, no_snapshot,
};
use std::alloc::{AllocError, Global};
use zst_dir::{Dir, Snapshot};
use zst_model::{GuidSet, Lack, PlanFault};
use zst_names::{BookName, SnapName};
use zst_plan::{has_guids, snapshot_comes_before};

// The first of these names that no snapshot has.
fn first_absent(dir: &Dir, names: &[SnapName]) -> Option<SnapName>
    ensures { result ≡ option_map (λ name. name) (find (λ name. is_none (position (λ snapshot. bytes_eq snapshot.name name) dir.now.snapshots)) names.now) }
{
    names
        .iter()
        .find(|name| dir.snapshot(name).is_none())
        .map(|name| name.duplicate())
}

// E3 of the first of these snapshots that is absent.
fn check_each(dir: &Dir, names: &[SnapName]) -> Result<(), PlanFault>
    ensures all { OnOk result (length (rows_of names.now dir.now) ≡ length names.now) }
    ensures checks { ChecksRows dir.now (JudgesEach names.now dir.now) result }
{
    match first_absent(dir, names) {
        None => Ok(()),
        Some(name) => Err(no_snapshot(&name)),
    }
}

// E19 where the snapshot was redacted already.
fn check_whole(row: &Snapshot) -> Result<(), PlanFault>
    ensures rows { IfErr result (λ fault. is_by_rows fault ≡ true) }
    ensures judged { (rest : Result Stepped Refusal) → Judges (if_whole row.now.redact rest) rest result }
{
    if has_guids(&row.redact) {
        return Err(PlanFault::Unsupported(Lack::Relay));
    }
    Ok(())
}

// Whether a snapshot stands before the one of this name, where that is there.
fn comes_after(dir: &Dir, row: &Snapshot, name: &SnapName) -> bool
    ensures { (pool : Pool) (taken : Plain) → AreNamed dir.now pool → NamesSnapshot row.now taken → result ≡ comes_after pool taken name.now }
{
    let snapshots = dir.snapshots();
    match dir.snapshot(name) {
        None => true,
        Some(place) => snapshot_comes_before(dir, row, &snapshots[place]),
    }
}

// E8 of the first of these snapshots before which this one doesn't stand.
fn check_descend(dir: &Dir, row: &Snapshot, names: &[SnapName]) -> Result<(), PlanFault>
    ensures rows { IfErr result (λ fault. is_by_rows fault ≡ true) }
    ensures judged { (pool : Pool) (taken : Plain) (redactions : List Plain) (rest : Result Stepped Refusal) → AreNamed dir.now pool → NamesSnapshot row.now taken → find_each names.now pool ≡ Ok redactions
        → Judges (if_descend pool taken redactions rest) rest result }
{
    for name in names {
        if !comes_after(dir, row, name) {
            return Err(PlanFault::NotDescendant(name.duplicate()));
        }
    }
    Ok(())
}

// Whether a redaction bookmark of a snapshot can be made, whatever it lists.
fn check_redaction(
    dir: &Dir,
    row: &Snapshot,
    name: &BookName,
    redactions: &[SnapName],
) -> Result<(), PlanFault>
    ensures absent { OnOk result (All (λ other. other.name ≢ name.now) dir.now.bookmarks) }
    ensures rows { IfErr result (λ fault. is_by_rows fault ≡ true) }
    ensures judged { (pool : Pool) (taken : Plain) (found : List Plain) (rest : Result Stepped Refusal) → AreNamed dir.now pool → NamesSnapshot row.now taken → find_each redactions.now pool ≡ Ok found
        → Judges (if_redacts row.now.name name.now taken found pool rest) rest result }
{
    check_dataset(&row.name, name)?;
    check_free_bookmark(dir, name)?;
    check_whole(row)?;
    check_descend(dir, row, redactions)?;
    check_few_bookmarks(dir)
}

/// The row of the snapshot to redact, or the first refusal of its definition before it reads the list.
pub fn plan_redaction<'a>(
    dir: &'a Dir,
    snapshot: &SnapName,
    name: &BookName,
    redactions: &[SnapName],
) -> Result<&'a Snapshot, PlanFault>
    ensures row { IfOk result (λ row. IsSnapshotRow row.now) }
    ensures found { IfOk result (λ row. snapshot_row snapshot.now dir.now ≡ Some row.now) }
    ensures all { OnOk result (length (rows_of redactions.now dir.now) ≡ length redactions.now) }
    ensures absent { OnOk result (All (λ other. other.name ≢ name.now) dir.now.bookmarks) }
    ensures checks { ChecksRows dir.now (JudgesRedaction dir.now snapshot.now name.now redactions.now) result }
{
    let row = find_snapshot(dir, snapshot)?;
    check_each(dir, redactions)?;
    check_redaction(dir, row, name, redactions)?;
    Ok(row)
}

/// The rows of the snapshots of these names, of each that is there.
pub fn rows_of(alloc: Global, dir: &Dir, names: &[SnapName]) -> Result<Vec<Snapshot>, AllocError>
    ensures rows { IfOk result (λ rows. rows.items ≡ rows_of names.now dir.now) }
    ensures each { IfOk result (λ rows. All IsSnapshotRow rows.items) }
{
    let _lawful = dir.datasets();
    let mut rows = Vec::new(alloc);
    for name in names {
        push_found(&mut rows, row_of(dir, name))?;
    }
    Ok(rows)
}

// Appends a row, where there is one.
fn push_found(rows: &mut Vec<Snapshot>, found: Option<Snapshot>) -> Result<(), AllocError>
    ensures pushed { OnOk result (rows.new.items ≡ rows.old.items ++ with_found found []) }
{
    match found {
        None => Ok(()),
        Some(row) => Ok(rows.push(row)?),
    }
}

// The row of the snapshot of this name.
fn row_of(dir: &Dir, name: &SnapName) -> Option<Snapshot>
    ensures { result ≡ option_map (λ row. row) (snapshot_row name.now dir.now) }
{
    dir.snapshots()
        .iter()
        .find(|row| row.name == *name)
        .map(|row| row.duplicate())
}

// Puts a guid in its place among guids that rise. One that is there stays alone.
fn put_guid(guids: &mut Vec<u64>, guid: u64) -> Result<(), AllocError>
    ensures { OnOk result (guids.new.items ≡ with_guid guid guids.old.items) }
{
    let Some(place) = place_of(guids.as_slice(), guid) else {
        return Ok(guids.push(guid)?);
    };
    if is_at(guids.as_slice(), place, guid) {
        return Ok(());
    }
    Ok(guids.insert(place, guid)?)
}

// The place of the first guid that isn't less.
fn place_of(guids: &[u64], guid: u64) -> Option<usize>
    ensures { result ≡ position (λ other. nat_le guid other) guids.now }
{
    guids.iter().position(|other| guid <= *other)
}

// Whether a guid stands at this place.
fn is_at(guids: &[u64], place: usize, guid: u64) -> bool
    requires { place < length guids.now }
    ensures { result ≡ (get_or guids.now place guid == guid) }
{
    guids[place] == guid
}

// The guids of these rows, rising; equal ones count once.
fn guids_of(alloc: Global, rows: &[Snapshot]) -> Result<Vec<u64>, AllocError>
    ensures { IfOk result (λ guids. guids.items ≡ row_guids rows.now) }
{
    let mut guids = Vec::new(alloc);
    for done in 0..rows.len() {
        put_guid(&mut guids, rows[rows.len() - 1 - done].guid)?;
    }
    Ok(guids)
}

/// The set of the guids of these rows.
pub fn guid_set(alloc: Global, rows: &[Snapshot]) -> Result<GuidSet, AllocError>
    requires few { length rows.now ≤ 16 }
    requires rows { All IsSnapshotRow rows.now }
    ensures set { IfOk result (λ set. set ≡ row_guids rows.now) }
    ensures lawful { IfOk result IsGuidSet }
{
    let guids = guids_of(alloc, rows)?;
    match GuidSet::from_slice(guids.as_slice()) {
        Some(set) => Ok(set),
        None => unreachable!(),
    }
}
