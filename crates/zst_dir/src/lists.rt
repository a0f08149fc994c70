//! The lists of rows of a directory, read from the bytes in front.
ghost use Rattle.zst_dir.specs.RowReads.{ReadsDataset, ReadsDatasets, ReadsRows, IsSnapshotOf};
ghost use Rattle.zst_dir.specs.Rows.{IsBookmarkRow, IsPartialRow};
ghost use Rattle.zst_dir.specs.Spelling.{snapshot_bytes, bookmark_bytes, partial_bytes};

use crate::row_reads::{read_bookmark, read_dataset, read_partial, read_snapshot};
use crate::rows::{Bookmark, Dataset, Partial, Snapshot};
use std::alloc::AllocError;
use zst_bytes::Cursor;
use zst_names::DatasetName;

/// Reads the snapshots of this dataset, and puts them behind the others. Tells whether they stand there.
pub(crate) fn read_snapshots(
    cursor: &mut Cursor<'_>,
    dataset: &DatasetName,
    snapshots: &mut Vec<Snapshot>,
) -> Result<bool, AllocError>
    ensures { ReadsRows snapshot_bytes (IsSnapshotOf dataset.now) cursor.old cursor.new snapshots.old.items snapshots.new.items result }
{
    let Some(count) = cursor.word() else {
        return Ok(false);
    };
    for _ in 0..count {
        match read_snapshot(cursor, dataset) {
            Some(snapshot) => snapshots.push(snapshot)?,
            None => return Ok(false),
        }
    }
    Ok(true)
}

// Reads a dataset and behind it its snapshots, and puts them behind the others. Tells whether they
// stand there.
fn read_one(
    cursor: &mut Cursor<'_>,
    datasets: &mut Vec<Dataset>,
    snapshots: &mut Vec<Snapshot>,
) -> Result<bool, AllocError>
    ensures { ReadsDataset cursor.old cursor.new datasets.old.items datasets.new.items snapshots.old.items snapshots.new.items result }
{
    let Some(dataset) = read_dataset(cursor) else {
        return Ok(false);
    };
    if !read_snapshots(cursor, &dataset.name, snapshots)? {
        return Ok(false);
    }
    datasets.push(dataset)?;
    Ok(true)
}

/// Reads the datasets, each with its snapshots, and puts both behind the others. Tells whether they
/// stand there.
pub(crate) fn read_datasets(
    cursor: &mut Cursor<'_>,
    datasets: &mut Vec<Dataset>,
    snapshots: &mut Vec<Snapshot>,
) -> Result<bool, AllocError>
    ensures { ReadsDatasets cursor.old cursor.new datasets.old.items datasets.new.items snapshots.old.items snapshots.new.items result }
{
    let Some(count) = cursor.word() else {
        return Ok(false);
    };
    for _ in 0..count {
        if !read_one(cursor, datasets, snapshots)? {
            return Ok(false);
        }
    }
    Ok(true)
}

/// Reads the bookmarks, and puts them behind the others. Tells whether they stand there.
pub(crate) fn read_bookmarks(
    cursor: &mut Cursor<'_>,
    bookmarks: &mut Vec<Bookmark>,
) -> Result<bool, AllocError>
    ensures { ReadsRows bookmark_bytes IsBookmarkRow cursor.old cursor.new bookmarks.old.items bookmarks.new.items result }
{
    let Some(count) = cursor.word() else {
        return Ok(false);
    };
    for _ in 0..count {
        match read_bookmark(cursor) {
            Some(bookmark) => bookmarks.push(bookmark)?,
            None => return Ok(false),
        }
    }
    Ok(true)
}

/// Reads the partial states, and puts them behind the others. Tells whether they stand there.
pub(crate) fn read_partials(
    cursor: &mut Cursor<'_>,
    partials: &mut Vec<Partial>,
) -> Result<bool, AllocError>
    ensures { ReadsRows partial_bytes IsPartialRow cursor.old cursor.new partials.old.items partials.new.items result }
{
    let Some(count) = cursor.word() else {
        return Ok(false);
    };
    for _ in 0..count {
        match read_partial(cursor) {
            Some(partial) => partials.push(partial)?,
            None => return Ok(false),
        }
    }
    Ok(true)
}
