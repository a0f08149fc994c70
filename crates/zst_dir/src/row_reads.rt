//! The rows of a directory, read from the bytes in front. Whether they make a lawful directory is
//! not looked at here.
ghost use Rattle.std.specs.Prelude.{◌≡◌, ◌<◌, ◌==◌, ◌↔◌, IsTrue, bit_and, length};
ghost use Rattle.zst_model.specs.pools.Pool.{IsStated};
ghost use Rattle.zst_model.specs.sends.Features.{redacts, resuming};
ghost use Rattle.zst_dir.specs.RowReads.{Reads, IsSnapshotOf, dataset_front};
ghost use Rattle.zst_dir.specs.Rows.{IsDatasetRow, IsBookmarkRow, IsPartialRow};
ghost use Rattle.zst_dir.specs.Spelling.{snapshot_bytes, bookmark_bytes, header_bytes, partial_bytes};

use crate::fields::{
    read_book_name, read_component, read_dataset_name, read_features, read_flag, read_guid,
    read_guids, read_kind, read_levels, read_name_component, read_name_text, read_snap_name,
    read_u32,
};
use crate::rows::{Bookmark, Dataset, Partial, Snapshot};
use zst_bytes::Cursor;
use zst_model::features::{REDACTED, RESUMING};
use zst_model::{GuidSet, Header, Point};
use zst_names::DatasetName;
use zst_tree::{read_ptr, read_set};

/// The next dataset, up to its snapshots.
pub(crate) fn read_dataset(cursor: &mut Cursor<'_>) -> Option<Dataset>
    ensures { Reads dataset_front IsDatasetRow cursor.old cursor.new result }
{
    let name = read_dataset_name(cursor)?;
    let kind = read_kind(cursor)?;
    let origin = read_snap_name(cursor)?;
    let head = read_set(cursor)?;
    let redact = read_guids(cursor)?;
    Some(Dataset {
        name,
        kind,
        origin,
        head,
        redact,
    })
}

/// The next snapshot of this dataset.
pub(crate) fn read_snapshot(cursor: &mut Cursor<'_>, dataset: &DatasetName) -> Option<Snapshot>
    ensures { Reads snapshot_bytes (IsSnapshotOf dataset.now) cursor.old cursor.new result }
{
    let name = read_component(cursor, dataset)?;
    let guid = read_guid(cursor)?;
    let time = cursor.word()?;
    let number = cursor.word()?;
    let objects = read_set(cursor)?;
    let redact = read_guids(cursor)?;
    Some(Snapshot {
        name,
        guid,
        time,
        number,
        objects,
        redact,
    })
}

/// The next bookmark.
pub(crate) fn read_bookmark(cursor: &mut Cursor<'_>) -> Option<Bookmark>
    ensures { Reads bookmark_bytes IsBookmarkRow cursor.old cursor.new result }
{
    let name = read_book_name(cursor)?;
    let guid = read_guid(cursor)?;
    let time = cursor.word()?;
    let number = cursor.word()?;
    let redact = read_guids(cursor)?;
    let runs = cursor.word()?;
    let levels = read_levels(cursor)?;
    let root = read_ptr(cursor)?;
    Some(Bookmark {
        name,
        guid,
        time,
        number,
        redact,
        runs,
        levels,
        root,
    })
}

// Whether a header that isn't resumed can state these together: redaction guids exactly where it
// has REDACTED, and those of a source only where it has a source.
#[tactic(auto, unfolding(zst_model::specs::sends::Features::redacts, zst_model::specs::sends::Features::resuming))]
fn go_together(features: u32, from: u64, redact: &GuidSet, from_redact: &GuidSet) -> bool
    ensures { IsTrue result ↔ ((bit_and features resuming ≡ 0) × ((bit_and features redacts == 0) ≡ (length redact.now == 0)) × (0 < length from_redact.now → 0 < from)) }
{
    if features & RESUMING != 0 {
        return false;
    }
    if (features & REDACTED == 0) != redact.as_slice().is_empty() {
        return false;
    }
    from_redact.as_slice().is_empty() || from > 0
}

/// A header that a stream can state, without a resume point.
fn read_header(cursor: &mut Cursor<'_>) -> Option<Header>
    ensures { Reads header_bytes IsStated cursor.old cursor.new result }
{
    let kind = read_kind(cursor)?;
    let flags = read_u32(cursor)?;
    let features = read_features(cursor)?;
    let time = cursor.word()?;
    let to = read_guid(cursor)?;
    let from = cursor.word()?;
    let name = read_name_text(cursor)?;
    let redact = read_guids(cursor)?;
    let from_redact = read_guids(cursor)?;
    if !go_together(features, from, &redact, &from_redact) {
        return None;
    }
    Some(Header {
        kind,
        flags,
        features,
        time,
        to,
        from,
        name,
        resume: None,
        redact,
        from_redact,
    })
}

/// The next partial state.
pub(crate) fn read_partial(cursor: &mut Cursor<'_>) -> Option<Partial>
    ensures { Reads partial_bytes IsPartialRow cursor.old cursor.new result }
{
    let target = read_dataset_name(cursor)?;
    let snapshot = read_name_component(cursor)?;
    let keep = read_flag(cursor)?;
    let header = read_header(cursor)?;
    let base = read_snap_name(cursor)?;
    let objects = read_set(cursor)?;
    let object = cursor.word()?;
    let offset = cursor.word()?;
    Some(Partial {
        target,
        snapshot,
        keep,
        header,
        base,
        objects,
        point: Point { object, offset },
    })
}
