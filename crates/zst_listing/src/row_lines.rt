//! The lines of single rows.
ghost use Rattle.std.specs.Prelude.{◌≡◌, IfOk};
ghost use Rattle.zst_model.specs.pools.AnswerLines.{kind_word, name_or_none};
ghost use Rattle.zst_listing.specs.Rows.{bookmark_line, dataset_line, partial_line, snapshot_line};

use std::alloc::{AllocError, Global};
use zst_dir::{Bookmark, Dataset, Partial, Snapshot};
use zst_model::{Bytes, guid_text};
use zst_names::SnapName;

fn kind_word(kind: u32) -> &'static str
    ensures { result.now ≡ kind_word kind }
{
    if kind == 2 { "fs" } else { "volume" }
}

fn name_or_none(name: &Option<SnapName>) -> &str
    ensures { result.now ≡ name_or_none name.now }
{
    match name {
        Some(name) => name.text(),
        None => "none",
    }
}

/// The line of a dataset.
pub(crate) fn dataset_line(alloc: Global, row: &Dataset) -> Result<Bytes, AllocError>
    ensures { IfOk result (λ line. line ≡ dataset_line row.now) }
{
    let line = format!(in alloc;
        "{} {} origin {}",
        kind_word(row.kind),
        row.name.text(),
        name_or_none(&row.origin),
    )?;
    Ok(Bytes::new(line.into_bytes()))
}

/// The line of a snapshot.
pub(crate) fn snapshot_line(alloc: Global, row: &Snapshot) -> Result<Bytes, AllocError>
    ensures { IfOk result (λ line. line ≡ snapshot_line row.now) }
{
    let line = format!(in alloc;
        "snapshot {} guid {} time {} number {} redacted {}",
        row.name.text(),
        guid_text(row.guid).as_str(),
        row.time,
        row.number,
        row.redact.as_slice().len(),
    )?;
    Ok(Bytes::new(line.into_bytes()))
}

/// The line of a bookmark.
pub(crate) fn bookmark_line(alloc: Global, row: &Bookmark) -> Result<Bytes, AllocError>
    ensures { IfOk result (λ line. line ≡ bookmark_line row.now) }
{
    let line = format!(in alloc;
        "bookmark {} guid {} number {} redacted {} runs {}",
        row.name.text(),
        guid_text(row.guid).as_str(),
        row.number,
        row.redact.as_slice().len(),
        row.runs,
    )?;
    Ok(Bytes::new(line.into_bytes()))
}

/// The line of a partial state.
pub(crate) fn partial_line(alloc: Global, row: &Partial) -> Result<Bytes, AllocError>
    ensures { IfOk result (λ line. line ≡ partial_line row.now) }
{
    let line = format!(in alloc;
        "partial {} guid {} point {} {}",
        row.target.text(),
        guid_text(row.header.to).as_str(),
        row.point.object,
        row.point.offset,
    )?;
    Ok(Bytes::new(line.into_bytes()))
}
