//! The lines of the rows of a directory.
ghost use Rattle.std.specs.Prelude.{◌≡◌, ◌++◌, ℕ, List, None, [], map, if◌then◌else◌, length, ◌==◌, IfOk, OnOk};
ghost use Rattle.std.specs.List.{flat_map};
ghost use Rattle.zst_block.specs.Blocks.{Has};
ghost use Rattle.zst_image.specs.Reads.{RunsBy};
ghost use Rattle.zst_listing.specs.Rows.{bookmark_line, dataset_line, datasets_of, lines_of, partial_line, snapshot_line};
ghost use Rattle.zst_model.specs.pools.AnswerLines.{pool_lines};
ghost use Rattle.zst_model.specs.pools.Pool.{Pool};
ghost use Rattle.zst_space.specs.FreeSectors.{FreeSectors};

use crate::ranges::{bookmarks_of, datasets_of, partials_of, place_behind, snapshots_of};
use crate::row_lines::{bookmark_line, dataset_line, partial_line, snapshot_line};
use std::alloc::{AllocError, Global};
use zst_dir::{Bookmark, Dataset, Dir, Partial, Snapshot};
use zst_model::{Bytes, Reply};
use zst_names::DatasetName;

fn push_datasets(alloc: Global, lines: &mut Vec<Bytes>, rows: &[Dataset]) -> Result<(), AllocError>
    ensures { OnOk result (lines.new.items ≡ lines.old.items ++ map dataset_line rows.now) }
{
    for row in rows {
        lines.push(dataset_line(alloc, row)?)?;
    }
    Ok(())
}

fn push_snapshots(
    alloc: Global,
    lines: &mut Vec<Bytes>,
    rows: &[Snapshot],
) -> Result<(), AllocError>
    ensures { OnOk result (lines.new.items ≡ lines.old.items ++ map snapshot_line rows.now) }
{
    for row in rows {
        lines.push(snapshot_line(alloc, row)?)?;
    }
    Ok(())
}

fn push_bookmarks(
    alloc: Global,
    lines: &mut Vec<Bytes>,
    rows: &[Bookmark],
) -> Result<(), AllocError>
    ensures { OnOk result (lines.new.items ≡ lines.old.items ++ map bookmark_line rows.now) }
{
    for row in rows {
        lines.push(bookmark_line(alloc, row)?)?;
    }
    Ok(())
}

fn push_partials(alloc: Global, lines: &mut Vec<Bytes>, rows: &[Partial]) -> Result<(), AllocError>
    ensures { OnOk result (lines.new.items ≡ lines.old.items ++ map partial_line rows.now) }
{
    for row in rows {
        lines.push(partial_line(alloc, row)?)?;
    }
    Ok(())
}

// The lines of a name: its dataset, its snapshots, its bookmarks and its partial state.
#[tactic(auto, unfolding(crate::specs::Rows::lines_of))]
fn push_name(
    alloc: Global,
    lines: &mut Vec<Bytes>,
    dir: &Dir,
    name: &DatasetName,
) -> Result<(), AllocError>
    ensures { OnOk result (lines.new.items ≡ lines.old.items ++ lines_of dir.now name.now) }
{
    push_datasets(alloc, lines, datasets_of(dir.datasets(), name))?;
    push_snapshots(alloc, lines, snapshots_of(dir.snapshots(), name))?;
    push_bookmarks(alloc, lines, bookmarks_of(dir.bookmarks(), name))?;
    push_partials(alloc, lines, partials_of(dir.partials(), name))
}

// The lines of the names of these datasets.
fn push_names(
    alloc: Global,
    lines: &mut Vec<Bytes>,
    dir: &Dir,
    rows: &[Dataset],
) -> Result<(), AllocError>
    ensures { OnOk result (lines.new.items ≡ lines.old.items ++ flat_map (lines_of dir.now) (map (λ row. row.name) rows.now)) }
{
    for row in rows {
        push_name(alloc, lines, dir, &row.name)?;
    }
    Ok(())
}

// The lines of a target, where no dataset has its name.
fn push_target(
    alloc: Global,
    lines: &mut Vec<Bytes>,
    dir: &Dir,
    target: &DatasetName,
) -> Result<(), AllocError>
    ensures { OnOk result (lines.new.items ≡ lines.old.items ++ (if length (datasets_of target.now dir.now.datasets) == 0 then lines_of dir.now target.now else [])) }
{
    if datasets_of(dir.datasets(), target).is_empty() {
        push_name(alloc, lines, dir, target)?;
    }
    Ok(())
}

/// The lines of the pool that the rows of a directory stand for. Names are looked for in order:
/// each target stands behind the datasets that it doesn't come before.
pub fn list_rows(alloc: Global, dir: &Dir) -> Result<Reply, AllocError>
    ensures { IfOk result (λ reply. (image : List ℕ) (space : FreeSectors) (pool : Pool) → RunsBy None (Has image space) dir.now pool → reply ≡ pool_lines pool) }
{
    let mut lines = Vec::new(alloc);
    let mut datasets = dir.datasets();
    let partials = dir.partials();
    for partial in partials {
        let (front, rest) = datasets.split_at(place_behind(datasets, &partial.target));
        push_names(alloc, &mut lines, dir, front)?;
        push_target(alloc, &mut lines, dir, &partial.target)?;
        datasets = rest;
    }
    push_names(alloc, &mut lines, dir, datasets)?;
    Ok(Reply::new(lines))
}
