//! The rows of a name, in rows that stand in order.
ghost use Rattle.std.specs.Prelude.{◌≡◌, ◌≤◌, false, length, AllPairs};
ghost use Rattle.std.specs.List.{position_or_len};
ghost use Rattle.zst_model.specs.pools.Pool.{is_before};
ghost use Rattle.zst_names.specs.Names.{dataset_of};
ghost use Rattle.zst_listing.specs.Rows.{bookmarks_of, datasets_of, partials_of, snapshots_of};

use zst_dir::{Bookmark, Dataset, Partial, Snapshot};
use zst_names::DatasetName;

/// The dataset of this name, if there is one.
pub(crate) fn datasets_of<'a>(rows: &'a [Dataset], name: &DatasetName) -> &'a [Dataset]
    requires { AllPairs (λ a b. is_before b.name a.name ≡ false) rows.now }
    ensures { result.now ≡ datasets_of name.now rows.now }
{
    let start = rows.partition_point(|row| row.name < *name);
    let end = rows.partition_point(|row| row.name <= *name);
    let upto = &rows[..end];
    &upto[start..]
}

/// The snapshots of the dataset of this name.
pub(crate) fn snapshots_of<'a>(rows: &'a [Snapshot], name: &DatasetName) -> &'a [Snapshot]
    requires { AllPairs (λ a b. is_before (dataset_of 64 b.name) (dataset_of 64 a.name) ≡ false) rows.now }
    ensures { result.now ≡ snapshots_of name.now rows.now }
{
    let start = rows.partition_point(|row| row.name.dataset() < *name);
    let end = rows.partition_point(|row| row.name.dataset() <= *name);
    let upto = &rows[..end];
    &upto[start..]
}

/// The bookmarks of the dataset of this name.
pub(crate) fn bookmarks_of<'a>(rows: &'a [Bookmark], name: &DatasetName) -> &'a [Bookmark]
    requires { AllPairs (λ a b. is_before (dataset_of 35 b.name) (dataset_of 35 a.name) ≡ false) rows.now }
    ensures { result.now ≡ bookmarks_of name.now rows.now }
{
    let start = rows.partition_point(|row| row.name.dataset() < *name);
    let end = rows.partition_point(|row| row.name.dataset() <= *name);
    let upto = &rows[..end];
    &upto[start..]
}

/// The partial state of this target, if there is one.
pub(crate) fn partials_of<'a>(rows: &'a [Partial], target: &DatasetName) -> &'a [Partial]
    requires { AllPairs (λ a b. is_before b.target a.target ≡ false) rows.now }
    ensures { result.now ≡ partials_of target.now rows.now }
{
    let start = rows.partition_point(|row| row.target < *target);
    let end = rows.partition_point(|row| row.target <= *target);
    let upto = &rows[..end];
    &upto[start..]
}

/// The place of the first dataset that one of this name stands before, or the end.
pub(crate) fn place_behind(rows: &[Dataset], name: &DatasetName) -> usize
    requires { AllPairs (λ a b. is_before b.name a.name ≡ false) rows.now }
    ensures first { result ≡ position_or_len (λ row. is_before name.now row.name) rows.now }
    ensures bound { result ≤ length rows.now }
{
    rows.partition_point(|row| row.name <= *name)
}
