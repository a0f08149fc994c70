//! Whether rows make a lawful directory: their order, and that what they name is there.
ghost use Rattle.std.specs.Prelude.{◌≡◌, ◌≢◌, ◌↔◌, true, false, All, AllPairs, IfOk, IfSome, IsSome, IsTrue};
ghost use Rattle.zst_model.specs.pools.Pool.{is_before};
ghost use Rattle.zst_names.specs.Names.{IsComponent};
ghost use Rattle.zst_dir.specs.Rows.{snapshot_is_before, IsPartialRow, IsLawful};
ghost use Rattle.zst_dir.specs.RowChecks.{AreNamesOf, AreRead, LinkTo, Rise, has, name_to_be};

use crate::rows::{Bookmark, Dataset, Partial, Snapshot};
use std::alloc::{AllocError, Global};
use std::collections::BTreeSet;
use zst_names::SnapName;

// Whether datasets stand by name, and no two have one.
fn datasets_rise(datasets: &[Dataset]) -> bool
    ensures { IsTrue result ↔ AllPairs (λ a b. is_before a.name b.name ≡ true) datasets.now }
{
    datasets.is_sorted_by(|a, b| a.name < b.name)
}

// Whether snapshots stand by dataset, then by number.
fn snapshots_rise(snapshots: &[Snapshot]) -> bool
    ensures { IsTrue result ↔ AllPairs (λ a b. snapshot_is_before b a ≡ false) snapshots.now }
{
    snapshots.is_sorted_by(|a, b| !b.is_before(a))
}

// Whether bookmarks stand by name, and no two have one.
fn bookmarks_rise(bookmarks: &[Bookmark]) -> bool
    ensures { IsTrue result ↔ AllPairs (λ a b. is_before a.name b.name ≡ true) bookmarks.now }
{
    bookmarks.is_sorted_by(|a, b| a.name < b.name)
}

// Whether partial states stand by target, and no two have one.
fn partials_rise(partials: &[Partial]) -> bool
    ensures { IsTrue result ↔ AllPairs (λ a b. is_before a.target b.target ≡ true) partials.now }
{
    partials.is_sorted_by(|a, b| a.target < b.target)
}

// The names of snapshots, where no two have one.
fn distinct_names(
    alloc: Global,
    snapshots: &[Snapshot],
) -> Result<Option<BTreeSet<SnapName>>, AllocError>
    ensures names { IfOk result (λ names. IfSome names (AreNamesOf snapshots.now)) }
    ensures differ { IfOk result (λ names. IsSome names ↔ AllPairs (λ a b. a.name ≢ b.name) snapshots.now) }
{
    let mut names = BTreeSet::new(alloc);
    for snapshot in snapshots {
        if !names.insert(snapshot.name.duplicate())? {
            return Ok(None);
        }
    }
    Ok(Some(names))
}

// Whether the snapshot of this name is there, where one is named.
fn is_there(name: &Option<SnapName>, names: &BTreeSet<SnapName>) -> bool
    ensures { IsTrue result ↔ IfSome name.now (λ name. has names.now name ≡ true) }
{
    match name {
        Some(name) => names.contains(name),
        None => true,
    }
}

// Whether no snapshot has the name of the one that a partial state is to become.
fn is_free(partial: &Partial, names: &BTreeSet<SnapName>) -> bool
    requires { IsComponent partial.now.snapshot }
    ensures { IsTrue result ↔ (has names.now (name_to_be partial.now) ≡ false) }
{
    !names.contains(&partial.snapshot_name())
}

// Whether each origin is there.
fn origins_are_there(datasets: &[Dataset], names: &BTreeSet<SnapName>) -> bool
    ensures { IsTrue result ↔ All (λ dataset. IfSome dataset.origin (λ name. has names.now name ≡ true)) datasets.now }
{
    datasets
        .iter()
        .all(|dataset| is_there(&dataset.origin, names))
}

// Whether each base is there.
fn bases_are_there(partials: &[Partial], names: &BTreeSet<SnapName>) -> bool
    ensures { IsTrue result ↔ All (λ partial. IfSome partial.base (λ name. has names.now name ≡ true)) partials.now }
{
    partials
        .iter()
        .all(|partial| is_there(&partial.base, names))
}

// Whether no partial state is to become a snapshot that is there.
fn components_are_free(partials: &[Partial], names: &BTreeSet<SnapName>) -> bool
    requires { All IsPartialRow partials.now }
    ensures { IsTrue result ↔ All (λ partial. has names.now (name_to_be partial) ≡ false) partials.now }
{
    for partial in partials {
        if !is_free(partial, names) {
            return false;
        }
    }
    true
}

// Whether rows stand in their order.
fn rise(
    datasets: &[Dataset],
    snapshots: &[Snapshot],
    bookmarks: &[Bookmark],
    partials: &[Partial],
) -> bool
    ensures { IsTrue result ↔ Rise (record { datasets = datasets.now; snapshots = snapshots.now; bookmarks = bookmarks.now; partials = partials.now }) }
{
    datasets_rise(datasets)
        && snapshots_rise(snapshots)
        && bookmarks_rise(bookmarks)
        && partials_rise(partials)
}

// Whether origins and bases are there, and the names to be are free.
fn link_to(names: &BTreeSet<SnapName>, datasets: &[Dataset], partials: &[Partial]) -> bool
    requires { All IsPartialRow partials.now }
    ensures { IsTrue result ↔ LinkTo names.now datasets.now partials.now }
{
    origins_are_there(datasets, names)
        && bases_are_there(partials, names)
        && components_are_free(partials, names)
}

/// Whether rows that were read make a lawful directory.
pub(crate) fn is_lawful(
    alloc: Global,
    datasets: &[Dataset],
    snapshots: &[Snapshot],
    bookmarks: &[Bookmark],
    partials: &[Partial],
) -> Result<bool, AllocError>
    requires { AreRead (record { datasets = datasets.now; snapshots = snapshots.now; bookmarks = bookmarks.now; partials = partials.now }) }
    ensures { IfOk result (λ lawful. IsTrue lawful ↔ IsLawful (record { datasets = datasets.now; snapshots = snapshots.now; bookmarks = bookmarks.now; partials = partials.now })) }
{
    let Some(names) = distinct_names(alloc, snapshots)? else {
        return Ok(false);
    };
    let lawful = rise(datasets, snapshots, bookmarks, partials)
        && link_to(&names, datasets, partials);
    Ok(lawful)
}
