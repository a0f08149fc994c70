ghost use Rattle.std.specs.Prelude.{◌≡◌, ◌≤◌, ◌+◌, true, false, AllPairs, ◌≢◌, ◌++◌, ◌∷◌, ◌==◌, length, position, bytes_eq, filter, not, All, IfOk, IfSome, OnOk, OnErr};
ghost use Rattle.std.specs.List.{position_or_len};
ghost use Rattle.zst_model.specs.pools.Pool.{is_before, inserted};
ghost use Rattle.zst_names.specs.Names.{dataset_of};
ghost use Rattle.zst_tree.specs.Sets.{SetFits};
ghost use Rattle.zst_dir.specs.Rows.{Rows, no_rows, snapshot_is_before, HasDataset, HasSnapshot, IsBookmarkRow, IsDatasetRow, IsSnapshotRow, IsPartialRow, IsLawful, with_head, with_objects, with_partial, is_unkept_for};
ghost use Rattle.zst_model.specs.fields.Guids.{IsGuidSet};
ghost use Rattle.zst_dir.specs.Spelling.{dir_bytes};
ghost use Rattle.zst_dir.specs.declared.rows.Dataset.{Dataset};
ghost use Rattle.zst_dir.specs.declared.rows.Snapshot.{Snapshot};

use crate::rows::{Bookmark, Dataset, Partial, Snapshot};
use std::alloc::{AllocError, Global};
use std::marker::Model;
use zst_model::GuidSet;
use zst_names::{BookName, DatasetName, SnapName};
use zst_tree::ObjSet;

/// The directory of a pool: datasets, bookmarks and partial states by name, and snapshots by
/// dataset, then by number. It is always lawful: its rows stand in order, names differ, and what
/// they name is there.
#[derive(Drop)]
pub struct Dir {
    pub(crate) datasets: Vec<Dataset>,
    pub(crate) snapshots: Vec<Snapshot>,
    pub(crate) bookmarks: Vec<Bookmark>,
    pub(crate) partials: Vec<Partial>,
}

impl Model for Dir {
    ghost use Rattle.zst_dir.specs.Rows.{Rows, IsLawful};

    ghost Value = { Rows };

    ghost view = { λ d. record { datasets = d.datasets.items; snapshots = d.snapshots.items; bookmarks = d.bookmarks.items; partials = d.partials.items } };

    ghost invariant = { λ d. IsLawful (record { datasets = d.datasets.items; snapshots = d.snapshots.items; bookmarks = d.bookmarks.items; partials = d.partials.items }) };
}

impl Dir {
    /// A directory without rows.
    pub fn new(alloc: Global) -> Dir
        ensures { result ≡ no_rows }
    {
        Dir {
            datasets: Vec::new(alloc),
            snapshots: Vec::new(alloc),
            bookmarks: Vec::new(alloc),
            partials: Vec::new(alloc),
        }
    }

    /// The datasets, by name.
    pub fn datasets(&self) -> &[Dataset]
        ensures same { result.now ≡ self.now.datasets }
        ensures lawful { IsLawful self.now }
    {
        self.datasets.as_slice()
    }

    /// The snapshots, by dataset, then by number.
    pub fn snapshots(&self) -> &[Snapshot]
        ensures { result.now ≡ self.now.snapshots }
    {
        self.snapshots.as_slice()
    }

    /// The bookmarks, by name.
    pub fn bookmarks(&self) -> &[Bookmark]
        ensures { result.now ≡ self.now.bookmarks }
    {
        self.bookmarks.as_slice()
    }

    /// The partial states, by target.
    pub fn partials(&self) -> &[Partial]
        ensures { result.now ≡ self.now.partials }
    {
        self.partials.as_slice()
    }

    /// The place of the dataset of this name.
    pub fn dataset(&self, name: &DatasetName) -> Option<usize>
        ensures { result ≡ position (λ dataset. bytes_eq dataset.name name.now) self.now.datasets }
    {
        self.datasets
            .iter()
            .position(|dataset| dataset.name == *name)
    }

    /// The place of the snapshot of this name.
    pub fn snapshot(&self, name: &SnapName) -> Option<usize>
        ensures { result ≡ position (λ snapshot. bytes_eq snapshot.name name.now) self.now.snapshots }
    {
        self.snapshots
            .iter()
            .position(|snapshot| snapshot.name == *name)
    }

    /// The place of the bookmark of this name.
    pub fn bookmark(&self, name: &BookName) -> Option<usize>
        ensures { result ≡ position (λ bookmark. bytes_eq bookmark.name name.now) self.now.bookmarks }
    {
        self.bookmarks
            .iter()
            .position(|bookmark| bookmark.name == *name)
    }

    /// The place of the partial state of this target.
    pub fn partial(&self, name: &DatasetName) -> Option<usize>
        ensures { result ≡ position (λ partial. bytes_eq partial.target name.now) self.now.partials }
    {
        self.partials
            .iter()
            .position(|partial| partial.target == *name)
    }

    /// The place of the first snapshot with this guid.
    pub fn by_guid(&self, guid: u64) -> Option<usize>
        ensures { result ≡ position (λ snapshot. snapshot.guid == guid) self.now.snapshots }
    {
        self.snapshots
            .iter()
            .position(|snapshot| snapshot.guid == guid)
    }

    /// Adds a dataset at its place. Without memory nothing is added.
    pub fn add_dataset(&mut self, dataset: Dataset) -> Result<(), AllocError>
        requires row { IsDatasetRow dataset }
        requires new { HasDataset self.old dataset.name → ⊥ }
        requires origin { IfSome dataset.origin (HasSnapshot self.old) }
        ensures added { OnOk result (self.new ≡ record self.old { datasets = inserted (λ a b. is_before a.name b.name) dataset self.old.datasets }) }
        ensures same { OnErr result (self.new ≡ self.old) }
        ensures grows { length (dir_bytes self.new) ≤ length (dir_bytes self.old) + 1024 }
    {
        let place = place_of_dataset(self.datasets.as_slice(), &dataset.name);
        self.datasets.insert(place, dataset)?;
        Ok(())
    }

    /// Leaves out the partial state of this target, where there is one.
    pub fn drop_partial(&mut self, name: &DatasetName)
        ensures dropped { self.new ≡ record self.old { partials = filter (λ partial. not (bytes_eq partial.target name.now)) self.old.partials } }
        ensures shrinks { length (dir_bytes self.new) ≤ length (dir_bytes self.old) }
    {
        self.partials.retain(|partial| partial.target != *name);
    }

    /// Leaves out the partial state of this target, where there is one that isn't kept.
    pub fn drop_unkept(&mut self, name: &DatasetName)
        ensures dropped { self.new ≡ record self.old { partials = filter (λ partial. not (is_unkept_for name.now partial)) self.old.partials } }
        ensures shrinks { length (dir_bytes self.new) ≤ length (dir_bytes self.old) }
    {
        self.partials
            .retain(|partial| partial.target != *name || partial.keep);
    }

    /// Leaves out each partial state that isn't kept.
    pub fn retain_kept(&mut self)
        ensures retained { self.new ≡ record self.old { partials = filter (λ partial. partial.keep) self.old.partials } }
        ensures shrinks { length (dir_bytes self.new) ≤ length (dir_bytes self.old) }
    {
        self.partials.retain(|partial| partial.keep);
    }

    /// Adds a partial state at its place. Without memory nothing is added.
    pub fn add_partial(&mut self, partial: Partial) -> Result<(), AllocError>
        requires row { IsPartialRow partial }
        requires new { All (λ other. other.target ≢ partial.target) self.old.partials }
        requires base { IfSome partial.base (HasSnapshot self.old) }
        requires component { HasSnapshot self.old (partial.target ++ 64 ∷ partial.snapshot) → ⊥ }
        ensures added { OnOk result (self.new ≡ record self.old { partials = with_partial partial self.old.partials }) }
        ensures same { OnErr result (self.new ≡ self.old) }
        ensures grows { length (dir_bytes self.new) ≤ length (dir_bytes self.old) + 1280 }
    {
        let place = place_of_partial(self.partials.as_slice(), &partial.target);
        self.partials.insert(place, partial)?;
        Ok(())
    }

    /// Gives the dataset of this name another head.
    pub fn set_head(&mut self, name: &DatasetName, head: ObjSet)
        requires { SetFits head }
        ensures headed { self.new ≡ record self.old { datasets = with_head name.now head self.old.datasets } }
        ensures as_long { length (dir_bytes self.new) ≡ length (dir_bytes self.old) }
    {
        set_head(self.datasets.as_mut_slice(), name, head);
    }

    /// Gives the dataset of this name another head, and other redaction guids.
    pub fn set_objects(&mut self, name: &DatasetName, head: ObjSet, redact: &GuidSet)
        requires head { SetFits head }
        requires redact { IsGuidSet redact.now }
        ensures changed { self.new ≡ record self.old { datasets = with_objects name.now head redact.now self.old.datasets } }
        ensures grows { length (dir_bytes self.new) ≤ length (dir_bytes self.old) + 136 }
    {
        set_objects(self.datasets.as_mut_slice(), name, head, redact);
    }

    /// Adds a snapshot at its place. Without memory nothing is added.
    pub fn add_snapshot(&mut self, snapshot: Snapshot) -> Result<(), AllocError>
        requires row { IsSnapshotRow snapshot }
        requires new { HasSnapshot self.old snapshot.name → ⊥ }
        requires dataset { HasDataset self.old (dataset_of 64 snapshot.name) }
        requires component { All (λ partial. partial.target ++ 64 ∷ partial.snapshot ≢ snapshot.name) self.old.partials }
        ensures added { OnOk result (self.new ≡ record self.old { snapshots = inserted snapshot_is_before snapshot self.old.snapshots }) }
        ensures same { OnErr result (self.new ≡ self.old) }
        ensures grows { length (dir_bytes self.new) ≤ length (dir_bytes self.old) + 1024 }
    {
        let place = place_of_snapshot(self.snapshots.as_slice(), &snapshot);
        self.snapshots.insert(place, snapshot)?;
        Ok(())
    }

    /// Adds a bookmark at its place. Without memory nothing is added.
    pub fn add_bookmark(&mut self, bookmark: Bookmark) -> Result<(), AllocError>
        requires row { IsBookmarkRow bookmark }
        requires new { All (λ other. other.name ≢ bookmark.name) self.old.bookmarks }
        ensures added { OnOk result (self.new ≡ record self.old { bookmarks = inserted (λ a b. is_before a.name b.name) bookmark self.old.bookmarks }) }
        ensures same { OnErr result (self.new ≡ self.old) }
        ensures grows { length (dir_bytes self.new) ≤ length (dir_bytes self.old) + 1024 }
    {
        let place = place_of_bookmark(self.bookmarks.as_slice(), &bookmark.name);
        self.bookmarks.insert(place, bookmark)?;
        Ok(())
    }

    /// The same directory.
    pub fn copy(&self, alloc: Global) -> Result<Dir, AllocError>
        ensures { IfOk result (λ dir. dir ≡ self.now) }
    {
        Ok(Dir {
            datasets: self.datasets.iter().map(Dataset::duplicate).collect(alloc)?,
            snapshots: self
                .snapshots
                .iter()
                .map(Snapshot::duplicate)
                .collect(alloc)?,
            bookmarks: self
                .bookmarks
                .iter()
                .map(Bookmark::duplicate)
                .collect(alloc)?,
            partials: self.partials.iter().map(Partial::duplicate).collect(alloc)?,
        })
    }
}

// The place of the first dataset that one of this name stands before, or the end.
fn place_of_dataset(datasets: &[Dataset], name: &DatasetName) -> usize
    requires { AllPairs (λ a b. is_before a.name b.name ≡ true) datasets.now }
    ensures { result ≡ position_or_len (λ other. is_before name.now other.name) datasets.now }
{
    datasets.partition_point(|other| other.name <= *name)
}

// The place of the first snapshot that this one stands before, or the end.
fn place_of_snapshot(snapshots: &[Snapshot], snapshot: &Snapshot) -> usize
    requires { AllPairs (λ a b. snapshot_is_before b a ≡ false) snapshots.now }
    ensures { result ≡ position_or_len (snapshot_is_before snapshot.now) snapshots.now }
{
    snapshots.partition_point(|other| !snapshot.is_before(other))
}

// The place of the first bookmark that one of this name stands before, or the end.
fn place_of_bookmark(bookmarks: &[Bookmark], name: &BookName) -> usize
    requires { AllPairs (λ a b. is_before a.name b.name ≡ true) bookmarks.now }
    ensures { result ≡ position_or_len (λ other. is_before name.now other.name) bookmarks.now }
{
    bookmarks.partition_point(|other| other.name <= *name)
}

// The place of the first partial state that one of this target stands before, or the end.
fn place_of_partial(partials: &[Partial], target: &DatasetName) -> usize
    requires { AllPairs (λ a b. is_before a.target b.target ≡ true) partials.now }
    ensures { result ≡ position_or_len (λ other. is_before target.now other.target) partials.now }
{
    partials.partition_point(|other| other.target <= *target)
}

// Gives the dataset of this name another head, and other redaction guids.
fn set_objects(datasets: &mut [Dataset], name: &DatasetName, head: ObjSet, redact: &GuidSet)
    ensures { datasets.new ≡ with_objects name.now head redact.now datasets.old }
{
    for row in datasets.iter_mut() {
        if row.name == *name {
            row.head = head;
            row.redact = redact.duplicate();
        }
    }
}

// Gives the dataset of this name another head.
fn set_head(datasets: &mut [Dataset], name: &DatasetName, head: ObjSet)
    ensures { datasets.new ≡ with_head name.now head datasets.old }
{
    for dataset in datasets.iter_mut() {
        if dataset.name == *name {
            dataset.head = head;
        }
    }
}
