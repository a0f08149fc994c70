// Which rows a directory is to be without.
ghost use Rattle.std.specs.Prelude.{◌≡◌, ◌≤◌, filter, length, not};
ghost use Rattle.zst_dir.specs.Removal.{AreUnused, takes_bookmark, takes_dataset, takes_snapshot, without};
ghost use Rattle.zst_dir.specs.Spelling.{dir_bytes};

use crate::dir::Dir;
use crate::rows::{Bookmark, Dataset, Snapshot};
use zst_names::{BookName, DatasetName, SnapName};

/// What goes of a directory.
#[derive(Drop)]
pub enum Removal {
    /// A dataset, with its snapshots and its bookmarks.
    Dataset(DatasetName),
    /// A snapshot.
    Snapshot(SnapName),
    /// A bookmark.
    Bookmark(BookName),
    /// The snapshots and the bookmarks of a dataset that are newer than the commit of this number.
    Newer { dataset: DatasetName, number: u64 },
}

impl Removal {
    /// Whether this dataset goes.
    pub fn takes_dataset(&self, dataset: &Dataset) -> bool
        ensures { result ≡ takes_dataset self.now dataset.now }
    {
        match self {
            Removal::Dataset(name) => dataset.name == *name,
            _ => false,
        }
    }

    /// Whether this snapshot goes.
    pub fn takes_snapshot(&self, snapshot: &Snapshot) -> bool
        ensures { result ≡ takes_snapshot self.now snapshot.now }
    {
        match self {
            Removal::Dataset(name) => snapshot.name.dataset() == *name,
            Removal::Snapshot(name) => snapshot.name == *name,
            Removal::Bookmark(_) => false,
            Removal::Newer { dataset, number } => {
                snapshot.name.dataset() == *dataset && *number < snapshot.number
            }
        }
    }

    /// Whether this bookmark goes.
    pub fn takes_bookmark(&self, bookmark: &Bookmark) -> bool
        ensures { result ≡ takes_bookmark self.now bookmark.now }
    {
        match self {
            Removal::Dataset(name) => bookmark.name.dataset() == *name,
            Removal::Snapshot(_) => false,
            Removal::Bookmark(name) => bookmark.name == *name,
            Removal::Newer { dataset, number } => {
                bookmark.name.dataset() == *dataset && *number < bookmark.number
            }
        }
    }
}

impl Dir {
    /// Leaves out what goes: of its snapshots none is an origin or a base.
    pub fn leave_out(&mut self, going: &Removal)
        requires unused { AreUnused going.now self.old }
        ensures left { self.new ≡ without going.now self.old }
        ensures shrinks { length (dir_bytes self.new) ≤ length (dir_bytes self.old) }
    {
        self.datasets
            .retain(|dataset| !going.takes_dataset(dataset));
        self.snapshots
            .retain(|snapshot| !going.takes_snapshot(snapshot));
        self.bookmarks
            .retain(|bookmark| !going.takes_bookmark(bookmark));
    }
}
