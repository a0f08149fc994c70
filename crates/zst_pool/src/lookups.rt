// What the layers above ask of a pool besides its commands.
ghost use Rattle.std.specs.Prelude.{◌≡◌, ◌==◌, None, find, option_map};
ghost use Rattle.zst_pool.specs.Lookups.{set_named, FindsSet};

use crate::pool::Pool;
use zst_dir::Dir;
use zst_image::Body;
use zst_model::Name;
use zst_names::{DatasetName, SnapName};
use zst_outside::Disk;
use zst_tree::ObjSet;

impl<'d, D: Disk> Pool<'d, D> {
    /// The number of its last commit.
    pub fn number(&self) -> u64
        ensures { result ≡ self.now.kept.body.uber.number }
    {
        self.kept.body.uber().number
    }

    /// Its directory.
    pub fn dir(&self) -> &Dir
        ensures { result.now ≡ self.now.kept.dir }
    {
        &self.kept.dir
    }

    /// Its latest body.
    pub fn body(&self) -> &Body
        ensures { result.now ≡ self.now.kept.body }
    {
        &self.kept.body
    }

    /// Whether its disk has failed since it was opened.
    pub fn failed(&self) -> bool
        ensures { result ≡ self.now.io.failed }
    {
        self.io.failed
    }

    /// The name of the first snapshot with this guid.
    pub fn snapshot_of(&self, guid: u64) -> Option<SnapName>
        ensures { result ≡ option_map (λ snapshot. snapshot.name) (find (λ snapshot. snapshot.guid == guid) self.now.kept.dir.snapshots) }
    {
        self.kept
            .dir
            .snapshots()
            .iter()
            .find(|snapshot| snapshot.guid == guid)
            .map(|snapshot| snapshot.name.duplicate())
    }

    /// The object set of a dataset's head, or of a snapshot; a bookmark has none.
    pub fn objects_of(&self, name: &Name) -> Option<ObjSet>
        ensures finds { FindsSet name.now self.now.kept.dir result }
    {
        set_of(&self.kept.dir, name)
    }
}

/// The object set of a dataset's head, or of a snapshot; a bookmark has none.
pub(crate) fn set_of(dir: &Dir, name: &Name) -> Option<ObjSet>
    ensures finds { FindsSet name.now dir.now result }
{
    match name {
        Name::Dataset(name) => head_of(dir, name),
        Name::Snapshot(name) => objects_at(dir, name),
        Name::Bookmark(_) => None,
    }
}

// The object set of a dataset's head.
fn head_of(dir: &Dir, name: &DatasetName) -> Option<ObjSet>
    ensures { result ≡ set_named (Name.Dataset name.now) dir.now }
{
    dir.datasets()
        .iter()
        .find(|dataset| dataset.name == *name)
        .map(|dataset| dataset.head)
}

// The object set of a snapshot.
fn objects_at(dir: &Dir, name: &SnapName) -> Option<ObjSet>
    ensures { result ≡ set_named (Name.Snapshot name.now) dir.now }
{
    dir.snapshots()
        .iter()
        .find(|snapshot| snapshot.name == *name)
        .map(|snapshot| snapshot.objects)
}
