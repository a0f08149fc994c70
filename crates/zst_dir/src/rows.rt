ghost use Rattle.std.specs.Prelude.{◌≡◌, ◌++◌, ◌∷◌};
ghost use Rattle.zst_names.specs.Names.{IsComponent, IsSnapshot, dataset_of};
ghost use Rattle.zst_dir.specs.Rows.{snapshot_is_before};

use std::str;
use zst_block::Ptr;
use zst_model::{GuidSet, Header, NameText, Point};
use zst_names::{BookName, DatasetName, SnapName};
use zst_tree::ObjSet;

/// A dataset.
#[derive(Drop)]
pub struct Dataset {
    pub name: DatasetName,
    /// 2 a file system, 3 a volume.
    pub kind: u32,
    /// The snapshot that it is a clone of.
    pub origin: Option<SnapName>,
    /// What it has now.
    pub head: ObjSet,
    /// The redaction guids of its head.
    pub redact: GuidSet,
}

impl Dataset {
    /// The same dataset, which takes no memory.
    pub fn duplicate(&self) -> Dataset
        ensures { result ≡ self.now }
    {
        Dataset {
            name: self.name.duplicate(),
            kind: self.kind,
            origin: duplicate_name(&self.origin),
            head: self.head,
            redact: self.redact.duplicate(),
        }
    }
}

/// A snapshot.
#[derive(Drop)]
pub struct Snapshot {
    pub name: SnapName,
    pub guid: u64,
    /// When it was made, in seconds.
    pub time: u64,
    /// The number of the commit that made it.
    pub number: u64,
    pub objects: ObjSet,
    /// Its redaction guids.
    pub redact: GuidSet,
}

impl Snapshot {
    /// The same snapshot, which takes no memory.
    pub fn duplicate(&self) -> Snapshot
        ensures { result ≡ self.now }
    {
        Snapshot {
            name: self.name.duplicate(),
            guid: self.guid,
            time: self.time,
            number: self.number,
            objects: self.objects,
            redact: self.redact.duplicate(),
        }
    }

    /// Whether it stands before another: by dataset, then by number.
    pub(crate) fn is_before(&self, other: &Snapshot) -> bool
        ensures { result ≡ snapshot_is_before self.now other.now }
    {
        let dataset = self.name.dataset();
        let other_dataset = other.name.dataset();
        dataset < other_dataset || dataset == other_dataset && self.number < other.number
    }
}

/// A bookmark.
#[derive(Drop)]
pub struct Bookmark {
    pub name: BookName,
    /// The guid of the snapshot that it was made of.
    pub guid: u64,
    /// The time of that snapshot, in seconds.
    pub time: u64,
    /// The number of that snapshot.
    pub number: u64,
    /// The guids of its redaction snapshots: some exactly where it has a list.
    pub redact: GuidSet,
    /// How many runs its list has.
    pub runs: u64,
    /// The levels of the tree of its list.
    pub levels: u8,
    /// The pointer to the top of that tree.
    pub root: Ptr,
}

impl Bookmark {
    /// The same bookmark, which takes no memory.
    pub fn duplicate(&self) -> Bookmark
        ensures { result ≡ self.now }
    {
        Bookmark {
            name: self.name.duplicate(),
            guid: self.guid,
            time: self.time,
            number: self.number,
            redact: self.redact.duplicate(),
            runs: self.runs,
            levels: self.levels,
            root: self.root,
        }
    }
}

/// What a receive that isn't complete has so far.
#[derive(Drop)]
pub struct Partial {
    /// The dataset that it is for.
    pub target: DatasetName,
    /// The component of the snapshot that it is to become.
    pub snapshot: NameText,
    /// Whether it is kept where its session ends.
    pub keep: bool,
    /// The header of its stream, without a resume point.
    pub header: Header,
    /// The snapshot that its objects began as.
    pub base: Option<SnapName>,
    pub objects: ObjSet,
    /// Where its stream goes on.
    pub point: Point,
}

impl Partial {
    /// The same partial state, which takes no memory.
    pub fn duplicate(&self) -> Partial
        ensures { result ≡ self.now }
    {
        Partial {
            target: self.target.duplicate(),
            snapshot: self.snapshot.duplicate(),
            keep: self.keep,
            header: self.header.duplicate(),
            base: duplicate_name(&self.base),
            objects: self.objects,
            point: self.point,
        }
    }

    /// The name of the snapshot that it is to become.
    pub fn snapshot_name(&self) -> SnapName
        requires { IsComponent self.now.snapshot }
        ensures text { result ≡ self.now.target ++ 64 ∷ self.now.snapshot }
        ensures dataset { dataset_of 64 result ≡ self.now.target }
        ensures name { IsSnapshot result }
    {
        match str::from_utf8(self.snapshot.as_bytes()) {
            Ok(component) => SnapName::of(&self.target, component),
            // A component is ASCII.
            Err(_) => unreachable!(),
        }
    }
}

fn duplicate_name(name: &Option<SnapName>) -> Option<SnapName>
    ensures { result ≡ name.now }
{
    name.as_ref().map(SnapName::duplicate)
}
