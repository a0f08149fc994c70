use crate::fields::bytes::Bytes;
use crate::pools::snapshots::Snapshots;
use crate::refusals::subjects::Name;
use crate::states::attr::ObjectHead;
use zst_names::{BookName, DatasetName, SnapName};

/// A command on a pool, with the words that it was given.
#[derive(Drop)]
pub enum Command {
    /// Makes a file system.
    Fs {
        dataset: DatasetName,
    },
    /// Makes a volume.
    Volume {
        dataset: DatasetName,
    },
    /// Allocates an object of a dataset's head, or gives it other attributes.
    Object {
        dataset: DatasetName,
        object: u64,
        head: ObjectHead,
        bonus: Bytes,
        /// The spill block in its whole length, where there is one.
        spill: Option<Bytes>,
    },
    /// Writes one block of an object; zeros fill it up.
    Write {
        dataset: DatasetName,
        object: u64,
        index: u64,
        bytes: Bytes,
    },
    /// Makes holes of `count` blocks of an object.
    Punch {
        dataset: DatasetName,
        object: u64,
        first: u64,
        count: u64,
    },
    /// Frees `count` object numbers.
    Free {
        dataset: DatasetName,
        first: u64,
        count: u64,
    },
    /// Takes a snapshot of a dataset's head.
    Snapshot {
        name: SnapName,
    },
    /// Makes a dataset whose head is this snapshot's (zfs-clone(8)).
    Clone {
        origin: SnapName,
        dataset: DatasetName,
    },
    /// Keeps the place of a snapshot, without its objects (zfs-bookmark(8)).
    Bookmark {
        snapshot: SnapName,
        bookmark: BookName,
    },
    /// Lists the blocks of a snapshot that none of these has kept, and makes a redaction bookmark of it (zfs-redact(8)).
    Redact {
        snapshot: SnapName,
        bookmark: BookName,
        redactions: Snapshots,
    },
    /// Takes a dataset's head back to a snapshot (zfs-rollback(8)).
    Rollback {
        /// Whether the snapshots and bookmarks that are newer are destroyed (`-r`).
        destroys: bool,
        snapshot: SnapName,
    },
    /// Destroys a dataset with its snapshots and bookmarks, a snapshot, or a bookmark (zfs-destroy(8)).
    Destroy {
        name: Name,
    },
    /// Gives up what a receive into this dataset has so far (`-A` of zfs-receive(8)).
    Abort {
        dataset: DatasetName,
    },
    /// Makes all sectors free that nothing reaches.
    Reclaim,
    /// Reads one block of a dataset's head or of a snapshot.
    Read {
        name: Name,
        object: u64,
        index: u64,
    },
    /// Lists the pool.
    List,
    /// Lists the objects of a dataset's head or of a snapshot.
    ListObjects {
        name: Name,
    },
}

impl Command {
    ghost use Rattle.std.specs.Prelude.{◌≡◌};
    ghost use Rattle.zst_model.specs.pools.Step.{commits};

    /// Whether it commits where it isn't refused: each does but those that only tell what is there.
    pub fn commits(&self) -> bool
        ensures { result ≡ commits self.now }
    {
        !matches!(
            self,
            Command::Read { .. } | Command::List | Command::ListObjects { .. }
        )
    }
}
