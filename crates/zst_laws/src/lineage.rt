ghost use Rattle.zst_laws.specs.Lineage.{CloneMakes, BookmarkMakes, RollbackMakes, RollbackWantsNewest, DatasetGoes, SnapshotGoes, BookmarkGoes};

/// A clone begins as its snapshot: of its kind, with its objects, their dates and its redaction guids.
pub fn clones_are_as_snapshots()
    ensures { CloneMakes }
{}

/// A bookmark keeps its snapshot's guid, time and number.
pub fn bookmarks_keep_snapshots()
    ensures { BookmarkMakes }
{}

/// A rollback leaves the head as the snapshot and nothing newer of its dataset; without -r it is accepted only where nothing is.
pub fn heads_are_rolled_back()
    ensures made { RollbackMakes }
    ensures newest { RollbackWantsNewest }
{}

/// A dataset is destroyed with its snapshots and bookmarks, a snapshot or a bookmark alone.
pub fn destroyed_go_alone()
    ensures dataset { DatasetGoes }
    ensures snapshot { SnapshotGoes }
    ensures bookmark { BookmarkGoes }
{}
