ghost use Rattle.zst_laws.specs.PlanExample.{BookmarksArePlanned, ClonesArePlanned, PlansAreTold, RedactedArePlanned, SnapshotsArePlanned};

/// What is planned of two snapshots, and of a snapshot and a bookmark whose own snapshot is gone.
pub fn increments_are_planned()
    ensures snapshots { SnapshotsArePlanned }
    ensures bookmarks { BookmarksArePlanned }
    ensures told { PlansAreTold }
{}

/// What is planned of a clone's snapshot.
pub fn clones_are_planned()
    ensures { ClonesArePlanned }
{}

/// What is planned of redacted sends, and of redacted snapshots.
pub fn redacted_are_planned()
    ensures { RedactedArePlanned }
{}
