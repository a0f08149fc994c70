ghost use Rattle.zst_laws.specs.RedactionSteps.{ListsAreKept, StepsKeepLists};

/// What redaction bookmarks list stays so while commands run, and a redaction lists what its redaction snapshots leave of its snapshot, as
/// long as no two snapshots have one guid.
pub fn steps_keep_lists()
    ensures { StepsKeepLists }
{}

/// It stays so in each pool that adds snapshots alone.
pub fn lists_are_kept()
    ensures { ListsAreKept }
{}
