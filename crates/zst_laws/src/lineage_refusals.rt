ghost use Rattle.zst_laws.specs.LineageRefusals.{CloneWantsSnapshot, CloneIsThere, CloneIsBegun, ClonesAreFull, CloneHasNoNumber};
ghost use Rattle.zst_laws.specs.LineageRefusals.{BookmarkWantsSnapshot, BookmarkIsElsewhere, BookmarkIsThere, BookmarksAreFull, BookmarkHasNoNumber};
ghost use Rattle.zst_laws.specs.LineageRefusals.{NothingToDestroy, PartialIsNamed, CloneIsNamed, NewerMarkIsNamed, NewerSnapshotIsNamed, DestroyHasNoNumber, BookmarkStays};

/// A clone is refused for want of its snapshot, where its name is taken, at the limit of datasets, and at the last number, in this order.
pub fn clones_are_refused()
    ensures absent { CloneWantsSnapshot }
    ensures there { CloneIsThere }
    ensures begun { CloneIsBegun }
    ensures full { ClonesAreFull }
    ensures number { CloneHasNoNumber }
{}

/// A bookmark is refused for want of its snapshot, for another dataset, where it is there, at the limit of bookmarks, and at the last
/// number, in this order.
pub fn bookmarks_are_refused()
    ensures absent { BookmarkWantsSnapshot }
    ensures elsewhere { BookmarkIsElsewhere }
    ensures there { BookmarkIsThere }
    ensures full { BookmarksAreFull }
    ensures number { BookmarkHasNoNumber }
{}

/// Behind sessions, a rollback and a destroy are refused for a partial state and then for a clone, and of several the one with the
/// least name is told; at last at the last number.
pub fn destroys_are_refused()
    ensures absent { NothingToDestroy }
    ensures busy { PartialIsNamed }
    ensures cloned { CloneIsNamed }
    ensures number { DestroyHasNoNumber }
    ensures bookmark { BookmarkStays }
{}

/// Without -r a rollback is refused for a newer bookmark and then for a newer snapshot, and of several the one with the least name is
/// told.
pub fn rollbacks_are_refused()
    ensures bookmark { NewerMarkIsNamed }
    ensures snapshot { NewerSnapshotIsNamed }
{}
