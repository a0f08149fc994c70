ghost use Rattle.zst_laws.specs.SendPlans.{AncestorIsWanted, BeforeIsTested, PlansAreOfPool};
ghost use Rattle.zst_laws.specs.SendPlans.{BookmarkIsOther, BookmarkIsWanted, ElseIsPlanned, LongListIsRefused, RelayIsLast, SnapshotIsWanted, SourceIsLater, SourceIsWanted};

/// In a sound pool the test of a plan says yes exactly where the source stands before the snapshot.
pub fn before_is_tested()
    ensures { BeforeIsTested }
{}

/// What is planned is of the pool, with the names that were asked for.
pub fn plans_are_of_pool()
    ensures { PlansAreOfPool }
{}

/// A source is refused exactly where it doesn't stand before the snapshot.
pub fn ancestor_is_wanted()
    ensures { AncestorIsWanted }
{}

/// A send is refused for want of its snapshot, its source and its redaction bookmark, for a source that doesn't stand before the
/// snapshot, for a bookmark that doesn't redact it, and for a bookmark where it is redacted already, in this order; and for nothing else
/// that the directory tells. Behind that the blocks of a redacted source tell whether its list is too long.
pub fn sends_are_refused_in_order()
    ensures absent { SnapshotIsWanted }
    ensures no_source { SourceIsWanted }
    ensures no_bookmark { BookmarkIsWanted }
    ensures later { SourceIsLater }
    ensures other { BookmarkIsOther }
    ensures relay { RelayIsLast }
    ensures planned { ElseIsPlanned }
    ensures long { LongListIsRefused }
{}
