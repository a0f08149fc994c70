ghost use Rattle.zst_check.specs.NumbersInTurn.{InTurnIsEnough};
ghost use Rattle.zst_check.specs.Reports.{BadBookmarkDenies, DecidedHasReport, DiffersDenies, LateDateDenies, LateSnapshotDenies, ListDiffersDenies, NoneIsBoth, SoundByNearest};
ghost use Rattle.zst_check.specs.TwoFaults.{BookmarkIsTold, HeadDiffers, HeadIsNotTold, HeadIsTold};

/// A pool with a date that is too late isn't rightly dated.
pub fn late_dates_deny_dates()
    ensures { LateDateDenies }
{}

/// Nor is one with a snapshot whose number is too great, or doesn't rise.
pub fn late_snapshots_deny_dates()
    ensures { LateSnapshotDenies }
{}

/// A bookmark that isn't one of its dataset denies that all are.
pub fn misplaced_bookmarks_deny_bookmarks()
    ensures { BadBookmarkDenies }
{}

/// A state that differs from the nearest snapshot before it denies that each state agrees with each snapshot before it.
pub fn differences_deny_agreement()
    ensures { DiffersDenies }
{}

/// A list that has another pair, or lacks one, denies that each list is that of its bookmark.
pub fn lists_that_differ_deny_lists()
    ensures { ListDiffersDenies }
{}

/// No pool is told both to be sound and not to be.
pub fn no_report_is_both()
    ensures { NoneIsBoth }
{}

/// It is enough to compare the number of each snapshot with that of the one just before it, or of the origin.
pub fn numbers_in_turn_are_enough()
    ensures { InTurnIsEnough }
{}

/// It is enough to compare each state with the nearest snapshots before it.
pub fn nearest_states_make_sound()
    ensures { SoundByNearest }
{}

/// Where each part of soundness is decided there is a report.
pub fn decided_pools_have_reports()
    ensures { DecidedHasReport }
{}

/// Of a pool with a bookmark of no dataset and a head that differs from its snapshot the bookmark is told, and the head once the
/// bookmark is gone.
pub fn two_faults_are_told_in_order()
    ensures first { BookmarkIsTold }
    ensures second { HeadDiffers }
    ensures hidden { HeadIsNotTold }
    ensures shown { HeadIsTold }
{}
