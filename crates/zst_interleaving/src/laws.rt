ghost use Rattle.zst_interleaving.specs.Events.{EventsLeaveCourses, OpenedAreOnCourse, PumpsAreProgress, PumpsComplete, PumpsStayOnCourse, ReceivesStay, RefusedPumpsLeaveNothing, RunsAreProgress, RunsComplete, RunsStayOnCourse};
ghost use Rattle.zst_interleaving.specs.FedReplays.{ReplayedPumpsAreProgress, ReplayedPumpsComplete, ReplaysSplit, ScriptsAreFit, WaysAreInEvents};
ghost use Rattle.zst_interleaving.specs.Feeds.{FeedsAreProgress, FeedsComplete, FeedsStayOnCourse, FitFeedsComplete, FreshAreFit, RefusedLeaveNothing};
ghost use Rattle.zst_interleaving.specs.LawfulFeeds.{FeedsKeepLawful};
ghost use Rattle.zst_interleaving.specs.LawfulRuns.{LawfulRunsAreProgress, LawfulRunsComplete, RunsFindLawful};
ghost use Rattle.zst_interleaving.specs.LawfulWorlds.{LinesAreFit, MovesKeepLawful, OpenedAreLawful, ReplaysKeepLawful};
ghost use Rattle.zst_replication.specs.Grounds.{Grounds};
ghost use Rattle.zst_replication.specs.Replicas.{LeftIsKept};

/// What the laws of a received send rest on.
fn grounds_stand()
    ensures { Grounds }
{
    zst_laws::send_is_exact();
    zst_laws::snapshot_has_view();
    zst_laws::start_stands();
    zst_laws::cut_stands();
    zst_laws::resume_is_exact();
    zst_laws::points_rise();
    zst_laws::received_is_state();
    zst_stream::fronts_agree();
    zst_stream::view_is_a_stream();
    zst_stream::view_is_read();
    zst_stream::image_is_read();
    zst_stream::covers_are_pieces();
}

/// One feed of a receive on its course, whatever was done to its pool between its feeds: what the image keeps is in its progress, and
/// where it goes on it is on its course still. Where it is cut, the image keeps what it kept.
pub fn feeds_are_progress()
    ensures progress { FeedsAreProgress }
    ensures stay { FeedsStayOnCourse }
    ensures cut { LeftIsKept }
{
    grounds_stand();
    zst_replication::left_is_kept();
    zst_sessions::partial_states_are_their_sessions();
}

/// A feed that comes to END has made one snapshot more: what the view makes of the base, which is what was sent where the base was fit
/// for it.
pub fn feeds_complete()
    ensures made { FeedsComplete }
    ensures sent { FitFeedsComplete }
{
    grounds_stand();
    zst_sessions::partial_states_are_their_sessions();
}

/// The base of a receive that was planned afresh is fit for what is sent.
pub fn fresh_are_fit()
    ensures { FreshAreFit }
{}

/// Whatever an event is and however it is answered, it leaves an open receive as it stood, unless it feeds it or ends it; and one that it
/// leaves so is on its course still.
pub fn events_leave_courses()
    ensures stay { ReceivesStay }
    ensures courses { EventsLeaveCourses }
{
    zst_sessions::moves_keep_worlds();
}

/// However a pump is answered, what the image of its receive's pool keeps is in the receive's progress, and where the receive is open
/// still it is on its course still. One that comes to END has made the snapshot that was sent.
pub fn pumps_are_progress()
    ensures progress { PumpsAreProgress }
    ensures stay { PumpsStayOnCourse }
    ensures complete { PumpsComplete }
{
    feeds_are_progress();
    feeds_complete();
}

/// Along a run that feeds a receive with one stream alone, from where it was opened on, it stays on its course, whatever stands between
/// its feeds.
pub fn runs_stay_on_course()
    ensures opened { OpenedAreOnCourse }
    ensures runs { RunsStayOnCourse }
{
    zst_sessions::moves_keep_worlds();
    events_leave_courses();
    pumps_are_progress();
}

/// Of every interleaving: whatever stands between the feeds of a receive, after each what the image keeps is in the receive's progress from
/// what it kept before, and one that comes to END leaves the snapshot that was sent.
pub fn every_feed_is_progress()
    ensures progress { RunsAreProgress }
    ensures complete { RunsComplete }
{
    runs_stay_on_course();
    pumps_are_progress();
}

/// Where the BEGIN of what was sent is refused in the pool that it finds, the image keeps nothing of its receive.
pub fn refused_leave_nothing()
    ensures { RefusedLeaveNothing }
{
    grounds_stand();
}

/// However a pump is answered whose BEGIN is refused in the pool that it finds, the image keeps nothing of its receive.
pub fn refused_pumps_leave_nothing()
    ensures { RefusedPumpsLeaveNothing }
{
    refused_leave_nothing();
}

/// A feed of bytes leaves a lawful pool lawful, however it ends: where it goes on, where it comes to END, and where it is refused.
pub fn feeds_keep_lawful()
    ensures { FeedsKeepLawful }
{
    zst_laws::received_is_state();
    zst_stream::covered_fit();
}

/// What the words of a line say is an event of such a replay: its command is of words in their ranges, and its receive is of names.
pub fn lines_are_fit()
    ensures { LinesAreFit }
{}

/// Two lawful pools that are opened are a lawful world. Whatever an event is and however it is answered, it leaves a lawful world lawful,
/// and so does a replay of events: the pool that each pump of it finds is lawful, and the piece that it takes is bytes.
pub fn replays_keep_lawful()
    ensures opened { OpenedAreLawful }
    ensures moves { MovesKeepLawful }
    ensures replays { ReplaysKeepLawful }
{
    zst_laws::steps_keep_pools();
    zst_send::sent_are_bytes();
    zst_sessions::moves_keep_worlds();
    feeds_keep_lawful();
}

/// Of every interleaving of two pools that were lawful when it began: each pump finds a lawful pool, and so after each feed of a receive
/// the image keeps what is in its progress, and one that comes to END leaves the snapshot that was sent.
pub fn every_lawful_feed_is_progress()
    ensures find { RunsFindLawful }
    ensures progress { LawfulRunsAreProgress }
    ensures complete { LawfulRunsComplete }
{
    zst_sessions::moves_keep_worlds();
    replays_keep_lawful();
    every_feed_is_progress();
}

/// A replay splits at each of its events, and what is on its way is on the way of one of them.
pub fn replays_split()
    ensures split { ReplaysSplit }
    ensures ways { WaysAreInEvents }
{}

/// The events that the lines of a script say are fit for a replay of lawful pools.
pub fn scripts_are_fit()
    ensures { ScriptsAreFit }
{
    lines_are_fit();
}

/// Of every replay of events that lines say, from two lawful pools on: at each pump into a receive that the events before it opened and
/// fed with one stream alone, what the image keeps, behind it and at each of its moments, is in the receive's progress from what it kept
/// before. Where the pump comes to END, the snapshot that was sent is there.
pub fn every_replayed_feed_is_progress()
    ensures progress { ReplayedPumpsAreProgress }
    ensures complete { ReplayedPumpsComplete }
{
    zst_sessions::moves_keep_worlds();
    replays_keep_lawful();
    every_lawful_feed_is_progress();
}
