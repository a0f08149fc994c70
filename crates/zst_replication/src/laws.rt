ghost use Rattle.zst_replication.specs.RecordCounts.{RecordsAreCounted};
ghost use Rattle.zst_replication.specs.Grounds.{Grounds};
ghost use Rattle.zst_replication.specs.Histories.{EventsAreHistory, ReceivedRemembers, ReceivesRemember};
ghost use Rattle.zst_replication.specs.MatchingBases.{BasesMatch, FullMatches, OneMoreIsKept, SentCanBeSent, RestCanBeSent, SourceIsKnown};
ghost use Rattle.zst_replication.specs.PlannedReceives.{FullIsPlanned, IncrementIsPlanned};
ghost use Rattle.zst_replication.specs.Replicas.{CutLeavesNothing, LeftIsKept, SentIsReceived, StopsAreProgress};
ghost use Rattle.zst_replication.specs.Resumption.{ChainsAreUnderway, ChainsComplete, EndsAreApplied, FitRestIsReceived, PiecesAreApplied, RestIsReceived, ResumedStopsAreProgress, TokensGoOn};
ghost use Rattle.zst_replication.specs.Soundness.{ReceivesKeepSound};
ghost use Rattle.zst_replication.specs.TakenSends.{ReceivesStayInLimits, RestIsAccepted, RestIsTaken, SentIsAccepted, SentIsTaken};

/// What a feed applies is counted by the records that its text covers.
pub fn records_are_counted()
    ensures { RecordsAreCounted }
{
    zst_stream::covered_in_order();
    zst_stream::fronts_agree();
}

/// What the laws of a received send rest on.
fn grounds_stand()
    ensures { Grounds }
{
    zst_laws::send_is_exact();
    zst_laws::snapshot_has_view();
    zst_laws::start_stands();
    zst_laws::cut_stands();
    zst_laws::resume_is_exact();
    zst_laws::points_rise();
    zst_laws::received_is_state();
    zst_stream::fronts_agree();
    zst_stream::view_is_a_stream();
    zst_stream::view_is_read();
    zst_stream::image_is_read();
    zst_stream::covers_are_pieces();
}

/// However it is cut into pieces, a stream that was sent and is received to its end makes one snapshot more: the one that was sent.
pub fn sent_is_received()
    ensures { SentIsReceived }
{
    grounds_stand();
}

/// However it is cut into pieces, what was sent is refused by nothing once its plan passes, but by a limit of the pool.
pub fn sent_is_taken()
    ensures { SentIsTaken }
{
    grounds_stand();
    zst_stream::items_are_near();
}

/// A full send passes the plan of a receive into a pool where the target isn't there, and an increment where the target stands at
/// its source.
pub fn sent_is_planned()
    ensures full { FullIsPlanned }
    ensures increment { IncrementIsPlanned }
{
    zst_plan::streams_are_accepted();
}

/// Where its plan passes, which asks for room, and the pool's number can rise with each piece, it is refused by nothing at all.
pub fn sent_is_accepted()
    ensures { SentIsAccepted }
{
    grounds_stand();
    zst_stream::items_are_near();
}

/// So it is of the rest of it, for a partial state on its way: a commit alone refuses it, and none does in a pool within its limits.
pub fn rest_is_accepted()
    ensures taken { RestIsTaken }
    ensures accepted { RestIsAccepted }
{
    grounds_stand();
    zst_stream::items_are_near();
    tokens_go_on();
}

/// Whatever is read, a receive leaves a pool within its limits so.
pub fn receives_stay_in_limits()
    ensures { ReceivesStayInLimits }
{}

/// Of a receive without `-s` that hasn't come to END the image keeps nothing, whatever was read.
pub fn cut_leaves_nothing()
    ensures { CutLeavesNothing }
{}

/// Wherever the stream of a send is cut off, what the image keeps of its receive is in its progress.
pub fn stops_are_progress()
    ensures { StopsAreProgress }
{
    grounds_stand();
}

/// So it is of a receive that goes on with a partial state, wherever the rest of its stream is cut off.
pub fn resumed_stops_are_progress()
    ensures { ResumedStopsAreProgress }
{
    grounds_stand();
}

/// The rest of a stream that is received to its end makes one snapshot more: what the view makes of the base, which is what was
/// sent where the base was fit for it.
pub fn rest_is_received()
    ensures made { RestIsReceived }
    ensures sent { FitRestIsReceived }
{
    grounds_stand();
}

/// Whatever is read, and however it is cut into pieces: while a receive is under way, its partial state is what all covered
/// records make of that with which it began, and the image has it where it is kept.
pub fn pieces_are_applied()
    ensures { PiecesAreApplied }
{
    zst_laws::received_is_state();
    zst_stream::fronts_agree();
}

/// Whatever is read, from a send or not: a receive that comes to END makes one snapshot more, with BEGIN's guid and the state
/// that all covered records make of that with which it began.
pub fn ends_are_applied()
    ensures { EndsAreApplied }
{
    zst_laws::received_is_state();
    zst_stream::fronts_agree();
}

/// The token that is told of a partial state on its way names its point, and the stream that is sent by it goes on there.
pub fn tokens_go_on()
    ensures { TokensGoOn }
{}

/// A receive in sessions stays on its way as long as what happens between them leaves its partial state, and once it comes to
/// END it has made one snapshot more: the one that was sent.
pub fn chains_complete()
    ensures underway { ChainsAreUnderway }
    ensures complete { ChainsComplete }
{
    stops_are_progress();
    resumed_stops_are_progress();
    rest_is_received();
}

/// What goes where a session ends isn't kept before that either.
pub fn left_is_kept()
    ensures { LeftIsKept }
{}

/// One snapshot more in the pool that runs is one more in what its image keeps.
pub fn one_more_is_kept()
    ensures { OneMoreIsKept }
{}

/// What is planned of a lawful pool can be stated and read: what is redacted of it, or is to be, is user data, and a send that states
/// no redaction guids has nothing redacted.
pub fn sent_can_be_sent()
    ensures { SentCanBeSent }
{
    zst_laws::plans_are_of_pool();
    zst_laws::sends_are_stated();
    zst_stream::sent_is_allowed();
    zst_record::payload_has_length();
}

/// So can the rest of it, from each point that a token can have.
pub fn rest_can_be_sent()
    ensures { RestCanBeSent }
{
    zst_laws::sends_are_stated();
    zst_stream::sent_is_allowed();
    zst_record::payload_has_length();
}

/// A full stream matches whatever a lawful pool has.
pub fn full_matches()
    ensures { FullMatches }
{
    zst_laws::any_is_full_base();
}

/// An increment matches where the receiver's snapshots with its source's guid have what the source remembers.
pub fn bases_match()
    ensures { BasesMatch }
{
    zst_laws::any_is_full_base();
    zst_laws::remembered_is_base();
    zst_laws::plans_are_of_pool();
}

/// So it does where they have the state of the source's own snapshot.
pub fn source_is_known()
    ensures { SourceIsKnown }
{
    zst_laws::own_is_remembered();
}

/// Whatever is read, and however it is cut into pieces, a receive into a target with a dataset's name leaves a sound pool
/// sound: the one that runs, and what the image keeps of it.
pub fn receives_keep_sound()
    ensures { ReceivesKeepSound }
{
    zst_laws::received_is_state();
}

/// Whatever is read, and however it is cut into pieces, each snapshot and bookmark of a sound pool stays through a receive, and
/// remembers what it did; and a received snapshot remembers its own state.
pub fn receives_remember()
    ensures sources { ReceivesRemember }
    ensures received { ReceivedRemembers }
{
    zst_laws::received_is_state();
    zst_laws::own_is_remembered();
}

/// What a source remembers stays fit as a base through any number of commands and receives, as long as the source stands.
pub fn events_are_history()
    ensures { EventsAreHistory }
{
    zst_laws::steps_keep_sound();
    zst_laws::steps_keep_pools();
    zst_laws::steps_remember();
    zst_laws::remembered_is_base();
    receives_keep_sound();
    receives_remember();
}
