// What the runs of a send and of a receive come to together.
ghost use Rattle.zst_run.specs.AlikeTokens.{CutsTellAlike};
ghost use Rattle.zst_run.specs.Relays.{RelayedSnapshotStands};
ghost use Rattle.zst_run.specs.Replication.{ChainsComplete, RefusedLeavesNothing, RestsAreProgress, RunsAreChained, SentRestStands, SentSnapshotStands, SoundStaysSound, SourcesStillRemember, StopsAreProgress};
ghost use Rattle.zst_run.specs.Unreadable.{RedactedExactly, RedactedIsUnreadable};

use crate::send::pools_read_for_sends;
use zst_image::images_keep_partials;
use zst_laws::{keeping_is_done, plans_are_of_pool};
use zst_outside::Disk;
use zst_replication::{
    chains_complete, cut_leaves_nothing, equal_pieces_tell_alike, left_is_kept, one_more_is_kept,
    receives_keep_sound, receives_remember, relayed_is_received, rest_can_be_sent,
    rest_is_received, resumed_stops_are_progress, sent_can_be_sent, sent_is_received,
};

/// What one run sent and another received stands as one snapshot more, and all else is as it was.
pub fn sent_snapshot_stands<D: Disk, E: Disk>()
    ensures { (here now : D) (there later : E) → SentSnapshotStands (D.state here) (D.state now) (E.state there) (E.state later) }
{
    keeping_is_done();
    images_keep_partials();
    sent_can_be_sent();
    sent_is_received();
    one_more_is_kept();
}

/// What one run sent and another received, sent on as it is by a third and received by a fourth, stands there as it was sent.
pub fn relayed_snapshot_stands<D: Disk, E: Disk, F: Disk>()
    ensures { (here now : D) (there later after : E) (far beyond : F) → RelayedSnapshotStands (D.state here) (D.state now) (E.state there) (E.state later) (E.state after) (F.state far) (F.state beyond) }
{
    keeping_is_done();
    images_keep_partials();
    sent_can_be_sent();
    sent_is_received();
    one_more_is_kept();
    plans_are_of_pool();
    relayed_is_received();
    pools_read_for_sends();
}

/// Exactly what the redaction bookmark lists, and what was redacted before, is redacted in what is received, and can't be read there.
pub fn redacted_is_unreadable<E: Disk>()
    ensures exactly { RedactedExactly }
    ensures unreadable { (there later : E) → RedactedIsUnreadable (E.state there) (E.state later) }
{}

/// Two receives that were cut behind the same bytes leave equal tokens, whatever else their pools hold.
pub fn cuts_tell_alike<D: Disk, E: Disk>()
    ensures { (here now : D) (there later : E) → CutsTellAlike (D.state here) (D.state now) (E.state there) (E.state later) }
{
    images_keep_partials();
    left_is_kept();
    equal_pieces_tell_alike();
}

/// A receive that is refused leaves nothing of it.
pub fn refused_leaves_nothing<E: Disk>()
    ensures { (there later : E) → RefusedLeavesNothing (E.state there) (E.state later) }
{
    keeping_is_done();
    images_keep_partials();
    cut_leaves_nothing();
    left_is_kept();
}

/// Wherever a receive of a send is cut off or stopped, each image is in its progress.
pub fn stops_are_progress<D: Disk, E: Disk>()
    ensures { (here : D) (there later : E) → StopsAreProgress (D.state here) (E.state there) (E.state later) }
{
    keeping_is_done();
    images_keep_partials();
    sent_can_be_sent();
    zst_replication::stops_are_progress();
}

/// The rest of a stream, which a token asked for and another run received, stands as one snapshot more too.
pub fn sent_rest_stands<D: Disk, E: Disk>()
    ensures { (here now : D) (there later : E) → SentRestStands (D.state here) (D.state now) (E.state there) (E.state later) }
{
    keeping_is_done();
    images_keep_partials();
    rest_can_be_sent();
    rest_is_received();
    one_more_is_kept();
}

/// Wherever its receive is cut off or stopped, each image is in its progress.
pub fn rests_are_progress<D: Disk, E: Disk>()
    ensures { (here : D) (there later : E) → RestsAreProgress (D.state here) (E.state there) (E.state later) }
{
    keeping_is_done();
    images_keep_partials();
    rest_can_be_sent();
    resumed_stops_are_progress();
}

/// Any number of runs that are cut or stopped anywhere, each going on by the token that the one before left, are one chain, and
/// where the last one ends well, the snapshot that was sent stands.
pub fn chains_of_runs_complete<D: Disk, E: Disk>()
    ensures chained { (here : D) (there later : E) → RunsAreChained (D.state here) (E.state there) (E.state later) }
    ensures complete { (here : D) (there later : E) → ChainsComplete (D.state here) (E.state there) (E.state later) }
{
    keeping_is_done();
    images_keep_partials();
    sent_can_be_sent();
    rest_can_be_sent();
    chains_complete();
    one_more_is_kept();
}

/// Whatever is read, and wherever a receive is stopped, a sound pool stays sound.
pub fn sound_stays_sound<E: Disk>()
    ensures { (there later : E) → SoundStaysSound (E.state there) (E.state later) }
{
    receives_keep_sound();
}

/// Whatever is read, and wherever a receive is stopped, each snapshot and bookmark of a sound pool stays and remembers what it did.
pub fn sources_still_remember<E: Disk>()
    ensures { (there later : E) → SourcesStillRemember (E.state there) (E.state later) }
{
    receives_remember();
}
