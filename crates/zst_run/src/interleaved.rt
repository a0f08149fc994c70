// What a replay comes to for each of its receives, whatever other sessions and commands there are.
ghost use Rattle.zst_run.specs.Interleaved.{ReplayedFeedsAreProgress, ReplayedFeedsComplete, ReplaysRunByEvents};

use zst_interleaving::{
    every_replayed_feed_is_progress, replays_keep_lawful, replays_split, scripts_are_fit,
};
use zst_outside::Disk;

/// Of a replay on two images that read as pools: each event splits it, and each image, at every moment and in the end, stood before it or
/// reads as what is kept on the way of one of its events.
pub fn replays_run_by_events<D: Disk, E: Disk>()
    ensures { (here now : D) (there later : E) → ReplaysRunByEvents (D.state here) (D.state now) D.tells_images (E.state there) (E.state later) E.tells_images }
{
    replays_split();
}

/// Of such a replay: at each pump into a receive that the events before it opened and fed with one stream alone, what the image keeps,
/// behind the pump and at each of its moments, is in the receive's progress from what it kept before, whatever other events stand
/// between and however any is answered. Where the pump comes to END, the snapshot that was sent is there.
pub fn replayed_feeds_are_progress<D: Disk, E: Disk>()
    ensures progress { (here now : D) (there later : E) → ReplayedFeedsAreProgress (D.state here) (D.state now) D.tells_images (E.state there) (E.state later) E.tells_images }
    ensures complete { (here now : D) (there later : E) → ReplayedFeedsComplete (D.state here) (D.state now) D.tells_images (E.state there) (E.state later) E.tells_images }
{
    replays_keep_lawful();
    scripts_are_fit();
    every_replayed_feed_is_progress();
}
