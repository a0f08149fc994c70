//! What the program does with the words of a line: each command over an image and the standard streams.
#![tactic(auto)]

mod checks;
mod completeness;
mod dump;
mod event_replies;
mod file_runs;
mod generate;
mod image;
mod interleaved;
mod note;
mod pools;
mod receive;
mod replay;
mod replication;
mod reply;
mod reports;
mod runs;
mod send;
mod tokens;

pub use completeness::{
    checks_complete, creates_complete, done_is_told, dumps_complete, receives_complete,
    rest_transfers_complete, sends_complete, steps_complete, tokens_complete, transfers_complete,
};
pub use dump::dumps_have_one_answer;
pub use file_runs::{run_on_file, run_on_files};
pub use image::{OpenMode, Opening, open, opening_of};
pub use interleaved::{replayed_feeds_are_progress, replays_run_by_events};
pub use note::status_of;
pub use replication::{
    chains_of_runs_complete, cuts_tell_alike, redacted_is_unreadable, refused_leaves_nothing,
    relayed_snapshot_stands, rests_are_progress, sent_rest_stands, sent_snapshot_stands,
    sound_stays_sound, sources_still_remember, stops_are_progress,
};
pub use runs::run;
pub use send::{equal_views_are_written_alike, pools_read_for_sends, two_worlds_are_sent_alike};
