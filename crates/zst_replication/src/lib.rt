//! The laws of a send that is received: what zst_send's definitions and zst_recv's give together.
#![tactic(auto)]

mod feed_laws;
mod laws;
mod redaction_laws;

pub use feed_laws::{
    equal_pieces_tell_alike, pieces_are_kept, refusals_leave_front, texts_have_tokens,
    tokens_are_of_kept,
};
pub use laws::{
    bases_match, chains_complete, cut_leaves_nothing, ends_are_applied, events_are_history,
    full_matches, left_is_kept, one_more_is_kept, pieces_are_applied, receives_keep_sound,
    receives_remember, receives_stay_in_limits, records_are_counted, rest_can_be_sent,
    rest_is_accepted, rest_is_received, resumed_stops_are_progress, sent_can_be_sent,
    sent_is_accepted, sent_is_planned, sent_is_received, sent_is_taken, source_is_known,
    stops_are_progress, tokens_go_on,
};
pub use redaction_laws::{
    listed_can_be_sent, receives_keep_lists, redacted_bases_match, relayed_is_received,
};
