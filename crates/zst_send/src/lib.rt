//! The bytes of a send: a walk over what a snapshot's view shows, and the records of what it finds.
#![tactic(auto)]

mod block_buffer;
mod due_items;
mod laws;
mod lists;
mod pending_record;
mod rest;
mod send;
mod send_state;
mod subject;
mod walk;
mod walk_position;

pub use laws::{
    equal_views_are_sent_alike, rows_stand_for_sends, sends_go_on, sends_outlast_reclaims,
    sent_are_bytes, tight_sets_tell_dates,
};
pub use rest::rest_plan;
pub use send::Send;
pub use zst_plan::{FromName, SendAsk};
