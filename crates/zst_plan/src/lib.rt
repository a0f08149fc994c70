//! What a send is to give and what a receive begins with, looked up in a pool's directory, or why it can't (zfs-send(8), zfs-receive(8)).
#![tactic(auto)]

mod checks;
mod flags;
mod laws;
mod lookups;
mod origin_walk;
mod plan;
mod receive;
mod resume;
mod send;
mod source;

pub use checks::has_guids;
pub use laws::{
    based_streams_are_refused, contained_is_covered, new_targets_are_refused, partials_are_refused,
    resumed_streams_are_accepted, sends_have_tokens, stated_names_are_refused,
    streams_are_accepted, targets_are_refused, tokens_are_accepted,
};
pub use origin_walk::snapshot_comes_before;
pub use plan::SendPlan;
pub use receive::{RecvAsk, RecvPlan, recv_plan};
pub use resume::resume_plan;
pub use send::send_plan;
pub use zst_model::{FromName, SendAsk};
