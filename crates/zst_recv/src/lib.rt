//! A receive: it plans by BEGIN, applies the records that a stream covers to a partial state, and commits once for each piece.
#![tactic(auto)]

mod batch;
mod block_run;
mod commits;
mod fault;
mod first_partial;
mod gathering;
mod laws;
mod pieces;
mod point;
mod received_snapshot;
mod recv;
mod stage;
mod tokens;

pub use fault::RecvFault;
pub use laws::{
    ends_leave_rows, listed_rows_fit, one_set_is_planned, receives_go_on, receives_outlast_reclaims,
};
pub use received_snapshot::ReceivedSnapshot;
pub use recv::{FeedReport, Recv};
pub use tokens::token;
pub use zst_plan::RecvAsk;
