//! The pool of an image: what it reads as, how it is made and opened, and the commit of its directory.
#![tactic(auto)]

mod body;
mod commit_fault;
mod commits;
mod create_fault;
mod creation;
mod freed_commits;
mod laws;
mod open_fault;
mod pool_reads;
mod pool_state;

pub use body::Body;
pub use commit_fault::CommitFault;
pub use commits::commit_dir;
pub use create_fault::CreateFault;
pub use freed_commits::commit_unmarked;
pub use laws::{images_keep_partials, reads_are_kept, reads_as_one, tight_sets_hold};
pub use open_fault::OpenFault;
pub use pool_state::PoolState;
