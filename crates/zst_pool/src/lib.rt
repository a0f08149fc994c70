//! The commands on the pool of an image: each is checked, carried out and committed.
#![tactic(auto)]

mod aborts;
mod block_reads;
mod changes;
mod checks;
mod commands;
mod fault;
mod finished_partials;
mod heads;
mod laws;
mod lineage;
mod lineage_commands;
mod lists;
mod lookups;
mod partial_commits;
mod partials;
mod pool;
mod queries;
mod reclaims;
mod redactions;
mod redacts;
mod reopened_pools;
mod rollbacks;

pub use fault::{PoolFault, of_built};
pub use laws::{blocks_leave_it_at_rest, opened_is_at_rest, rows_name_a_pool};
pub use pool::Pool;
