//! Blocks with their sums in the sectors of a pool, and the pointers that name them.
#![tactic(auto)]

mod block_reads;
mod block_writes;
mod boxed_node;
mod cache;
mod fault;
mod io;
mod laws;
mod node;
mod ptr;

pub use block_reads::{load, read};
pub use block_writes::{save, write};
pub use fault::BlockFault;
pub use io::Io;
pub use laws::blocks_outlive_writes;
pub use node::Node;
pub use ptr::{Ptr, get_sum, put_sum};
