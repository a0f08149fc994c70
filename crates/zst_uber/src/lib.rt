//! The two gated slots of a pool, with its latest body, and the commit of the next one.
#![tactic(auto)]

mod body_slot;
mod commits;
mod fault;
mod latest_body;
mod uber;

pub use body_slot::BodySlot;
pub use commits::{commit, commit_event};
pub use fault::UberFault;
pub use latest_body::latest;
pub use uber::Uber;

/// The first 8 bytes of a body, as a number: `ZSTPOOL1`.
pub const MAGIC: u64 = 0x314c_4f4f_5054_535a;

/// The version of an image that is read and written.
pub const VERSION: u32 = 1;
