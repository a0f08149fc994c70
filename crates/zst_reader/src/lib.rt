//! Reads a stream in whatever pieces it comes, and hands out its covered records.
#![tactic(auto)]

mod mark;
mod place;
mod reader;
mod verdict;
mod window;

pub use reader::{Reader, Step};

/// How many bytes a reader can hold: three times as many as it reads at once, so that what is left of a record
/// is moved once in two reads at most.
pub const CAPACITY: usize = 393_216;

/// The most bytes that a stream may have.
pub const STREAM_LIMIT: u64 = 1 << 62;
