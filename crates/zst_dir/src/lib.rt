//! The directory of a pool: its datasets, snapshots, bookmarks and partial states, and their bytes.
#![tactic(auto)]

mod decoding;
mod dir;
mod encoding;
mod fields;
mod laws;
mod lists;
mod removal;
mod row_checks;
mod row_reads;
mod rows;

pub use dir::Dir;
pub use laws::bytes_are_one_directory;
pub use removal::Removal;
pub use rows::{Bookmark, Dataset, Partial, Snapshot};
