//! How many blocks a pool's latest body reaches: all of them are read but redacted ones, which have none, and what a row shares with a
//! snapshot before it is read once.
#![tactic(auto)]

mod beside;
mod laws;
mod met_blocks;
mod objects;
mod rows;
mod sets;
mod trees;

pub use laws::{counted_blocks_are_reached, counts_are_one};
pub use rows::count_blocks;
