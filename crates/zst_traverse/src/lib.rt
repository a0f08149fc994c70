//! The walk over an object set that looks only where something changed after a source.
#![tactic(auto)]

mod cells;
mod dates;
mod leaves;
mod listed;
mod number_search;
mod objects;
mod pairs;
mod slots;
mod walk_entry;

pub use cells::next_cell;
pub use walk_entry::WalkEntry;
