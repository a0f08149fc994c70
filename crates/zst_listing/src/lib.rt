//! The lines that `list` answers: those of a pool's rows, and those of the objects of a set.
#![tactic(auto)]

mod objects;
mod ranges;
mod row_lines;
mod rows;

pub use objects::list_objects;
pub use rows::list_rows;
