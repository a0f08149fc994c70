//! The text of a dump: a line for each covered record, and two last lines.
#![tactic(auto)]

mod counts;
mod line;
mod part;

pub use counts::Counts;
pub use line::{line_of, summary};
