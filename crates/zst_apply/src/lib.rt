//! One record of a stream, applied to a set of objects.
#![tactic(auto)]

mod blocks;
mod checks;
mod cut_ranges;
mod record_table;
mod runs;

pub use record_table::apply;
pub use runs::write_run;
