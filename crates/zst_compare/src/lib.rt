//! A later object set beside an earlier one: what it hasn't dated after a number, and is another in the earlier.
#![tactic(auto)]

mod blocks;
mod difference;
mod laws;
mod leaves;
mod runs;
mod sets;
mod shared;
mod slots;
mod trees;

pub use difference::Difference;
pub use laws::agreement_is_up_to_a_number;
pub use sets::compare_sets;
