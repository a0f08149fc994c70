//! A text in leaves of 8,192 bytes below a tree's root.
#![tactic(auto)]

mod laws;
mod reads;
mod sizes;
mod writes;

pub use laws::root_has_one_text;
pub use reads::read_leaves;
pub use sizes::MOST_BYTES;
pub use writes::write_leaves;
