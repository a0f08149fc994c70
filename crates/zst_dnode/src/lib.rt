//! The dnode of an object: the 512 bytes that a leaf of an object set has for each object number.
#![tactic(auto)]

mod dnode;
mod ranges;
mod slot;

pub use dnode::Dnode;
pub use slot::Slot;
