//! The free sectors of a pool, from which extents are taken.
#![tactic(auto)]

mod space;

pub use space::{Extent, Space, SpaceFault};
