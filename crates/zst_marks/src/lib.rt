//! Sectors that are marked, one bit each, and the extents between them.
#![tactic(auto)]

mod marks;

pub use marks::Marks;
