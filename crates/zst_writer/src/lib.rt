//! Writes the records of a stream with their checksums.
#![tactic(auto)]

mod laws;
mod writer;

pub use laws::image_is_put;
pub use writer::Writer;
