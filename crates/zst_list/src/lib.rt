//! Lists of redacted blocks, as they stand in the leaves of a redaction bookmark's tree.
#![tactic(auto)]

mod coding;
mod laws;
mod reads;
mod writes;

pub use coding::{decode_list, encode_list};
pub use laws::root_has_one_list;
pub use reads::read_list;
pub use writes::write_list;
