//! Fletcher-4, the checksum of ZFS: four running sums of the little-endian 32-bit words of a text.
#![tactic(auto)]

mod lanes;
mod sum;
mod weights;
mod word_sums;

pub use sum::{Sum, sum_of};
pub use word_sums::sum_word_by_word;
