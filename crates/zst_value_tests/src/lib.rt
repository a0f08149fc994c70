//! Tests of what needs no disk: sums, names, numbers, tokens, lines, and what of a dnode stands in its bytes.
//! They make only public calls, so that no library is proved a second time for them.
#![tactic(auto)]

mod random_numbers;

pub use random_numbers::number_after;

#[cfg(test)]
mod dnode;
#[cfg(test)]
mod fletcher;
#[cfg(test)]
mod marks;
#[cfg(test)]
mod model;
#[cfg(test)]
mod space;
#[cfg(test)]
mod token;
