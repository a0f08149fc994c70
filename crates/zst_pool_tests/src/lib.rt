//! Tests of what no line shows: pools that stay open, their directories and plans, sends and receives.
//! They make only public calls, so that no library is proved a second time for them.
#![tactic(auto)]

mod disk_bytes;

pub use disk_bytes::bytes_of;

#[cfg(test)]
mod dir;
#[cfg(test)]
mod listing;
#[cfg(test)]
mod plan;
#[cfg(test)]
mod pool;
#[cfg(test)]
mod pools;
#[cfg(test)]
mod recv;
#[cfg(test)]
mod refusals;
#[cfg(test)]
mod roots;
#[cfg(test)]
mod rows;
#[cfg(test)]
mod send;
