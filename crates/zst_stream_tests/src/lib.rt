//! Tests of streams: their records, how they are read and written, what is printed of them, and the files and disks at both ends.
//! They make only public calls, so that no library is proved a second time for them.
#![tactic(auto)]

mod piece_sizes;

pub use piece_sizes::piece_size;

#[cfg(test)]
mod dump;
#[cfg(test)]
mod fields;
#[cfg(test)]
mod file;
#[cfg(test)]
mod outside;
#[cfg(test)]
mod reader;
#[cfg(test)]
mod record;
#[cfg(test)]
mod run;
#[cfg(test)]
mod writer;
