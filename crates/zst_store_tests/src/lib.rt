//! Tests of object sets on disks in memory: what is kept of a disk, what a change and a walk cost, and what records make of a set.
//! They make only public calls, so that no library is proved a second time for them.
#![tactic(auto)]

mod disks;

pub use disks::{all_free, unread, zeros};

#[cfg(test)]
mod apply;
#[cfg(test)]
mod cache;
#[cfg(test)]
mod costs;
#[cfg(test)]
mod damage;
#[cfg(test)]
mod extents;
#[cfg(test)]
mod list;
#[cfg(test)]
mod reach;
#[cfg(test)]
mod traverse;
#[cfg(test)]
mod unmarked;
