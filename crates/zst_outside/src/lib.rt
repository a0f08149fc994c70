//! The outside of the product: inputs, outputs and disks, each with its count of faults.
#![tactic(auto)]

mod call_log;
mod disk;
mod mem_disk;
mod mem_sink;
mod mem_source;
mod places;
mod plan;
mod sink;
mod source;
mod sure_disk;

pub use call_log::{Call, Entry};
pub use disk::{Disk, put};
pub use mem_disk::MemDisk;
pub use mem_sink::MemSink;
pub use mem_source::MemSource;
pub use sink::{Sink, write_all};
pub use source::Source;
pub use sure_disk::SureDisk;

/// A call outside failed, and its object counted a fault.
#[derive(Clone, Copy, Debug, PartialEq, Eq)]
pub struct Fault;
