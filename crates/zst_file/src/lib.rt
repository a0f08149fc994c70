//! Real files, readers and writers as disks, sources and sinks.
//!
//! What a file holds, or what a pipe gave, no clause can claim. So it is defined here, by a record
//! of the calls and their answers that only clauses read:
//!
//! - A file holds what it held as it was opened, and over that each write that succeeded. It is
//!   honest while each read that succeeded gave just that. A `FileDisk` shows this as a `Disk`,
//!   for any first content, and its clauses on content suppose that the file is honest. A crash may
//!   tear each write since the last sync that succeeded. Once a sync has failed, each later one does.
//! - An `Input` gave the bytes that its calls gave, and its end is told by a call that gave none.
//!   Nothing is supposed.
//! - An `Output` took what its calls handed on, and then what waits in its buffer. Nothing is supposed.
//!   It is flushed by hand.
//!
//! A call that a signal interrupts is made again, and one that fails is a fault. Where a reader or
//! a writer tells its bytes, as one in memory does, it is proved that an `Input` drops none of them,
//! and that an `Output` loses and repeats none, also at a fault.
//!
//! No proof shows that each method of `Host` makes the call that it notes, that `length_of` gives the
//! length of a file (of a disk of another length the clauses on content say nothing), that the system
//! does what it answers, that a call of a reader or a writer that failed took no byte, that a crash
//! leaves one of the images, or that nobody else writes the file.
#![tactic(auto)]

mod file_disk;
mod host;
mod input;
mod output;
mod pipe;
mod record;
mod start;

pub use file_disk::FileDisk;
pub use host::length_of;
pub use input::Input;
pub use output::Output;
pub use start::{Start, UnknownStart};
