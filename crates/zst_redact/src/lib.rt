//! Lists of a snapshot's blocks: of a redaction bookmark, those that no redaction snapshot has kept, and of a redacted
//! snapshot, those that are redacted.
#![tactic(auto)]

mod ahead;
mod fault;
mod indices;
mod late;
mod lists;
mod numbers;
mod present;
mod redacted_list;
mod runs;
mod wanted;

pub use fault::RedactFault;
pub use lists::build;
pub use redacted_list::redacted;
pub use runs::next_unkept;
