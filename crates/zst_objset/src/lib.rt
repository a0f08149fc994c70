//! Object sets over trees of blocks: the objects of a head, of a snapshot or of a partial state.
#![tactic(auto)]

mod allocation;
mod answers;
mod block_writes;
mod changes;
mod commands;
mod fault;
mod freed_numbers;
mod laws;
mod leaves;
mod objects;
mod ranges;
mod searches;
mod set;
mod slot_puts;
mod slot_reads;
mod slots;
mod trees;

pub use block_writes::write_blocks;
pub use commands::{changes_are_commands, reads_are_commands};
pub use fault::ObjFault;
pub use laws::sets_hold_states;
pub use leaves::load_slots;
pub use objects::Objects;
pub use slot_reads::slot_at;
pub use slots::date_in;
pub use trees::tree_of;
