//! A copy-on-write tree of pointers over indices, and the bytes of an object set.
#![tactic(auto)]

mod late_indices;
mod leaf_puts;
mod lookups;
mod nodes;
mod or_memory;
mod path_answer;
mod present_indices;
mod puts;
mod spans;
mod steps;
mod tree;
mod walks;
mod words;
mod writes;

pub use leaf_puts::Leaf;
pub use nodes::{child_at, load_node};
pub use or_memory::OrMemory;
pub use puts::put_child;
pub use spans::{TREE_INDEX_BOUND, span_of};
pub use steps::{Steps, tick};
pub use tree::{ObjSet, Tree};
pub use words::{push_ptr, push_set, read_ptr, read_set};
