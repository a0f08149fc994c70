//! What the roots of a pool reach: the blocks below them, and the sectors of these.
#![tactic(auto)]

mod blocks;
mod laws;
mod leaves;
mod nodes;
mod objects;
mod sets;
mod texts;
mod trees;

pub use blocks::mark_block;
pub use laws::{
    unreached_sectors_may_be_free, unreached_sectors_may_change,
    unreached_sectors_of_texts_may_be_free,
};
pub use nodes::{child_beside, load_beside, load_named};
pub use sets::mark_set;
pub use texts::mark_text;
pub use trees::mark_below;
