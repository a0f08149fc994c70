//! What the rows of a pool's directory reach: the object sets of heads, snapshots and partial states, and the lists of bookmarks;
//! what sessions hold besides; and what nothing reaches.
#![tactic(auto)]

mod held;
mod laws;
mod lists;
mod nearest;
mod rows;
mod set_rows;
mod snapshots;
mod texts;
mod turns;
mod unreached;

pub use held::HeldBlocks;
pub use laws::{rows_reach_the_same_whatever_is_unreached, rows_stand_over_what_is_unreached};
pub use nearest::{before_head, before_partial, before_snapshot, objects_at, walked_at};
pub use rows::mark_rows;
pub use turns::turns_of;
pub use unreached::{UnreachedSectors, find_unreached};
