//! The names of datasets, snapshots and bookmarks (zfsconcepts(7)), and where a text stops being one.
#![tactic(auto)]

mod dataset;
mod fault;
mod laws;
mod mark_split;
mod marked_name;
mod scan;

pub use dataset::DatasetName;
pub use fault::NameFault;
pub use laws::one_place;
pub use marked_name::{AtSign, BookName, Mark, MarkedName, NumberSign, SnapName};
pub use scan::check_component;
