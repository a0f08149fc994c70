pub mod command;
pub mod reply;
pub mod snapshots;
