pub mod bytes;
pub mod guids;
pub mod list;
pub mod name;
