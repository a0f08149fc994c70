pub mod ask;
pub mod header;
pub mod points;
