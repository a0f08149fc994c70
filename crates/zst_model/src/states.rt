pub mod attr;
pub mod cell;
pub mod item;
