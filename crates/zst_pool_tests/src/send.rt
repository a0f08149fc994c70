//! What no line shows of a send: pieces of any size, which blocks are read, and a pool that is opened again.
mod counts;
mod faults;
mod lists;
mod pieces;
pub(crate) mod sends;
mod taken_over;
