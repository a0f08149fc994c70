//! What no line shows of a pool on a disk in memory: one that stays open, states that aren't kept, lists, free extents, reclaims, and a
//! crowd.
mod crowds;
pub(crate) mod free_extents;
pub(crate) mod lists;
mod reclaims;
mod refused_writes;
mod sessions;
