use crate::body::Body;
use zst_dir::Dir;

/// What is kept in memory of a pool: its latest body, and its directory.
#[derive(Drop)]
pub struct PoolState {
    pub body: Body,
    pub dir: Dir,
}
