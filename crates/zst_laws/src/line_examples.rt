ghost use Rattle.zst_laws.specs.LineExample.{PoolIsListed, ObjectsAreListed, BlocksAreRead};

/// `list` tells a pool's datasets, snapshots, bookmarks and partial states, by name.
pub fn pool_is_listed()
    ensures { PoolIsListed }
{}

/// `list` of a name tells its objects, by number.
pub fn objects_are_listed()
    ensures { ObjectsAreListed }
{}

/// `read` tells a block's bytes, or that it is a hole, and is refused where it is redacted.
pub fn blocks_are_read()
    ensures { BlocksAreRead }
{}
