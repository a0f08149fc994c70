use zst_block::Ptr;
use zst_dnode::Dnode;
use zst_model::Cell;

/// What a walk finds.
#[derive(Clone, Copy, Debug, PartialEq, Eq)]
pub enum WalkEntry {
    /// An included object, with its dnode.
    Object {
        number: u64,
        dnode: Dnode,
    },
    /// So many included numbers without objects.
    Gone {
        first: u64,
        count: u64,
    },
    /// So many included indices of the point's object that are alike: holes, redacted, or one
    /// block of data, which the pointer names.
    Pairs {
        object: u64,
        first: u64,
        count: u64,
        what: Cell,
        ptr: Ptr,
    },
}
