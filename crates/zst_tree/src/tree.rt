use zst_block::Ptr;

/// A tree of pointers over indices, with the blocks of an object, or with objects, as its leaves.
#[derive(Clone, Copy, Debug, PartialEq, Eq)]
pub struct Tree {
    /// The levels of pointer blocks above the leaves, at most 7. With none the root is the leaf of index 0.
    pub levels: u8,
    /// The date of every index past the span of the tree.
    pub past: u64,
    /// The pointer to the top.
    pub root: Ptr,
}

/// The objects of a head, of a snapshot or of a partial state.
#[derive(Clone, Copy, Debug, PartialEq, Eq)]
pub struct ObjSet {
    pub tree: Tree,
}

impl ObjSet {
    ghost use Rattle.std.specs.Prelude.{◌≡◌};
    ghost use Rattle.zst_tree.specs.Sets.{no_objects};

    /// The set of no objects, which nothing touched.
    pub fn empty() -> ObjSet
        ensures { result ≡ no_objects }
    {
        ObjSet {
            tree: Tree {
                levels: 0,
                past: 0,
                root: Ptr::hole(0),
            },
        }
    }
}
