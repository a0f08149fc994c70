// What stood in the place of an object in a set that was walked before.
ghost use Rattle.std.specs.Prelude.{◌≡◌, ◌<◌, ℕ, List, IfSome, None, Option, Some};
ghost use Rattle.zst_block.specs.declared.ptr.Ptr.{Ptr};
ghost use Rattle.zst_reach.specs.Reached.{IsBeside};
ghost use Rattle.zst_count.specs.MetBlocks.{IsSpillOf, IsTreeOf, StandsBeside};

use zst_block::{Node, Ptr};
use zst_dnode::{Dnode, Slot};

// The object in this place of a leaf that was walked before, where there is one.
pub(crate) fn object_beside(beside: &Option<Node>, place: usize) -> Option<Dnode>
    requires { place < 16 }
    ensures { (image : List ℕ) (level : ℕ) (known : Ptr) → IsBeside image 0 level known beside.now → IfSome result (StandsBeside image level known place) }
{
    let Some(node) = beside else {
        return None;
    };
    match Slot::get(node.as_slice(), 512 * place) {
        Some(Slot::There(dnode)) => Some(dnode),
        _ => None,
    }
}

// The tree that was walked before with blocks of the same size, or a hole.
pub(crate) fn tree_beside(known: &Option<Dnode>, size: u32) -> (u8, Ptr)
    ensures { IsTreeOf known.now result.0 result.1 }
{
    match known {
        Some(dnode) if dnode.block_size == size => (dnode.levels, dnode.root),
        _ => (0, Ptr::hole(0)),
    }
}

// Its spill, or a hole.
pub(crate) fn spill_beside(known: &Option<Dnode>) -> Ptr
    ensures { IsSpillOf known.now result }
{
    match known {
        Some(dnode) => dnode.spill,
        None => Ptr::hole(0),
    }
}
