// The sectors of one block are marked.
ghost use Rattle.std.specs.Prelude.{◌≡◌, ◌↔◌, ◌⊎◌, ◌^◌, ◌<◌, ℕ, length};
ghost use Rattle.zst_marks.specs.Marks.{HasRoomFor, IsMarked};
ghost use Rattle.zst_reach.specs.Reached.{IsOf};

use zst_block::Ptr;
use zst_marks::Marks;

/// Marks the sectors of the block that a pointer names, before an end. Those of a block that passes the end are cut there.
/// What the pointer is isn't asked: of a hole, which has no length, nothing is marked.
pub fn mark_block(marks: &mut Marks, end: u64, ptr: &Ptr)
    requires room { HasRoomFor marks.old end }
    ensures marked { (sector : ℕ) → IsMarked marks.new sector ↔ ((IsOf ptr.now sector × (sector < end)) ⊎ IsMarked marks.old sector) }
    ensures room { length marks.new ≡ length marks.old }
{
    let first = ptr.sector.min(end);
    let count = u64::from(ptr.length).div_ceil(512).min(end - first);
    marks.mark(first, count);
}
