// Extents that are apart.
ghost use Rattle.std.specs.Prelude.{◌≡◌, ◌↔◌, ◌+◌, ◌<◌, ◌≤◌, IsTrue};
ghost use Rattle.zst_marks.specs.Marks.{Apart};

use zst_space::Extent;

// Whether an extent begins behind a sector, isn't empty, and ends no later than the end.
fn follows(behind: u64, extent: &Extent, end: u64) -> bool
    ensures { IsTrue result ↔ ((behind < extent.now.first) × (0 < extent.now.count) × (extent.now.first + extent.now.count ≤ end)) }
{
    behind < extent.first
        && 0 < extent.count
        && extent.first <= end
        && extent.count <= end - extent.first
}

// Whether extents rise from sector 8 on up to an end, none of them empty, and no two touching.
pub(crate) fn are_apart(extents: &[Extent], end: u64) -> bool
    ensures { IsTrue result ↔ Apart 8 extents.now end }
{
    if end < 8 {
        return false;
    }
    let mut behind = 7;
    for extent in extents {
        if !follows(behind, extent, end) {
            return false;
        }
        behind = extent.first + extent.count;
    }
    true
}
