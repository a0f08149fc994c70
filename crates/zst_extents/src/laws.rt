ghost use Rattle.std.specs.Prelude.{◌≡◌, ◌+◌, ◌*◌, ◌/◌, ◌^◌, ◌<◌, ◌≤◌, ℕ, List};
ghost use Rattle.zst_space.specs.FreeSectors.{FreeSectors};
ghost use Rattle.zst_space.specs.declared.space.Extent.{Extent};
ghost use Rattle.zst_marks.specs.Marks.{Apart};
ghost use Rattle.zst_block.specs.Blocks.{Has};
ghost use Rattle.zst_block.specs.declared.ptr.Ptr.{Ptr};
ghost use Rattle.zst_extents.specs.StoredExtents.{HasExtents, extent_blocks};

use zst_leaves::root_has_one_text;

/// So many extents take no more sectors than those of a block for each 512 of them, of one for each
/// 32,768, and of 3 more.
pub fn extents_take_few_sectors()
    ensures { (count : ℕ) → 16 * extent_blocks count ≤ 16 * (count / 512 + count / 32768 + 3) }
{}

/// Below a root stand one count's extents that are apart up to an end, by the blocks of one image.
pub fn root_has_one_set_of_extents()
    ensures { (image : List ℕ) (space : FreeSectors) (levels : ℕ) (root : Ptr) (count end : ℕ) (extents other : List Extent) → end < 2 ^ 64 → Apart 8 extents end → Apart 8 other end
        → HasExtents (Has image space) levels root count extents → HasExtents (Has image space) levels root count other → extents ≡ other }
{
    root_has_one_text();
}
