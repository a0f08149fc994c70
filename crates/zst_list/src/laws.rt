ghost use Rattle.std.specs.Prelude.{◌≡◌, ℕ, List};
ghost use Rattle.zst_space.specs.FreeSectors.{FreeSectors};
ghost use Rattle.zst_block.specs.Blocks.{Has};
ghost use Rattle.zst_block.specs.declared.ptr.Ptr.{Ptr};
ghost use Rattle.zst_model.specs.fields.Lists.{Runs};
ghost use Rattle.zst_list.specs.StoredLists.{HasList};

use zst_leaves::root_has_one_text;

/// Below a root stands one list of a count, by the blocks of one image.
pub fn root_has_one_list()
    ensures { (image : List ℕ) (space : FreeSectors) (levels : ℕ) (root : Ptr) (count : ℕ) (runs other : Runs) → HasList (Has image space) levels root count runs → HasList (Has image space) levels root count other → runs ≡ other }
{
    root_has_one_text();
}
