ghost use Rattle.std.specs.Prelude.{◌≡◌, ℕ, List, length};
ghost use Rattle.zst_space.specs.FreeSectors.{FreeSectors};
ghost use Rattle.zst_block.specs.Blocks.{Has};
ghost use Rattle.zst_block.specs.declared.ptr.Ptr.{Ptr};
ghost use Rattle.zst_leaves.specs.Leaves.{HasLeaves};

/// In the leaves below a root stands one text of a length, by the blocks of one image.
pub fn root_has_one_text()
    ensures { (image : List ℕ) (space : FreeSectors) (levels : ℕ) (root : Ptr) (text other : List ℕ) → length text ≡ length other → HasLeaves (Has image space) levels root text → HasLeaves (Has image space) levels root other → text ≡ other }
{}
