ghost use Rattle.std.specs.Prelude.{ℕ, ◌<◌, ◌↔◌, List};
ghost use Rattle.zst_space.specs.FreeSectors.{FreeSectors, IsFree};
ghost use Rattle.zst_space.specs.declared.space.Extent.{Extent};
ghost use Rattle.zst_block.specs.Blocks.{Has, IsBlock};
ghost use Rattle.zst_block.specs.declared.ptr.Ptr.{Ptr};
ghost use Rattle.zst_extents.specs.StoredExtents.{HasExtents};
ghost use Rattle.zst_leaves.specs.Leaves.{HasLeaves};
ghost use Rattle.zst_list.specs.StoredLists.{HasList};
ghost use Rattle.zst_model.specs.fields.Lists.{Runs};
ghost use Rattle.zst_model.specs.sends.Inclusion.{Pairs};
ghost use Rattle.zst_model.specs.states.DatedState.{DatedState};
ghost use Rattle.zst_tree.specs.declared.tree.ObjSet.{ObjSet};
ghost use Rattle.zst_objset.specs.Sets.{SetHolds, SetHoldsBut};
ghost use Rattle.zst_objset.specs.TightSets.{SetIsTight};
ghost use Rattle.zst_reach.specs.Reached.{ReachesSector, SparesReached};
ghost use Rattle.zst_reach.specs.ReachedSets.{ReachesInSet};

/// A set holds its state, and tightly, whatever sectors become free that it doesn't reach; and so it is but for some pairs' bytes.
pub fn unreached_sectors_may_be_free()
    ensures holds { (image : List ℕ) (space more : FreeSectors) (set : ObjSet) (snap : DatedState)
        → ((sector : ℕ) → ReachesInSet (IsBlock image) set sector → IsFree more sector → IsFree space sector) → SetHolds (Has image space) set snap → SetHolds (Has image more) set snap }
    ensures tight { (image : List ℕ) (space more : FreeSectors) (set : ObjSet) (snap : DatedState)
        → ((sector : ℕ) → ReachesInSet (IsBlock image) set sector → IsFree more sector → IsFree space sector) → SetIsTight (Has image space) set snap → SetIsTight (Has image more) set snap }
    ensures but { (image : List ℕ) (space more : FreeSectors) (pairs : Pairs) (set : ObjSet) (snap : DatedState)
        → ((sector : ℕ) → ReachesInSet (IsBlock image) set sector → IsFree more sector → IsFree space sector) → SetHoldsBut (Has image space) pairs set snap → SetHoldsBut (Has image more) pairs set snap }
{}

/// A text stands in its leaves whatever sectors become free that these and the nodes above them don't take,
/// and so do a list and free extents. Where a list has no runs its root is no text's, and so it is with no
/// extents.
pub fn unreached_sectors_of_texts_may_be_free()
    ensures texts { (image : List ℕ) (space more : FreeSectors) (levels : ℕ) (root : Ptr) (text : List ℕ)
        → ((sector : ℕ) → ReachesSector (IsBlock image) levels root sector → IsFree more sector → IsFree space sector) → HasLeaves (Has image space) levels root text → HasLeaves (Has image more) levels root text }
    ensures lists { (image : List ℕ) (space more : FreeSectors) (levels : ℕ) (root : Ptr) (count : ℕ) (runs : Runs)
        → (0 < count → (sector : ℕ) → ReachesSector (IsBlock image) levels root sector → IsFree more sector → IsFree space sector) → HasList (Has image space) levels root count runs → HasList (Has image more) levels root count runs }
    ensures extents { (image : List ℕ) (space more : FreeSectors) (levels : ℕ) (root : Ptr) (count : ℕ) (extents : List Extent)
        → (0 < count → (sector : ℕ) → ReachesSector (IsBlock image) levels root sector → IsFree more sector → IsFree space sector) → HasExtents (Has image space) levels root count extents → HasExtents (Has image more) levels root count extents }
{}

/// What is reached below a pointer or by a set is reached whatever bytes stand elsewhere, and nothing else is: it is
/// the same on another image that has the same bytes in these sectors.
pub fn unreached_sectors_may_change()
    ensures blocks { (old new : List ℕ) (level : ℕ) (ptr : Ptr) → SparesReached (ReachesSector (IsBlock old) level ptr) old new
        → (sector : ℕ) → ReachesSector (IsBlock old) level ptr sector ↔ ReachesSector (IsBlock new) level ptr sector }
    ensures sets { (old new : List ℕ) (set : ObjSet) → SparesReached (ReachesInSet (IsBlock old) set) old new
        → (sector : ℕ) → ReachesInSet (IsBlock old) set sector ↔ ReachesInSet (IsBlock new) set sector }
{}
