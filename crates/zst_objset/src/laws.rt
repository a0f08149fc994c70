ghost use Rattle.std.specs.Prelude.{◌≡◌, ℕ, List};
ghost use Rattle.zst_space.specs.FreeSectors.{FreeSectors};
ghost use Rattle.zst_block.specs.Blocks.{Has, KeepsBlocks};
ghost use Rattle.zst_model.specs.states.State.{IsState};
ghost use Rattle.zst_model.specs.states.DatedState.{DatedState};
ghost use Rattle.zst_model.specs.pools.Pool.{untouched};
ghost use Rattle.zst_tree.specs.Sets.{no_objects};
ghost use Rattle.zst_tree.specs.declared.tree.ObjSet.{ObjSet};
ghost use Rattle.zst_objset.specs.Sets.{SetHolds};
ghost use Rattle.zst_objset.specs.TightSets.{SetIsTight};

/// A set holds one lawful dated state, for as long as its blocks are there, and an empty one what
/// nothing touched.
#[tactic(auto, using(crate::proofs::SetLaws::grows, crate::proofs::SetLaws::lawful, crate::proofs::SetLaws::empty, crate::proofs::TightLaws::tight_grows, crate::proofs::TightLaws::tight_empty))]
pub fn sets_hold_states()
    ensures grows { (set : ObjSet) (old : List ℕ) (space : FreeSectors) (new : List ℕ) (less : FreeSectors) (snap : DatedState)
        → KeepsBlocks old space new less → SetHolds (Has old space) set snap → SetHolds (Has new less) set snap }
    ensures only { (set : ObjSet) (image : List ℕ) (space : FreeSectors) (snap other : DatedState)
        → SetHolds (Has image space) set snap → SetHolds (Has image space) set other → snap ≡ other }
    ensures lawful { (set : ObjSet) (image : List ℕ) (space : FreeSectors) (snap : DatedState) → SetHolds (Has image space) set snap → IsState snap.state }
    ensures empty { (image : List ℕ) (space : FreeSectors) → SetHolds (Has image space) no_objects untouched }
    ensures tight_grows { (set : ObjSet) (old : List ℕ) (space : FreeSectors) (new : List ℕ) (less : FreeSectors) (snap : DatedState)
        → KeepsBlocks old space new less → SetIsTight (Has old space) set snap → SetIsTight (Has new less) set snap }
    ensures tight_empty { (image : List ℕ) (space : FreeSectors) → SetIsTight (Has image space) no_objects untouched }
{}
