ghost use Rattle.zst_model.specs.pools.Pool.{Snapshot};
ghost use Rattle.zst_model.specs.pools.Soundness.{Agrees};
ghost use Rattle.std.specs.Prelude.{◌↔◌, ℕ};
ghost use Rattle.zst_model.specs.states.DatedState.{DatedState};
ghost use Rattle.zst_compare.specs.Agreement.{AgreesUpTo, DiffersAt};
ghost use Rattle.zst_compare.specs.declared.difference.Difference.{Difference};

/// Law: a state agrees with a snapshot exactly where it agrees with its objects up to its number, and states that differ at a
/// place don't agree.
pub fn agreement_is_up_to_a_number()
    ensures snapshots { (snapshot : Snapshot) (later : DatedState) → Agrees snapshot later ↔ AgreesUpTo snapshot.number snapshot.objects later }
    ensures denied { (number : ℕ) (earlier later : DatedState) (place : Difference) → DiffersAt number earlier later place → AgreesUpTo number earlier later → ⊥ }
{}
