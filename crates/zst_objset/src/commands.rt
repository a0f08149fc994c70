ghost use Rattle.std.specs.Prelude.{◌≡◌, ◌+◌, ℕ, List, Option, [], ◌∷◌, false, map, IfSome};
ghost use Rattle.zst_model.specs.declared.states.attr.ObjectHead.{ObjectHead};
ghost use Rattle.zst_model.specs.declared.states.item.Change.TheVariants.{Put};
ghost use Rattle.zst_model.specs.declared.states.item.Item.TheVariants.{At, FreeObjects};
ghost use Rattle.zst_model.specs.declared.refusals.apply_fault.ApplyFault.TheVariants.{NoObject};
ghost use Rattle.zst_model.specs.sends.Items.{spill_change};
ghost use Rattle.zst_model.specs.states.DatedState.{DatedState, size_at};
ghost use Rattle.zst_model.specs.pools.Pool.{Pool};
ghost use Rattle.zst_model.specs.pools.Step.{applied, block_read, cannot_apply, filled, in_numbers, or_else, punched, written};
ghost use Rattle.zst_objset.specs.Changes.{block_told, block_written, found_at, holes_made, object_made, objects_freed};

/// What the calls of a set make of its state is what the commands of a pool make of a head.
#[tactic(auto, using(crate::proofs::CommandLaws::object_is_command, crate::proofs::CommandLaws::free_is_command, crate::proofs::CommandLaws::write_is_command, crate::proofs::CommandLaws::punch_is_command))]
pub fn changes_are_commands()
    ensures object { (pool : Pool) (k : ℕ) (head : ObjectHead) (bonus : List ℕ) (spill : Option (List ℕ)) (snap : DatedState)
        → object_made (pool.number + 1) k head bonus spill snap ≡ in_numbers (k + 1) (applied pool (map (At k) (Put head bonus false 0 ∷ spill_change spill)) snap) }
    ensures free { (pool : Pool) (first count : ℕ) (snap : DatedState)
        → objects_freed (pool.number + 1) first count snap ≡ in_numbers (first + count) (applied pool (FreeObjects first count ∷ []) snap) }
    ensures write { (pool : Pool) (k i : ℕ) (bytes : List ℕ) (snap : DatedState)
        → block_written (pool.number + 1) k i (filled (size_at (snap.state k)) bytes) snap ≡ written pool k i bytes snap }
    ensures punch { (pool : Pool) (k first count : ℕ) (snap : DatedState)
        → holes_made (pool.number + 1) k first count snap ≡ punched pool k first count snap }
{}

/// What a read of a set finds is what the command of a pool tells.
#[tactic(auto, using(crate::proofs::CommandLaws::read_is_command))]
pub fn reads_are_commands()
    ensures { (pool : Pool) (k i : ℕ) (snap : DatedState)
        → block_told pool (found_at k i snap) ≡ or_else (cannot_apply NoObject) (snap.state k) (λ object. block_read pool k i (object.blocks i)) }
{}
