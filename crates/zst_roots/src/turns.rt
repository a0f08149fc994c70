// The turns in which snapshots are walked.
ghost use Rattle.std.specs.Prelude.{◌<◌, ℕ, All, Contains, IfOk, length};

use std::alloc::{AllocError, Global};
use zst_dir::Snapshot;

/// The numbers and the places of the snapshots, by rising number.
pub fn turns_of(alloc: Global, rows: &[Snapshot]) -> Result<Vec<(u64, usize)>, AllocError>
    ensures each { IfOk result (λ turns. (place : ℕ) → place < length rows.now → (number : ℕ) × Contains turns.items (number, place)) }
    ensures inside { IfOk result (λ turns. All (λ turn. turn.1 < length rows.now) turns.items) }
{
    let mut turns = Vec::new(alloc);
    for place in 0..rows.len() {
        turns.push((rows[place].number, place))?;
    }
    turns.sort()?;
    Ok(turns)
}
