//! Ranges that reach past what a set has, cut.
ghost use Rattle.std.specs.Prelude.{◌≡◌, ◌+◌, ◌*◌, ◌<◌, ◌≤◌, ℕ, Ok};
ghost use Rattle.zst_model.specs.states.AppliedItems.{covers, within};
ghost use Rattle.zst_model.specs.states.State.{index_bound};
ghost use Rattle.zst_stream.specs.Items.{free_change};
ghost use Rattle.zst_apply.specs.Checks.{free_check};

use zst_model::limits::INDEX_BOUND;

// A range of numbers, or of indices.
#[derive(Clone, Copy)]
pub(crate) struct Span {
    pub(crate) first: u64,
    pub(crate) count: u64,
}

/// What a range has from one number on and below another.
pub(crate) fn cut(first: u64, count: u64, low: u64, high: u64) -> Span
    requires { low ≤ high }
    ensures from { low ≤ result.first }
    ensures inside { result.first + result.count ≤ high }
    ensures same { (n : ℕ) → low ≤ n → n < high → within result.first result.count n ≡ within first count n }
{
    let from = first.max(low).min(high);
    let below = first.saturating_add(count).min(high).max(from);
    Span {
        first: from,
        count: below - from,
    }
}

/// The indices that a FREE covers, in an object with blocks of this size.
#[tactic(auto, unfolding(zst_model::specs::states::State::index_bound))]
pub(crate) fn freed_indices(size: u64, offset: u64, length: u64) -> Span
    requires some { 0 < size }
    requires checked { free_check size offset length ≡ Ok tt }
    ensures inside { result.first + result.count ≤ index_bound }
    ensures same { (i : ℕ) → i < index_bound → within result.first result.count i ≡ covers (free_change offset length) (i * size) }
{
    if length == u64::MAX {
        return cut(offset / size, u64::MAX, 0, INDEX_BOUND);
    }
    cut(offset / size, length / size, 0, INDEX_BOUND)
}
