//! The plain form: the words of a text one after another.
ghost use Rattle.std.specs.Prelude.{◌≡◌, ◌+◌, ◌≤◌, ◌++◌, [], ◌∷◌, List, ℕ, length, take, drop};
ghost use Rattle.std.specs.Int.{w32, from_le_bytes};
ghost use Rattle.zst_fletcher.specs.WeightSum.{sums_of, weight_sum, IsWhole};

use crate::sum::Sum;

/// The sum of a text of whole words, word by word: slower than `sum_of`, and the same.
pub fn sum_word_by_word(bytes: &[u8]) -> Sum
    requires { IsWhole bytes.now }
    ensures { result ≡ weight_sum bytes.now }
{
    let mut sum = Sum::zero();
    add_words(&mut sum, bytes);
    sum
}

/// Adds a text of whole words, word by word.
pub(crate) fn add_words(sum: &mut Sum, bytes: &[u8])
    requires { IsWhole bytes.now }
    ensures { (before : List ℕ) → IsWhole before → sum.old ≡ weight_sum before → sum.new ≡ weight_sum (before ++ bytes.now) }
{
    // Of a copy, the loop keeps the sums in registers.
    let mut sums = *sum;
    for i in 0..bytes.len() / 4 {
        sums = add_word(sums, word_at(bytes, 4 * i));
    }
    *sum = sums;
}

fn add_word(sum: Sum, word: u32) -> Sum
    ensures { (before : List ℕ) → sum ≡ sums_of before → result ≡ sums_of (before ++ word ∷ []) }
{
    let a = sum.a.wrapping_add(word as u64);
    let b = sum.b.wrapping_add(a);
    let c = sum.c.wrapping_add(b);
    let d = sum.d.wrapping_add(c);
    Sum { a, b, c, d }
}

/// The number in the four bytes from a place on, the lowest byte first.
fn word_at(bytes: &[u8], at: usize) -> u32
    requires { at + 4 ≤ length bytes.now }
    ensures { result ≡ from_le_bytes w32 (take 4 (drop at bytes.now)) }
{
    u32::from_le_bytes([bytes[at], bytes[at + 1], bytes[at + 2], bytes[at + 3]])
}
