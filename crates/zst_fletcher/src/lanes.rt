//! Four lanes side by side, which take turns at the pairs of words that a text is.
ghost use Rattle.std.specs.Prelude.{◌≡◌, ◌+◌, ◌*◌, ◌%◌, ◌^◌, ◌≤◌, ◌++◌, [], ◌∷◌, List, ℕ, length, take, drop, slice_index};
ghost use Rattle.zst_fletcher.specs.WeightSum.{words, sums_of, weight_sum};
ghost use Rattle.zst_fletcher.specs.Lanes.{lanes_of};
ghost use Rattle.zst_fletcher.specs.Pairs.{totals_of, seconds_of, pairs_of};

use crate::sum::Sum;
use std::simd::prelude::*;

/// The bytes of a row, which is a pair of words for each lane.
const ROW: usize = 32;

/// The bytes of a step. It adds four rows, so that the loop itself costs little.
pub(crate) const STEP: usize = 128;

/// The four sums of each lane. Each but the first is a row behind the one before it, so that no
/// addition of a row waits for another.
#[derive(Clone, Copy)]
struct Lanes {
    a: u64x4,
    b: u64x4,
    c: u64x4,
    d: u64x4,
}

impl Lanes {
    #[inline(always)]
    fn zero() -> Lanes
        ensures { result ≡ lanes_of [] }
    {
        let zero = u64x4::splat(0);
        Lanes {
            a: zero,
            b: zero,
            c: zero,
            d: zero,
        }
    }

    #[inline(always)]
    fn add_row(self, row: u64x4) -> Lanes
        requires { length row ≡ 4 }
        ensures { (before : List ℕ) → length before % 4 ≡ 0 → self ≡ lanes_of before → result ≡ lanes_of (before ++ row) }
    {
        Lanes {
            a: self.a + row,
            b: self.b + self.a,
            c: self.c + self.b,
            d: self.d + self.c,
        }
    }

    /// The sums of all words. With n rows after a row, its word in lane j has the place 4n + 4 - j,
    /// whose weights are made of 1, n, and the pairs and the triples of n, as the lane's sums are.
    #[inline(always)]
    fn join(self) -> Sum
        ensures { (words : List ℕ) → length words % 4 ≡ 0 → self ≡ lanes_of words → result ≡ sums_of words }
    {
        Sum {
            a: weigh(self.a, [1, 1, 1, 1]),
            b: weigh(self.b, [4, 4, 4, 4]).wrapping_add(weigh(self.a, [4, 3, 2, 1])),
            c: weigh(self.c, [16, 16, 16, 16])
                .wrapping_add(weigh(self.b, [26, 22, 18, 14]))
                .wrapping_add(weigh(self.a, [10, 6, 3, 1])),
            d: weigh(self.d, [64, 64, 64, 64])
                .wrapping_add(weigh(self.c, [144, 128, 112, 96]))
                .wrapping_add(weigh(self.b, [100, 74, 52, 34]))
                .wrapping_add(weigh(self.a, [20, 10, 4, 1])),
        }
    }
}

/// The sum of the lanes, each times its weight.
fn weigh(lanes: u64x4, weights: [u64; 4]) -> u64
    ensures { (p q r s : ℕ) → lanes ≡ p % 2 ^ 64 ∷ q % 2 ^ 64 ∷ r % 2 ^ 64 ∷ s % 2 ^ 64 ∷ []
        → result ≡ (slice_index weights 0 * p + slice_index weights 1 * q + slice_index weights 2 * r + slice_index weights 3 * s) % 2 ^ 64 }
{
    (lanes * u64x4::from_array(weights)).reduce_sum()
}

/// The totals of the four pairs from a place on, and their second words, the lowest byte of each word first.
#[inline(always)]
fn row_at(bytes: &[u8], at: usize) -> (u64x4, u64x4)
    requires { at + 32 ≤ length bytes.now }
    ensures totals { result.0 ≡ totals_of (words (take 32 (drop at bytes.now))) }
    ensures seconds { result.1 ≡ seconds_of (words (take 32 (drop at bytes.now))) }
{
    let pairs = u64x4::from_le_bytes(u8x32::from_slice(&bytes[at..]));
    let firsts = pairs & u64x4::splat(0xffff_ffff);
    let seconds = pairs >> u64x4::splat(32);
    (firsts + seconds, seconds)
}

/// Lanes of the pairs' totals, and of their second words. To split a number of 64 bits is faster than to widen two of 32.
#[derive(Clone, Copy)]
struct Pairs {
    totals: Lanes,
    seconds: Lanes,
}

impl Pairs {
    #[inline(always)]
    fn zero() -> Pairs
        ensures { result ≡ pairs_of [] }
    {
        Pairs {
            totals: Lanes::zero(),
            seconds: Lanes::zero(),
        }
    }

    /// Adds the row at a place.
    #[inline(always)]
    fn add_row(self, bytes: &[u8], at: usize) -> Pairs
        requires { at + 32 ≤ length bytes.now }
        ensures { (before : List ℕ) → length before % 8 ≡ 0 → self ≡ pairs_of before → result ≡ pairs_of (before ++ words (take 32 (drop at bytes.now))) }
    {
        let (totals, seconds) = row_at(bytes, at);
        Pairs {
            totals: self.totals.add_row(totals),
            seconds: self.seconds.add_row(seconds),
        }
    }

    /// Adds the four rows from a place on.
    #[inline(always)]
    fn add_step(self, bytes: &[u8], at: usize) -> Pairs
        requires { at + 128 ≤ length bytes.now }
        ensures { (before : List ℕ) → length before % 8 ≡ 0 → self ≡ pairs_of before → result ≡ pairs_of (before ++ words (take 128 (drop at bytes.now))) }
    {
        self.add_row(bytes, at)
            .add_row(bytes, at + ROW)
            .add_row(bytes, at + 2 * ROW)
            .add_row(bytes, at + 3 * ROW)
    }

    #[inline(always)]
    fn join(self) -> Sum
        ensures { (words : List ℕ) → length words % 8 ≡ 0 → self ≡ pairs_of words → result ≡ sums_of words }
    {
        self.totals.join().part(&self.seconds.join())
    }
}

/// The sum of a text of whole steps.
pub(crate) fn sum_of_steps(bytes: &[u8]) -> Sum
    requires { length bytes.now % 128 ≡ 0 }
    ensures { result ≡ weight_sum bytes.now }
{
    let mut pairs = Pairs::zero();
    for step in 0..bytes.len() / STEP {
        pairs = pairs.add_step(bytes, STEP * step);
    }
    pairs.join()
}
