ghost use Rattle.std.specs.Prelude.{◌≡◌, ◌%◌, ◌<◌, ◌^◌, ◌++◌, [], List, ℕ, length};
ghost use Rattle.zst_fletcher.specs.Pairs.{totals_of, seconds_of};
ghost use Rattle.zst_fletcher.specs.WeightSum.{sums_of, weight_sum, IsWhole, parts_of};

use crate::lanes::{STEP, sum_of_steps};
use crate::weights::{pyramid, triangle};
use crate::word_sums::add_words;

/// The bytes from which on a text is summed faster in lanes than word by word.
const WORTH_LANES: usize = 256;

/// The four running sums of Fletcher-4, each modulo 2^64. Each word adds to `a`, then `a` to `b`,
/// `b` to `c` and `c` to `d`. A record states them in this order (`drr_checksum` of zfs_ioctl.h).
#[derive(Clone, Copy, Debug, PartialEq, Eq)]
pub struct Sum {
    pub a: u64,
    pub b: u64,
    pub c: u64,
    pub d: u64,
}

impl Sum {
    /// The sum of no words.
    pub fn zero() -> Sum
        ensures { result ≡ weight_sum [] }
    {
        Sum {
            a: 0,
            b: 0,
            c: 0,
            d: 0,
        }
    }

    /// The four sums in the order in which a record states them.
    pub fn parts(&self) -> [u64; 4]
        ensures { result ≡ parts_of self.now }
    {
        [self.a, self.b, self.c, self.d]
    }

    /// Adds a text of whole words. The sum of a text is then the sum of that text and this one.
    pub fn add(&mut self, bytes: &[u8])
        requires { IsWhole bytes.now }
        ensures { (before : List ℕ) → IsWhole before → self.old ≡ weight_sum before → self.new ≡ weight_sum (before ++ bytes.now) }
    {
        if bytes.len() < WORTH_LANES {
            add_words(self, bytes);
        } else {
            let (steps, rest) = bytes.split_at(bytes.len() / STEP * STEP);
            *self = self.append(&sum_of_steps(steps), steps.len() as u64 / 4);
            add_words(self, rest);
        }
    }

    /// The sum of two texts, the later one of this many words.
    fn append(&self, later: &Sum, count: u64) -> Sum
        requires { count < 2 ^ 62 }
        ensures { (before after : List ℕ) → self.now ≡ sums_of before → later.now ≡ sums_of after → count ≡ length after
            → result ≡ sums_of (before ++ after) }
    {
        let third_weight = triangle(count);
        let fourth_weight = pyramid(count);
        let b = count.wrapping_mul(self.a);
        let c = count
            .wrapping_mul(self.b)
            .wrapping_add(third_weight.wrapping_mul(self.a));
        let d = count
            .wrapping_mul(self.c)
            .wrapping_add(third_weight.wrapping_mul(self.b))
            .wrapping_add(fourth_weight.wrapping_mul(self.a));
        Sum {
            a: self.a.wrapping_add(later.a),
            b: self.b.wrapping_add(b).wrapping_add(later.b),
            c: self.c.wrapping_add(c).wrapping_add(later.c),
            d: self.d.wrapping_add(d).wrapping_add(later.d),
        }
    }

    /// The sum of words in pairs, by that of the pairs' totals and that of their second words. The m-th pair from the end has
    /// the places 2m and 2m - 1, so that its second word has less weight than the first.
    #[inline(always)]
    pub(crate) fn part(&self, seconds: &Sum) -> Sum
        ensures { (words : List ℕ) → length words % 2 ≡ 0 → self.now ≡ sums_of (totals_of words) → seconds.now ≡ sums_of (seconds_of words)
            → result ≡ sums_of words }
    {
        Sum {
            a: self.a,
            b: self.b.wrapping_mul(2).wrapping_sub(seconds.a),
            c: self
                .c
                .wrapping_mul(4)
                .wrapping_sub(self.b)
                .wrapping_sub(seconds.b.wrapping_mul(2)),
            d: self
                .d
                .wrapping_mul(8)
                .wrapping_sub(self.c.wrapping_mul(4))
                .wrapping_sub(seconds.c.wrapping_mul(4))
                .wrapping_add(seconds.b),
        }
    }
}

/// The sum of a text of whole words.
pub fn sum_of(bytes: &[u8]) -> Sum
    requires { IsWhole bytes.now }
    ensures { result ≡ weight_sum bytes.now }
{
    let mut sum = Sum::zero();
    sum.add(bytes);
    sum
}
