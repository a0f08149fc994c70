ghost use Rattle.std.specs.Prelude.{◌≡◌, ◌+◌, ◌%◌, ◌^◌, ◌<◌, ◌≤◌};
ghost use Rattle.zst_record.specs.Formats.{record_len, summed_len};

use zst_bytes::le64;
use zst_fletcher::Sum;

/// A sum that has gone some bytes into a record.
#[derive(Clone, Copy)]
pub(crate) struct LeadingSum {
    pub(crate) sum: Sum,
    pub(crate) count: usize,
    ghost short: { count ≤ summed_len },
    ghost words: { count % 4 ≡ 0 },
}

/// What is kept of the bytes before a record: their count, their checksum, and what BEGIN says in them.
#[derive(Clone, Copy)]
pub(crate) struct Place {
    pub(crate) at: u64,
    pub(crate) sum: Sum,
    /// The record's first bytes were summed when the record before it was covered, and are summed but once.
    pub(crate) ahead: LeadingSum,
    pub(crate) features: u32,
    pub(crate) to: u64,
    ghost begun: { 0 < at → record_len ≤ at },
}

impl Place {
    ghost use Rattle.std.specs.Prelude.{ℕ, List, [], ◌++◌, length, take, drop};
    ghost use Rattle.zst_fletcher.specs.WeightSum.{weight_sum};
    ghost use Rattle.zst_reader.specs.Place.{IsPlaceAfter, IsAhead, IsRecordIn};

    /// The place before BEGIN.
    pub(crate) fn first() -> Place
        ensures { IsPlaceAfter [] [] result }
    {
        Place {
            at: 0,
            sum: Sum::zero(),
            ahead: LeadingSum {
                sum: Sum::zero(),
                count: 0,
            },
            features: 0,
            to: 0,
        }
    }

    /// The sum of the text with the record of this size at the front of the held bytes.
    pub(crate) fn sum_with(&self, held: &[u8], size: usize) -> Sum
        requires { IsRecordIn (length held.now) size }
        ensures { (before : List ℕ) → IsPlaceAfter before held.now self.now → result ≡ weight_sum (before ++ take size held.now) }
    {
        let mut sum = self.ahead.sum;
        sum.add(&held[self.ahead.count..size]);
        sum
    }

    /// The place behind the record of this size at the front of the held bytes, where the sum is that of the text with it.
    pub(crate) fn after(&self, held: &[u8], size: usize, sum: Sum, ahead: LeadingSum) -> Place
        requires there { IsRecordIn (length held.now) size }
        requires bounded { self.now.at + length held.now ≤ 2 ^ 62 }
        ensures at { result.at ≡ self.now.at + size }
        ensures after { (before : List ℕ) → IsPlaceAfter before held.now self.now → sum ≡ weight_sum (before ++ take size held.now)
            → IsAhead (before ++ take size held.now) (drop size held.now) ahead
            → IsPlaceAfter (before ++ take size held.now) (drop size held.now) result }
    {
        let at = self.at + size as u64;
        if self.at != 0 {
            return Place {
                at,
                sum,
                ahead,
                features: self.features,
                to: self.to,
            };
        }
        Place {
            at,
            sum,
            ahead,
            features: (le64(held, 16) / 4 % 0x4000_0000) as u32,
            to: le64(held, 40),
        }
    }
}
