ghost use Rattle.std.specs.Prelude.{◌≡◌, ◌+◌, ◌≤◌, length};
ghost use Rattle.zst_bytes.specs.Fields.{lay};
ghost use Rattle.zst_block.specs.Ptr.{sum_fields, sum_at, SumFits, is_zero as sum_is_zero};

use zst_bytes::{le8, le32, le64, put_bytes, put8, put32, put64};
use zst_fletcher::Sum;

/// Names a block by its place, its length and its sum, or tells that there is none.
#[derive(Clone, Copy, Debug, PartialEq, Eq)]
pub struct Ptr {
    /// 0 a hole, 1 data, 2 redacted, 3 a block of pointers or objects with something present,
    /// 4 such a block with nothing present.
    pub kind: u8,
    /// The level of the block in its tree, 0 for a leaf.
    pub level: u8,
    /// The length of the block in bytes.
    pub length: u32,
    /// The first sector of the block.
    pub sector: u64,
    /// The greatest date of what is below it.
    pub number: u64,
    /// The Fletcher-4 of the block.
    pub sum: Sum,
}

impl Ptr {
    ghost use Rattle.std.specs.Prelude.{◌≡◌, ◌+◌, ◌^◌, ◌<◌, ◌≤◌, length, List, ℕ};
    ghost use Rattle.zst_bytes.specs.Bytes.{bytes_at, written};
    ghost use Rattle.zst_bytes.specs.Fields.{lay};
    ghost use Rattle.zst_block.specs.Ptr.{ptr_bytes, number_fields, ptr_at, PtrFits, is_lawful, is_flat, is_present, hole_of, redacted_of};
    ghost use Rattle.zst_block.specs.declared.ptr.Ptr.{Ptr};

    /// A hole with its date.
    pub fn hole(number: u64) -> Ptr
        ensures { result ≡ hole_of number }
    {
        Ptr {
            kind: 0,
            level: 0,
            length: 0,
            sector: 0,
            number,
            sum: Sum {
                a: 0,
                b: 0,
                c: 0,
                d: 0,
            },
        }
    }

    /// A redacted pointer with its date.
    pub fn redacted(number: u64) -> Ptr
        ensures { result ≡ redacted_of number }
    {
        Ptr {
            kind: 2,
            ..Ptr::hole(number)
        }
    }

    /// Whether it is a hole or redacted, and so stands for all that is below it.
    pub fn is_flat(&self) -> bool
        ensures { result ≡ is_flat self.now }
    {
        self.kind == 0 || self.kind == 2
    }

    /// Whether anything but holes is below it.
    pub fn is_present(&self) -> bool
        ensures { result ≡ is_present self.now }
    {
        self.kind == 1 || self.kind == 2 || self.kind == 3
    }

    /// Whether the kind is one of the table's, and a hole or a redacted pointer names no place,
    /// length or sum.
    pub fn is_lawful(&self) -> bool
        ensures { result ≡ is_lawful self.now }
    {
        if self.is_flat() {
            self.length == 0 && self.sector == 0 && is_zero(&self.sum)
        } else {
            self.kind <= 4
        }
    }

    /// Writes the 64 bytes of the pointer at a place, and leaves all others.
    #[tactic(auto, unfolding(crate::specs::Ptr::ptr_bytes, zst_bytes::specs::Fields::zeros))]
    pub fn put(&self, into: &mut [u8], at: usize)
        requires { at + 64 ≤ length into.old }
        ensures bytes { into.new ≡ written at 64 (ptr_bytes self.now) into.old }
        ensures fits { PtrFits self.now }
    {
        let mut bytes = [0; 64];
        self.put_numbers(&mut bytes);
        put_sum(&mut bytes, 24, &self.sum);
        put_bytes(into, at, &bytes);
    }

    // Writes what stands before the sum.
    fn put_numbers(&self, bytes: &mut [u8])
        requires { length bytes.old ≡ 64 }
        ensures bytes { bytes.new ≡ lay (number_fields self.now) bytes.old }
        ensures kind { self.now.kind < 2 ^ 8 }
        ensures level { self.now.level < 2 ^ 8 }
        ensures length { self.now.length < 2 ^ 32 }
        ensures sector { self.now.sector < 2 ^ 64 }
        ensures number { self.now.number < 2 ^ 64 }
    {
        put8(bytes, 0, self.kind);
        put8(bytes, 1, self.level);
        put32(bytes, 4, self.length);
        put64(bytes, 8, self.sector);
        put64(bytes, 16, self.number);
    }

    /// Reads the pointer in the 64 bytes from a place on.
    pub fn get(bytes: &[u8], at: usize) -> Ptr
        requires { at + 64 ≤ length bytes.now }
        ensures fields { result ≡ ptr_at bytes.now at }
        ensures fits { PtrFits result }
        // What was written of a pointer is read as that pointer.
        ensures back { (ptr : Ptr) → PtrFits ptr → bytes_at bytes.now at 64 ≡ ptr_bytes ptr → result ≡ ptr }
    {
        Ptr {
            kind: le8(bytes, at),
            level: le8(bytes, at + 1),
            length: le32(bytes, at + 4),
            sector: le64(bytes, at + 8),
            number: le64(bytes, at + 16),
            sum: get_sum(bytes, at + 24),
        }
    }
}

fn is_zero(sum: &Sum) -> bool
    ensures { result ≡ sum_is_zero sum.now }
{
    sum.a == 0 && sum.b == 0 && sum.c == 0 && sum.d == 0
}

/// Writes four sums in the 32 bytes from a place on, and leaves all others.
pub fn put_sum(bytes: &mut [u8], at: usize, sum: &Sum)
    requires { at + 32 ≤ length bytes.old }
    ensures bytes { bytes.new ≡ lay (sum_fields at sum.now) bytes.old }
    ensures fits { SumFits sum.now }
{
    put64(bytes, at, sum.a);
    put64(bytes, at + 8, sum.b);
    put64(bytes, at + 16, sum.c);
    put64(bytes, at + 24, sum.d);
}

/// Reads the four sums in the 32 bytes from a place on.
pub fn get_sum(bytes: &[u8], at: usize) -> Sum
    requires { at + 32 ≤ length bytes.now }
    ensures fields { result ≡ sum_at bytes.now at }
    ensures fits { SumFits result }
{
    Sum {
        a: le64(bytes, at),
        b: le64(bytes, at + 8),
        c: le64(bytes, at + 16),
        d: le64(bytes, at + 24),
    }
}
