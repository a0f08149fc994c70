ghost use Rattle.std.specs.Prelude.{◌≡◌, ◌+◌, ◌≤◌, true, false, [], ◌++◌, List, ℕ, length, take};
ghost use Rattle.zst_writer.specs.Writes.{is_begin};

use zst_fletcher::Sum;
use zst_record::{Head, RECORD_LEN, SUMMED_LEN, encode, put_sums};

/// Keeps the running Fletcher-4 of all that was put.
#[derive(Clone, Copy)]
pub struct Writer {
    sum: Sum,
}

fn begins(head: &Head) -> bool
    ensures { result ≡ is_begin head.now }
{
    matches!(head, Head::Begin { .. })
}

impl Writer {
    ghost use Rattle.zst_bytes.specs.Fields.{lay};
    ghost use Rattle.zst_fletcher.specs.WeightSum.{weight_sum, parts_of, IsWhole};
    ghost use Rattle.zst_record.specs.Heads.{payload_len};
    ghost use Rattle.zst_record.specs.Table.{head_bytes, sum_fields};
    ghost use Rattle.zst_writer.specs.Writes.{HasWritten, bytes_after, stating};

    /// A writer of nothing yet.
    pub fn new() -> Writer
        ensures { HasWritten result [] }
    {
        Writer { sum: Sum::zero() }
    }

    fn add(&mut self, bytes: &[u8])
        requires { IsWhole bytes.now }
        ensures { (text : List ℕ) → HasWritten self.old text → HasWritten self.new (text ++ bytes.now) }
    {
        self.sum.add(bytes);
    }

    /// Encodes a head, but in END the sums of what was put.
    fn state(&self, head: &Head, into: &mut [u8; RECORD_LEN])
        ensures { (text : List ℕ) → HasWritten self.now text → into.new ≡ head_bytes (stating text head.now) }
    {
        match head {
            Head::End { sums: _, to } => {
                let stated = Head::End {
                    sums: self.sum.parts(),
                    to: *to,
                };
                encode(&stated, into);
            }
            _ => encode(head, into),
        }
    }

    /// Puts the sum of all that stands before it into a record, and adds the record.
    fn seal(&mut self, into: &mut [u8])
        requires { length into.old ≡ RECORD_LEN }
        ensures sealed { (text : List ℕ) → HasWritten self.old text
            → into.new ≡ lay (sum_fields SUMMED_LEN (parts_of (weight_sum (text ++ take SUMMED_LEN into.old)))) into.old }
        ensures added { (text : List ℕ) → HasWritten self.old text → HasWritten self.new (text ++ into.new) }
    {
        self.add(&into[..SUMMED_LEN]);
        put_sums(into, SUMMED_LEN, &self.sum.parts());
        self.add(&into[SUMMED_LEN..]);
    }

    /// Gives a record its checksum, where it has one, and adds it.
    fn close(&mut self, is_first: bool, into: &mut [u8; RECORD_LEN])
        ensures first { is_first ≡ true → into.new ≡ into.old }
        ensures later { is_first ≡ false → (text : List ℕ) → HasWritten self.old text
            → into.new ≡ lay (sum_fields SUMMED_LEN (parts_of (weight_sum (text ++ take SUMMED_LEN into.old)))) into.old }
        ensures added { (text : List ℕ) → HasWritten self.old text → HasWritten self.new (text ++ into.new) }
    {
        if is_first {
            self.add(into);
        } else {
            self.seal(into);
        }
    }

    /// Fills the record of a head with its checksums, and adds the record and its payload to what was put.
    ///
    /// END states the sums of all that was put before it, whatever its head says (`zfs send` in dmu_send.c).
    pub fn put(&mut self, head: &Head, payload: &[u8], into: &mut [u8; RECORD_LEN])
        requires len { length payload.now ≡ payload_len head.now }
        requires words { IsWhole payload.now }
        ensures record { (text : List ℕ) → HasWritten self.old text → into.new ≡ bytes_after text head.now }
        ensures written { (text : List ℕ) → HasWritten self.old text
            → HasWritten self.new (text ++ (into.new ++ payload.now)) }
    {
        self.state(head, into);
        self.close(begins(head), into);
        self.add(payload);
    }
}
