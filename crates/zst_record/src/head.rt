ghost use Rattle.std.specs.Prelude.{◌≡◌};
ghost use Rattle.zst_record.specs.Heads.{payload_len};

use zst_bytes::pad8;
use zst_model::Header;

/// What the 312 bytes of a record say (`dmu_replay_record` of zfs_ioctl.h), but for its checksum.
#[derive(Drop)]
pub enum Head {
    /// The stream begins. A payload of `payload_len` bytes follows.
    Begin {
        header: Header,
        payload_len: u32,
    },
    /// An object with its attributes. Its bonus, padded to a multiple of 8 bytes, follows.
    Object {
        object: u64,
        type_: u32,
        bonus_type: u32,
        block_size: u32,
        bonus_len: u32,
        max_block: u64,
        to: u64,
    },
    /// A range of object numbers without objects.
    FreeObjects {
        first: u64,
        count: u64,
        to: u64,
    },
    /// A block of an object. Its `length` bytes follow.
    Write {
        object: u64,
        type_: u32,
        offset: u64,
        length: u64,
        to: u64,
    },
    /// A range of bytes of an object that is a hole, with a length of all ones to the object's end.
    Free {
        object: u64,
        offset: u64,
        length: u64,
        to: u64,
    },
    /// The stream ends. The sums are the checksum of all that stands before this record.
    End {
        sums: [u64; 4],
        to: u64,
    },
    /// The spill block of an object. Its `length` bytes follow.
    Spill {
        object: u64,
        length: u64,
        to: u64,
    },
    /// A range of bytes of an object that was redacted.
    Redact {
        object: u64,
        offset: u64,
        length: u64,
        to: u64,
    },
}

impl Head {
    /// The count of bytes of the payload that follows the record.
    pub fn payload_len(&self) -> u64
        ensures { result ≡ payload_len self.now }
    {
        match self {
            Head::Begin {
                header: _,
                payload_len,
            } => u64::from(*payload_len),
            Head::Object { bonus_len, .. } => pad8(u64::from(*bonus_len)),
            Head::Write { length, .. } => *length,
            Head::Spill { length, .. } => *length,
            Head::FreeObjects { .. } => 0,
            Head::Free { .. } => 0,
            Head::End { .. } => 0,
            Head::Redact { .. } => 0,
        }
    }
}

/// A covered record: its head, its place in the stream in bytes, its number from 0 at BEGIN, and its payload.
#[derive(Clone, Copy)]
pub struct Record<'a> {
    pub head: &'a Head,
    pub at: u64,
    pub index: u64,
    pub payload: &'a [u8],
}
