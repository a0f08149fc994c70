use crate::fields::bytes::Bytes;
use crate::states::attr::ObjectHead;

/// What a record between BEGIN and END does to one object (zfs_ioctl.h). Offsets and lengths are in bytes.
#[derive(Drop)]
pub enum Change {
    /// OBJECT: the object's attributes but for its spill block.
    Put {
        head: ObjectHead,
        bonus: Bytes,
        /// Whether the spill block stays: only in a stream without the flag SPILL_BLOCK.
        keep_spill: bool,
        /// The greatest index of the object, as the sender states it. Nothing is applied by it.
        max_block: u64,
    },
    /// SPILL: the spill block.
    Spill {
        bytes: Bytes,
    },
    /// FREE with a length of all ones: holes from the offset on.
    FreeFrom {
        offset: u64,
    },
    /// FREE: holes in a range.
    Free {
        offset: u64,
        length: u64,
    },
    /// REDACT: a range of redacted blocks.
    Redact {
        offset: u64,
        length: u64,
    },
    /// WRITE: one block of data.
    Write {
        offset: u64,
        /// The object's type, as the sender states it. Nothing is applied by it.
        type_: u32,
        bytes: Bytes,
    },
}

/// What a record between BEGIN and END does.
#[derive(Drop)]
pub enum Item {
    /// FREEOBJECTS: numbers that become absent, cut at 2^48. There is no object 0.
    FreeObjects { first: u64, count: u64 },
    /// Any other record: a change of the object with this number.
    At { object: u64, change: Change },
}
