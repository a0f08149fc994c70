//! The records of a stream: what they say, their tables, written and read.
#![tactic(auto)]

mod decoding;
mod encoding;
pub mod features;
mod head;
mod laws;
mod payload;
pub mod types;

pub use decoding::{decode, get_sums};
pub use encoding::{encode, put_sums};
pub use head::{Head, Record};
pub use laws::{
    begin_is_decoded, begin_is_stated, decoded_fits, formats_are_defined, payload_has_length,
    payload_is_bounded, payload_is_read, payload_is_written, record_is_decoded,
};
pub use payload::{begin_payload, put_begin_payload};

/// The magic number of BEGIN (`DMU_BACKUP_MAGIC` of zfs_ioctl.h).
pub const MAGIC: u64 = 0x2_f5ba_cbac;

/// The magic number in a stream whose numbers have their highest byte first.
pub const REVERSED_MAGIC: u64 = 0xaccb_baf5_0200_0000;

/// The header type of the stream of one snapshot (`DMU_SUBSTREAM`).
pub const SUBSTREAM: u64 = 1;

/// The header type of a stream of many (`DMU_COMPOUNDSTREAM`).
pub const COMPOUND_STREAM: u64 = 2;

/// The bytes of a record without its payload (all of `dmu_replay_record` of zfs_ioctl.h).
pub const RECORD_LEN: usize = 312;

/// How many of them stand before the record's own checksum, which is that of all bytes of the stream before it.
pub const SUMMED_LEN: usize = 280;

/// The bytes of the longest payload: a block's, or a spill block's.
pub const LONGEST_PAYLOAD: usize = 131_072;

/// The bytes of BEGIN's longest payload: two full sets of guids.
pub const LONGEST_BEGIN_PAYLOAD: usize = 296;
