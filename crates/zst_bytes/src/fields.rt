ghost use Rattle.std.specs.Prelude.{◌≡◌, ◌+◌, ◌≤◌, length};
ghost use Rattle.zst_bytes.specs.Bytes.{number_at, number_bytes, written};

use byteorder::{ByteOrder, LittleEndian};

/// The byte at a place.
#[tactic(auto, unfolding(crate::specs::Bytes::number_at, crate::specs::Bytes::bytes_at))]
pub fn le8(bytes: &[u8], at: usize) -> u8
    requires { at + 1 ≤ length bytes.now }
    ensures { result ≡ number_at bytes.now at 1 }
{
    bytes[at]
}

/// The number in the 4 bytes from a place on, the lowest byte first.
#[tactic(auto, unfolding(crate::specs::Bytes::number_at, crate::specs::Bytes::bytes_at))]
pub fn le32(bytes: &[u8], at: usize) -> u32
    requires { at + 4 ≤ length bytes.now }
    ensures { result ≡ number_at bytes.now at 4 }
{
    LittleEndian::read_u32(&bytes[at..at + 4])
}

/// The number in the 8 bytes from a place on, the lowest byte first.
#[tactic(auto, unfolding(crate::specs::Bytes::number_at, crate::specs::Bytes::bytes_at))]
pub fn le64(bytes: &[u8], at: usize) -> u64
    requires { at + 8 ≤ length bytes.now }
    ensures { result ≡ number_at bytes.now at 8 }
{
    LittleEndian::read_u64(&bytes[at..at + 8])
}

/// Writes a byte at a place, and leaves all others.
#[tactic(auto, unfolding(crate::specs::Bytes::number_bytes, crate::specs::Bytes::written))]
pub fn put8(bytes: &mut [u8], at: usize, value: u8)
    requires { at + 1 ≤ length bytes.old }
    ensures { bytes.new ≡ written at 1 (number_bytes 1 value) bytes.old }
{
    bytes[at] = value;
}

/// Writes a number into the 4 bytes from a place on, the lowest byte first, and leaves all others.
pub fn put32(bytes: &mut [u8], at: usize, value: u32)
    requires { at + 4 ≤ length bytes.old }
    ensures { bytes.new ≡ written at 4 (number_bytes 4 value) bytes.old }
{
    LittleEndian::write_u32(&mut bytes[at..], value);
}

/// Writes a number into the 8 bytes from a place on, the lowest byte first, and leaves all others.
pub fn put64(bytes: &mut [u8], at: usize, value: u64)
    requires { at + 8 ≤ length bytes.old }
    ensures { bytes.new ≡ written at 8 (number_bytes 8 value) bytes.old }
{
    LittleEndian::write_u64(&mut bytes[at..], value);
}

/// Copies a text to a place, and leaves all bytes outside it.
#[tactic(auto, unfolding(crate::specs::Bytes::written))]
pub fn put_bytes(bytes: &mut [u8], at: usize, from: &[u8])
    requires { at + length from.now ≤ length bytes.old }
    ensures { bytes.new ≡ written at (length from.now) from.now bytes.old }
{
    bytes[at..at + from.len()].copy_from_slice(from);
}
