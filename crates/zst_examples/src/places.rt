// Bytes at places, as words name them: `56=7461=..`, a place in decimal digits and what stands there in hexadecimal ones.

use std::alloc::{AllocError, Global};

/// The most bytes that a word may ask for.
pub(crate) const MOST: usize = 1 << 26;

/// The bytes of hexadecimal digits, also of some over and over, as `a5*250`.
pub(crate) fn bytes_of(alloc: Global, word: &str) -> Result<Option<Vec<u8>>, AllocError> {
    let (digits, count) = match word.split_once('*') {
        Some((digits, count)) => (digits, count.parse::<usize>().unwrap_or(0)),
        None => (word, 1),
    };
    let Ok(bytes) = hex::decode(alloc, digits) else {
        return Ok(None);
    };
    let mut all = Vec::new(alloc);
    for _ in 0..count.min(MOST) {
        all.extend_from_slice(&bytes)?;
    }
    Ok(Some(all))
}

/// A place and the bytes that are to stand there.
#[derive(Drop)]
pub(crate) struct Patch {
    place: usize,
    bytes: Vec<u8>,
}

/// The patches that words say, where each word says one.
pub(crate) fn patches_of(
    alloc: Global,
    words: &[String],
) -> Result<Option<Vec<Patch>>, AllocError> {
    let mut patches = Vec::new(alloc);
    for word in words {
        let Some((place, digits)) = word.as_str().split_once('=') else {
            return Ok(None);
        };
        match (place.parse::<usize>(), bytes_of(alloc, digits)?) {
            (Ok(place), Some(bytes)) if place <= MOST => patches.push(Patch { place, bytes })?,
            _ => return Ok(None),
        }
    }
    Ok(Some(patches))
}

/// How a patch is put on what stands there.
#[derive(Clone, Copy)]
pub(crate) enum Way {
    /// In its place.
    Set,
    /// Each bit of it that is set turns the bit that stands there.
    Turn,
}

impl Patch {
    /// These bytes at the front.
    pub(crate) fn front(bytes: Vec<u8>) -> Patch {
        Patch { place: 0, bytes }
    }

    /// Puts the bytes at their place, as far as there are bytes.
    fn put(&self, into: &mut [u8], way: Way) {
        for (i, byte) in self.bytes.iter().enumerate() {
            if let Some(there) = into.get_mut(self.place.saturating_add(i)) {
                *there = match way {
                    Way::Set => *byte,
                    Way::Turn => *there ^ *byte,
                };
            }
        }
    }
}

/// Puts patches on bytes, one after the other.
pub(crate) fn put_all(patches: &[Patch], into: &mut [u8], way: Way) {
    for patch in patches {
        patch.put(into, way);
    }
}

/// The number of so many bytes at a place, the least byte first; bytes that aren't there are 0.
pub(crate) fn number_at(bytes: &[u8], place: usize, width: usize) -> u64 {
    let mut number = 0u64;
    for i in 0..width.min(8) {
        let byte = bytes.get(place.saturating_add(i)).copied().unwrap_or(0);
        number |= u64::from(byte) << (8 * i);
    }
    number
}

/// Puts a number of 8 bytes at a place, as far as there are bytes.
pub(crate) fn put_number(bytes: &mut [u8], place: usize, number: u64) {
    for (i, byte) in number.to_le_bytes().iter().enumerate() {
        if let Some(there) = bytes.get_mut(place.saturating_add(i)) {
            *there = *byte;
        }
    }
}
