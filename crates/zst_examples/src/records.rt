// Records of a stream by the tables of zfs_ioctl.h, and their sums by the plain loop of zfs_fletcher.c: none of it is the program's.

use crate::places::{number_at, put_number};
use std::alloc::{AllocError, Global};
use std::fmt;

/// The bytes of a record without its payload.
pub(crate) const RECORD: usize = 312;

/// Where a record's own sums stand in it.
const SUMS: usize = 280;

/// The type of END, whose first field states the sums of all before it.
const END: u64 = 5;

/// The four sums of Fletcher-4.
#[derive(Clone, Copy)]
pub(crate) struct Sums {
    a: u64,
    b: u64,
    c: u64,
    d: u64,
}

impl fmt::Display for Sums {
    fn fmt<W: fmt::Write>(&self, f: &mut fmt::Formatter<W>) -> fmt::Result {
        let Sums { a, b, c, d } = *self;
        write!(f, "{a} {b} {c} {d}")
    }
}

/// The sums of no bytes.
const NO_SUMS: Sums = Sums {
    a: 0,
    b: 0,
    c: 0,
    d: 0,
};

impl Sums {
    /// The sums after some more words of 32 bits.
    fn after(mut self, bytes: &[u8]) -> Sums {
        for word in bytes.chunks_exact(4) {
            if let [w, x, y, z] = word {
                let word = u32::from_le_bytes([*w, *x, *y, *z]);
                self.a = self.a.wrapping_add(u64::from(word));
                self.b = self.b.wrapping_add(self.a);
                self.c = self.c.wrapping_add(self.b);
                self.d = self.d.wrapping_add(self.c);
            }
        }
        self
    }

    /// Puts them at a place, as far as there are bytes.
    pub(crate) fn put(self, bytes: &mut [u8], place: usize) {
        put_number(bytes, place, self.a);
        put_number(bytes, place.saturating_add(8), self.b);
        put_number(bytes, place.saturating_add(16), self.c);
        put_number(bytes, place.saturating_add(24), self.d);
    }
}

/// The sums of the bytes from a place to another.
pub(crate) fn sums_of(bytes: &[u8], from: usize, to: usize) -> Sums {
    NO_SUMS.after(bytes.get(from..to).unwrap_or(&[]))
}

/// The sums that stand at a place.
pub(crate) fn sums_at(bytes: &[u8], place: usize) -> Sums {
    Sums {
        a: number_at(bytes, place, 8),
        b: number_at(bytes, place.saturating_add(8), 8),
        c: number_at(bytes, place.saturating_add(16), 8),
        d: number_at(bytes, place.saturating_add(24), 8),
    }
}

/// The bytes of the payload behind a record: BEGIN, OBJECT, WRITE and SPILL have one.
fn payload_len(record: &[u8]) -> u64 {
    match number_at(record, 0, 4) {
        0 => number_at(record, 4, 4),
        1 => number_at(record, 28, 4).saturating_add(7) / 8 * 8,
        3 => number_at(record, 32, 8),
        7 => number_at(record, 16, 8),
        _ => 0,
    }
}

/// Where each whole record of a stream begins.
fn places_of(alloc: Global, stream: &[u8]) -> Result<Vec<usize>, AllocError> {
    let mut places = Vec::new(alloc);
    let mut place = 0usize;
    for _ in 0..stream.len() {
        let Some(record) = stream.get(place..place.saturating_add(RECORD)) else {
            break;
        };
        places.push(place)?;
        let payload = usize::try_from(payload_len(record)).unwrap_or(usize::MAX);
        place = place.saturating_add(RECORD).saturating_add(payload);
    }
    Ok(places)
}

/// Makes the sums of a record those of what stands before, and gives the sums after it and its payload. BEGIN has none of its own.
fn seal_one(stream: &mut [u8], sums: Sums, place: usize, end: usize) -> Sums {
    if number_at(stream, place, 4) == END {
        sums.put(stream, place.saturating_add(8));
    }
    let own = place.saturating_add(SUMS);
    let before = sums.after(stream.get(place..own).unwrap_or(&[]));
    if place > 0 {
        before.put(stream, own);
    }
    before.after(stream.get(own..end).unwrap_or(&[]))
}

/// Makes each sum of a stream the right one.
pub(crate) fn seal(alloc: Global, stream: &mut Vec<u8>) -> Result<(), AllocError> {
    let places = places_of(alloc, stream)?;
    let mut sums = NO_SUMS;
    for (i, place) in places.iter().enumerate() {
        let end = places
            .get(i.saturating_add(1))
            .copied()
            .unwrap_or(stream.len());
        sums = seal_one(stream, sums, *place, end);
    }
    Ok(())
}

/// A stream with neither the name in its BEGIN nor any sums.
fn unnamed(alloc: Global, stream: &[u8]) -> Result<Vec<u8>, AllocError> {
    let mut bytes = stream.to_vec(alloc)?;
    for byte in bytes.iter_mut().skip(56).take(256) {
        *byte = 0;
    }
    for place in places_of(alloc, stream)? {
        if number_at(&bytes, place, 4) == END {
            NO_SUMS.put(&mut bytes, place.saturating_add(8));
        }
        if place > 0 {
            NO_SUMS.put(&mut bytes, place.saturating_add(SUMS));
        }
    }
    Ok(bytes)
}

/// How two streams compare.
pub(crate) fn compared(alloc: Global, one: &[u8], other: &[u8]) -> Result<String, AllocError> {
    if one == other {
        return String::from_str(alloc, "alike\n");
    }
    if unnamed(alloc, one)? == unnamed(alloc, other)? {
        return String::from_str(alloc, "alike but for name and sums\n");
    }
    let place = one.iter().zip(other).take_while(|(a, b)| a == b).count();
    format!(in alloc; "differ at {place}\n")
}
