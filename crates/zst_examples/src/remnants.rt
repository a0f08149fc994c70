// What a stop may leave of the ranges that were written and not synced, each range independently of the others.

use crate::calls::Answer;
use crate::counts::Counts;
use crate::pools::{Ends, Standing};
use std::alloc::{AllocError, Global};
use zst_outside::{Call, Entry};

/// In how many ways a range may be left: as it was written, as it was, filled with one byte, and its second half filled so.
const WAYS: u64 = 4;

/// The byte that it is filled with.
const FILL: u8 = 0xa5;

/// How many images a stop before the call of this number may leave.
fn images_at(log: &[Entry], stop: u64) -> u64 {
    let mut images = 1u64;
    for entry in log {
        images = match &entry.call {
            Call::Write(..) if entry.number < stop => images.saturating_mul(WAYS),
            Call::Sync(true) if entry.number < stop => 1,
            _ => images,
        };
    }
    images
}

/// Puts bytes at a place, as far as there are bytes.
fn put(bytes: &mut [u8], place: usize, from: &[u8]) {
    for (there, byte) in bytes.iter_mut().skip(place).zip(from) {
        *there = *byte;
    }
}

/// Fills so many bytes from a place on, as far as there are bytes.
fn fill(bytes: &mut [u8], place: usize, count: usize) {
    for byte in bytes.iter_mut().skip(place).take(count) {
        *byte = FILL;
    }
}

/// Leaves a range in the way of this number, over what stood there before it was written.
fn leave(bytes: &mut [u8], place: usize, before: &[u8], way: u64) {
    let half = before.len() / 2;
    match way {
        0 => {}
        1 => put(bytes, place, before),
        2 => fill(bytes, place, before.len()),
        _ => fill(
            bytes,
            place.saturating_add(half),
            before.len().saturating_sub(half),
        ),
    }
}

/// The image of this number that a stop may leave: in base 4 it tells in which way each range is left, its last digit that of the
/// last one. All that was written from the stop on is taken back.
fn image_at(
    alloc: Global,
    log: &[Entry],
    after: &[u8],
    stop: u64,
    number: u64,
) -> Result<Vec<u8>, AllocError> {
    let mut bytes = after.to_vec(alloc)?;
    let mut digits = number;
    let mut is_pending = true;
    for entry in log.iter().rev() {
        match &entry.call {
            Call::Write(place, before) if stop <= entry.number => put(&mut bytes, *place, before),
            Call::Write(place, before) if is_pending => {
                leave(&mut bytes, *place, before, digits % WAYS);
                digits /= WAYS;
            }
            Call::Sync(true) if entry.number < stop => is_pending = false,
            _ => {}
        }
    }
    Ok(bytes)
}

/// How the pools compare of so many images that a stop may leave.
fn standing_at(
    alloc: Global,
    log: &[Entry],
    ends: &Ends,
    stop: u64,
    images: u64,
) -> Result<Standing, AllocError> {
    let mut standing = Standing::none();
    for number in 0..images {
        let image = image_at(alloc, log, ends.after(), stop, number)?;
        standing = standing.or(ends.standing(alloc, &image)?);
    }
    Ok(standing)
}

/// Tells how the pools compare that a stop before each call of a line, and one behind the last, may leave.
pub(crate) fn left_each_way(
    alloc: Global,
    whole: &Answer,
    ends: &Ends,
) -> Result<String, AllocError> {
    let mut counts = Counts::new(alloc);
    let mut most = 0u64;
    for stop in 0..=whole.here.calls {
        let images = images_at(whole.here.log(), stop);
        let mut label = String::new(alloc);
        standing_at(alloc, whole.here.log(), ends, stop, images)?.add_to(&mut label)?;
        counts.add(label)?;
        most = most.max(images);
    }
    let what = format!(in alloc; "stops, of at most {most} images")?;
    counts.told(alloc, what.as_str())
}
