// The record of a disk's calls, by which its past is told.
ghost use Rattle.std.specs.Prelude.{◌≡◌, ◌⊎◌, ℕ, ◌+◌, ◌<◌, ◌≤◌, [], length, slice_index, IfOk, OnOk};
ghost use Rattle.zst_outside.specs.CallLog.{IsImage, IsFilled, pending, pending_after, undone, bytes_before, entries_before};

use crate::places::overwrite;
use std::alloc::{AllocError, Global};

/// What was asked of a disk.
#[derive(Drop)]
pub enum Call {
    /// A read at this place of so many bytes.
    Read(usize, usize),
    /// A write at this place, done or not, over these bytes.
    Write(usize, Vec<u8>),
    /// A sync, and whether it was done.
    Sync(bool),
}

/// A call, with its number.
#[derive(Drop)]
pub struct Entry {
    pub number: u64,
    pub call: Call,
}

/// How many entries stand before the call of this number.
pub fn count_before(log: &[Entry], number: u64) -> usize
    ensures count { result ≡ entries_before number log.now }
    ensures bound { result ≤ length log.now }
{
    log.iter().take_while(|entry| entry.number < number).count()
}

/// Takes the calls back, the last one first.
pub fn undo_all(log: &[Entry], bytes: &mut Vec<u8>)
    ensures { bytes.new.items ≡ bytes_before log.now bytes.old.items }
{
    let mut left = log.len();
    while left > 0 {
        left -= 1;
        undo(&log[left].call, bytes);
    }
}

// Puts back what a write wrote over. It stands inside the disk, as it did then.
fn undo(call: &Call, bytes: &mut Vec<u8>)
    ensures { bytes.new.items ≡ undone call.now bytes.old.items }
{
    match call {
        Call::Write(place, before) => {
            let fits = *place <= bytes.len() && before.len() <= bytes.len() - *place;
            if fits {
                overwrite(bytes, *place, before);
            }
        }
        _ => {}
    }
}

/// The ranges that were written after the last sync that was done.
pub fn pending_ranges(alloc: Global, log: &[Entry]) -> Result<Vec<(usize, usize)>, AllocError>
    ensures { IfOk result (λ v. v.items ≡ pending [] log.now) }
{
    let mut ranges = Vec::new(alloc);
    for entry in log {
        add_pending(&mut ranges, &entry.call)?;
    }
    Ok(ranges)
}

fn add_pending(ranges: &mut Vec<(usize, usize)>, call: &Call) -> Result<(), AllocError>
    ensures { OnOk result (ranges.new.items ≡ pending_after ranges.old.items call.now) }
{
    match call {
        Call::Read(_, _) => {}
        Call::Write(place, before) => ranges.push((*place, before.len()))?,
        Call::Sync(true) => ranges.clear(),
        Call::Sync(false) => {}
    }
    Ok(())
}

/// Fills the ranges.
pub fn fill_all(ranges: &[(usize, usize)], bytes: &mut Vec<u8>, fill: u8)
    ensures others { IsImage ranges.now bytes.old.items bytes.new.items }
    ensures filled { IsFilled ranges.now fill bytes.new.items }
{
    for range in ranges {
        fill_range(range.0, range.1, bytes, fill);
    }
}

// Fills a range, as far as it stands inside the bytes.
fn fill_range(place: usize, count: usize, bytes: &mut Vec<u8>, fill: u8)
    ensures size { length bytes.new.items ≡ length bytes.old.items }
    ensures others { (k : ℕ) → (k < place) ⊎ (place + count ≤ k) → slice_index bytes.new.items k ≡ slice_index bytes.old.items k }
    ensures filled { (k : ℕ) → k < length bytes.old.items → place ≤ k → k < place + count → slice_index bytes.new.items k ≡ fill }
{
    let len = bytes.len();
    if place < len {
        let stop = count.min(len - place);
        for k in 0..stop {
            bytes[place + k] = fill;
        }
    }
}
