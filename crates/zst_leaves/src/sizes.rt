// How many bytes stand below a pointer, and how many levels have room for them.
ghost use Rattle.std.specs.Prelude.{◌≡◌, ◌↔◌, ◌*◌, ◌<◌, ◌≤◌, IsTrue, length};
ghost use Rattle.zst_leaves.specs.Leaves.{IsLeast, bytes_below, part, part_length};

use zst_tree::span_of;

/// A text in leaves has at most so many bytes: 3 levels have room for no more.
pub const MOST_BYTES: u64 = 17179869184;

// How many bytes have room in the leaves below a pointer at a level.
fn room_of(level: u8) -> u64
    requires { level ≤ 3 }
    ensures value { result ≡ bytes_below level }
    ensures small { result ≤ MOST_BYTES }
{
    8192 * span_of(level)
}

// The fewest levels that have room for so many bytes.
pub(crate) fn levels_for(count: u64) -> u8
    requires { count ≤ MOST_BYTES }
    ensures { IsLeast result count }
{
    match count {
        0..=8192 => 0,
        8193..=1048576 => 1,
        1048577..=134217728 => 2,
        _ => 3,
    }
}

// The bytes of a text that stand below one of the pointers of a node.
pub(crate) fn part_of(bytes: &[u8], level: u8, k: usize) -> &[u8]
    requires level { level ≤ 2 }
    requires k { k < 128 }
    ensures part { result.now ≡ part (bytes_below level) bytes.now k }
    ensures room { length result.now ≤ bytes_below level }
{
    let size = room_of(level) as usize;
    let start = bytes.len().min(k * size);
    let end = bytes.len().min(start + size);
    &bytes[start..end]
}

// How many bytes of a text stand below one of the pointers of a node.
pub(crate) fn length_of(count: u64, level: u8, k: usize) -> u64
    requires level { level ≤ 2 }
    requires k { k < 128 }
    ensures { result ≡ part_length (bytes_below level) count k }
{
    let size = room_of(level);
    count.saturating_sub(k as u64 * size).min(size)
}

// Whether a tree has as few levels as have room for so many bytes, and there are any.
pub(crate) fn is_least(levels: u8, count: u64) -> bool
    ensures { IsTrue result ↔ ((0 < count) × IsLeast levels count) }
{
    match count {
        1..=MOST_BYTES => levels == levels_for(count),
        _ => false,
    }
}
