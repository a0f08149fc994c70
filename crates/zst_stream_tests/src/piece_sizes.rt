//! Sizes of pieces that look random, and are the same in each run.
ghost use Rattle.std.specs.Prelude.{◌≤◌, ◌<◌};

/// How long a piece is that a number of 64 bits stands for: from 1 to 320 bytes, and no more than are left.
pub fn piece_size(number: u64, left: usize) -> usize
    ensures left { result ≤ left }
    ensures size { result ≤ 320 }
    ensures some { 0 < left → 0 < result }
{
    left.min(1 + ((number >> 40) % 320) as usize)
}
