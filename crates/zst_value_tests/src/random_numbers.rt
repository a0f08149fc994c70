//! Numbers that look random, and are the same in each run.
ghost use Rattle.std.specs.Prelude.{◌≡◌, ◌+◌, ◌*◌, ◌%◌, ◌^◌};

/// The number behind another, by a linear congruence.
pub fn number_after(number: u32) -> u32
    ensures { result ≡ (number * 1664525 + 1013904223) % 2 ^ 32 }
{
    number.wrapping_mul(1_664_525).wrapping_add(1_013_904_223)
}
