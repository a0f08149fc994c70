//! The weights of a place, counted from the end of a text, in the third and the fourth sum.
ghost use Rattle.std.specs.Prelude.{◌≡◌, ◌+◌, ◌*◌, ◌/◌, ◌%◌, ◌^◌, ◌<◌};

/// The sum of the numbers up to a place, modulo 2^64: its weight in the third sum.
pub(crate) fn triangle(place: u64) -> u64
    requires { place < 2 ^ 62 }
    ensures { result ≡ place * (place + 1) / 2 % 2 ^ 64 }
{
    if place % 2 == 0 {
        (place / 2).wrapping_mul(place + 1)
    } else {
        place.wrapping_mul(place / 2 + 1)
    }
}

/// The sum of those sums up to a place, modulo 2^64: its weight in the fourth sum.
pub(crate) fn pyramid(place: u64) -> u64
    requires { place < 2 ^ 62 }
    ensures { result ≡ place * (place + 1) * (place + 2) / 6 % 2 ^ 64 }
{
    // Three times this factor is 1 modulo 2^64.
    triangle(place)
        .wrapping_mul(place + 2)
        .wrapping_mul(0xaaaa_aaaa_aaaa_aaab)
}
