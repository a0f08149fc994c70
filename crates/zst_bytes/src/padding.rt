ghost use Rattle.std.specs.Prelude.{◌≡◌, ◌+◌, ◌*◌, ◌/◌, ◌^◌, ◌≤◌};

/// Rounds a length in bytes up to a multiple of 8.
pub fn pad8(n: u64) -> u64
    requires { n ≤ 2 ^ 63 }
    ensures { result ≡ (n + 7) / 8 * 8 }
{
    n.next_multiple_of(8)
}
