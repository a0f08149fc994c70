ghost use Rattle.std.specs.Prelude.{◌≡◌, ◌<◌, ◌≤◌, ◌^◌, [], ◌∷◌, ℕ, length, slice_index, IsTrue, IfSome};
ghost use Rattle.std.specs.Fmt.{decimal};

/// Whether a text begins with no sign, and with no zero in front of other digits.
fn is_bare(text: &[u8]) -> bool
    ensures unsigned { IsTrue result → 48 ≤ slice_index text.now 0 }
    ensures shortest { IsTrue result → slice_index text.now 0 ≡ 48 → length text.now ≡ 1 }
    ensures zero { text.now ≡ 48 ∷ [] → IsTrue result }
    ensures above { 48 < slice_index text.now 0 → IsTrue result }
{
    match text {
        [] => false,
        [b'0'] => true,
        [first, ..] => *first > b'0',
    }
}

/// The number that a text writes in decimal: `0`, or digits with no zero in front, of a number
/// that fits 64 bits. Every other text is none, as one with a sign, a space or a zero in front.
pub fn decimal(text: &str) -> Option<u64>
    // What was read is how the number is written.
    ensures found { IfSome result (λ n. text.now ≡ decimal n) }
    // Each number is read from the text that is written of it.
    ensures exact { (n : ℕ) → n < 2 ^ 64 → text.now ≡ decimal n → result ≡ Some n }
{
    if !is_bare(text.as_bytes()) {
        return None;
    }
    text.parse::<u64>().ok()
}
