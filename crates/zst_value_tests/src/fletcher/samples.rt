// Texts of bytes, and their sums by the definition.
ghost use Rattle.std.specs.Prelude.{◌≡◌, ◌%◌, length};

use crate::number_after;
use std::process::Abort;
use zst_fletcher::{sum_of, sum_word_by_word};

/// More than 300,000 bytes, with room for each start below 64.
const SIZE: usize = 300_096;

/// Checks the sums of both forms.
pub(super) fn check(rt: &impl Abort, bytes: &[u8], want: [u64; 4])
    requires { length bytes.now % 4 ≡ 0 }
{
    assert_eq!(rt;
        sum_of(bytes).parts(),
        want,
        "in lanes, of {} bytes",
        bytes.len()
    );
    assert_eq!(rt;
        sum_word_by_word(bytes).parts(),
        want,
        "word by word, of {} bytes",
        bytes.len()
    );
}

/// Bytes without a pattern.
pub(super) fn sample() -> [u8; SIZE] {
    let mut text = [0; SIZE];
    let mut number = 1;
    for byte in &mut text {
        number = number_after(number);
        *byte = (number >> 24) as u8;
    }
    text
}

/// Each word times the weights of its place, which is 1 for the last word.
pub(super) fn parts_by_weights(bytes: &[u8]) -> [u64; 4] {
    let (mut a, mut b, mut c, mut d) = (0u64, 0u64, 0u64, 0u64);
    let count = bytes.len() / 4;
    for i in 0..count {
        let word = u32::from_le_bytes([
            bytes[4 * i],
            bytes[4 * i + 1],
            bytes[4 * i + 2],
            bytes[4 * i + 3],
        ]) as u64;
        let place = (count - i) as u64;
        let triangle = place.wrapping_mul(place.wrapping_add(1)) / 2;
        let pyramid = place
            .wrapping_mul(place.wrapping_add(1))
            .wrapping_mul(place.wrapping_add(2))
            / 6;
        a = a.wrapping_add(word);
        b = b.wrapping_add(word.wrapping_mul(place));
        c = c.wrapping_add(word.wrapping_mul(triangle));
        d = d.wrapping_add(word.wrapping_mul(pyramid));
    }
    [a, b, c, d]
}
