//! Known sums, and the sums of both forms beside those by the weights.
mod samples;

use crate::fletcher::samples::{check, parts_by_weights, sample};
use crate::number_after;

#[test]
fn two_words_have_the_sums_three_to_six(rt: HostRuntime) {
    check(&rt, &[1, 0, 0, 0, 2, 0, 0, 0], [3, 4, 5, 6]);
}

#[test]
fn sums_wrap_at_64_bits(rt: HostRuntime) {
    let want = [
        140737488322560,
        2305913377420984320,
        8454798748347432960,
        14363506799347228672,
    ];
    check(&rt, &[0xff; 131072], want);
}

#[test]
fn both_forms_agree_at_each_length(rt: HostRuntime) {
    let text = sample();
    for words in 0..130 {
        let bytes = &text[..4 * words];
        check(&rt, bytes, parts_by_weights(bytes));
    }
}

#[test]
fn both_forms_agree_at_random_lengths_from_each_start(rt: HostRuntime) {
    let text = sample();
    let mut number = 7;
    for start in 0..64 {
        number = number_after(number);
        let words = (number >> 8) as usize % 75_001;
        let bytes = &text[start..start + 4 * words];
        check(&rt, bytes, parts_by_weights(bytes));
    }
}
