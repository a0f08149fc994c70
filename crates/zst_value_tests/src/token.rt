mod texts;

use crate::token::texts::{AT_THE_START, both_ways};
use zst_model::{GuidSet, Point};
use zst_token::Token;

/// The guid of the first snapshot of a pool with the id 1.
const TO: u64 = 0x0000_0001_0000_0001;

const IN_THE_OBJECT: &str =
    "zst1-0000000000000000010000000100000000000000000000000100000000000000000000000000000000000000000000000000000000000000-000000000000001f";

const BEHIND_A_BLOCK: &str =
    "zst1-0000000000000000010000000100000000000000000000000100000000000000000200000000000000000000000000000000000000000000-0000000000000c1f";

fn token(object: u64, offset: u64) -> Token {
    Token {
        large: false,
        to: TO,
        from: 0,
        point: Point { object, offset },
        redact: GuidSet::empty(),
        from_redact: GuidSet::empty(),
    }
}

#[test]
fn points_of_a_cut_stream(rt: HostRuntime) {
    both_ways(&rt, &token(0, 0), AT_THE_START);
    both_ways(&rt, &token(1, 0), IN_THE_OBJECT);
    both_ways(&rt, &token(1, 512), BEHIND_A_BLOCK);
}

#[test]
fn each_set_in_its_place(rt: HostRuntime) {
    let mut both = token(1, 512);
    both.redact.insert_last(5);
    both.from_redact.insert_last(7);
    let text =
        "zst1-0000000000000000010000000100000000000000000000000100000000000000000200000000000001000000000000000100000000000000\
        05000000000000000700000000000000-000000000000145b";
    both_ways(&rt, &both, text);
}
