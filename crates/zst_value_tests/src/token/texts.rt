// Tokens beside their texts.
use std::process::Abort;
use zst_token::Token;

pub(super) const AT_THE_START: &str =
    "zst1-0000000000000000010000000100000000000000000000000000000000000000000000000000000000000000000000000000000000000000-0000000000000017";

fn same(one: &Token, other: &Token) -> bool {
    one.large == other.large
        && one.to == other.to
        && one.from == other.from
        && one.point == other.point
        && one.redact.as_slice() == other.redact.as_slice()
        && one.from_redact.as_slice() == other.from_redact.as_slice()
}

/// The token has this text, and this text that token.
pub(super) fn both_ways(rt: &impl Abort, token: &Token, text: &str) {
    assert!(rt; token.print().as_str() == text, "{text}");
    assert!(rt;
        Token::parse(text).is_ok_and(|read| same(&read, token)),
        "{text}"
    );
}
