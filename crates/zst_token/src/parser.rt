//! A text is read as a token from its front to its end.
ghost use Rattle.std.specs.Prelude.{◌≡◌, ◌+◌, ◌^◌, ◌<◌, ◌≤◌, nat_eq, length, IfOk, Ok};
ghost use Rattle.std.specs.List.{common_prefix_len};
ghost use Rattle.zst_token.specs.Parser.{is_digit, digits_in_front, token_behind_dash, verdict_on, token_of_digits, token_behind_front, stops, token_of};
ghost use Rattle.zst_token.specs.Spelling.{IsToken, token_text};
ghost use Rattle.zst_token.specs.declared.token.Token as tokens;

use crate::fault::TokenFault;
use crate::fields::token_of_digits;
use crate::token::Token;

/// What a token begins with.
const FRONT: &[u8; 5] = b"zst1-";

/// The digits of a check.
const CHECK: usize = 16;

/// E16 at a place.
fn stops(place: usize) -> Result<Token, TokenFault>
    ensures { result ≡ stops place }
{
    Err(TokenFault {
        place: place as u64,
    })
}

/// How many bytes a text begins with as another does.
fn common_front(text: &[u8], other: &[u8]) -> usize
    ensures same { result ≡ common_prefix_len nat_eq text.now other.now }
    ensures inside { result ≤ length text.now }
{
    let mut place = 0;
    while place < text.len() && place < other.len() && text[place] == other[place] {
        place += 1;
    }
    place
}

/// `0` to `9` and `a` to `f`.
#[tactic(auto, unfolding(crate::specs::Parser::is_digit))]
fn is_digit(byte: u8) -> bool
    ensures { result ≡ is_digit byte }
{
    matches!(byte, b'0'..=b'9' | b'a'..=b'f')
}

/// The place of the first character that is no digit, or the text's length.
fn digits_in_front(text: &[u8]) -> usize
    ensures digits { result ≡ digits_in_front text.now }
    ensures inside { result ≤ length text.now }
{
    let mut place = 0;
    while place < text.len() && is_digit(text[place]) {
        place += 1;
    }
    place
}

/// A text with digits where they must stand: E16 at its payload, at its check, or behind that.
fn verdict_on(payload: &[u8], check: &[u8], behind: &[u8]) -> Result<Token, TokenFault>
    requires { length payload.now + 22 < 2 ^ 64 }
    ensures { result ≡ verdict_on payload.now check.now behind.now (token_of_digits payload.now) }
{
    let Some(token) = token_of_digits(payload) else {
        return stops(FRONT.len());
    };
    if token.check().as_str().as_bytes() != check {
        return stops(payload.len() + 6);
    }
    if !behind.is_empty() {
        return stops(payload.len() + 22);
    }
    Ok(token)
}

/// What follows the `-` behind the payload: sixteen digits.
#[tactic(auto, unfolding(crate::specs::Parser::token_behind_dash))]
fn token_behind_dash(payload: &[u8], rest: &[u8]) -> Result<Token, TokenFault>
    requires { length payload.now + length rest.now + 22 < 2 ^ 64 }
    ensures { result ≡ token_behind_dash payload.now rest.now }
{
    let count = digits_in_front(rest);
    if count < CHECK {
        return stops(payload.len() + 6 + count);
    }
    verdict_on(payload, &rest[..CHECK], &rest[CHECK..])
}

/// What follows `zst1-`: digits, at least one, and a `-`.
#[tactic(auto, unfolding(crate::specs::Parser::token_behind_front))]
fn token_behind_front(rest: &[u8]) -> Result<Token, TokenFault>
    ensures { result ≡ token_behind_front rest.now }
{
    let count = digits_in_front(rest);
    if count == 0 || count == rest.len() || rest[count] != b'-' {
        return stops(count + 5);
    }
    token_behind_dash(&rest[..count], &rest[count + 1..])
}

/// The token that a text is, or E16.
#[tactic(auto, unfolding(crate::specs::Parser::token_of))]
fn token_of(text: &[u8]) -> Result<Token, TokenFault>
    ensures { result ≡ token_of text.now }
{
    let same = common_front(text, FRONT);
    if same < FRONT.len() {
        return stops(same);
    }
    token_behind_front(&text[FRONT.len()..])
}

impl Token {
    /// The token that the text is, or E16. Takes no memory.
    pub fn parse(text: &str) -> Result<Token, TokenFault>
        // What is read is a token, and its text is this one.
        ensures printed { IfOk result (λ token. IsToken token × (token_text token ≡ text.now)) }
        // The text of each token is read as that token.
        ensures read { (token : tokens.Token) → IsToken token → token_text token ≡ text.now → result ≡ Ok token }
        // Which token it is, or at which place it is none.
        ensures exact { result ≡ token_of text.now }
    {
        token_of(text.as_bytes())
    }
}
