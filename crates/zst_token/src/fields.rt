//! The fields of a token, from the digits of its numbers.
ghost use Rattle.std.specs.Prelude.{◌≡◌, ◌*◌, ◌<◌, ◌≤◌, ◌↔◌, length, IsTrue};
ghost use Rattle.zst_model.specs.states.State.{number_bound};
ghost use Rattle.zst_token.specs.Parser.{token_of_numbers, numbers_in, token_of_digits};

use crate::digits::number_of;
use crate::token::{MOST_NUMBERS, Token};
use arrayvec::ArrayVec;
use zst_model::limits::NUMBER_BOUND;
use zst_model::{GuidSet, Point};

/// The digits of a number.
const DIGITS: usize = 16;

/// Whether a token may have these flags, this to guid and a point in this object.
#[tactic(auto, unfolding(zst_model::specs::states::State::number_bound))]
fn fits_token(flags: u64, to: u64, object: u64) -> bool
    ensures { IsTrue result ↔ ((flags ≤ 1) × (0 < to) × (object ≤ number_bound)) }
{
    flags <= 1 && to > 0 && object <= NUMBER_BOUND
}

/// The token of these numbers.
fn token_of_numbers(numbers: &[u64]) -> Option<Token>
    ensures { result ≡ token_of_numbers numbers.now }
{
    let [flags, to, from, object, offset, count, others, guids @ ..] = numbers else {
        return None;
    };
    if !fits_token(*flags, *to, *object) {
        return None;
    }
    let Some((first, second)) = guids.split_at_checked(*count as usize) else {
        return None;
    };
    if second.len() as u64 != *others {
        return None;
    }
    let Some(redact) = GuidSet::from_slice(first) else {
        return None;
    };
    let Some(from_redact) = GuidSet::from_slice(second) else {
        return None;
    };
    Some(Token {
        large: *flags == 1,
        to: *to,
        from: *from,
        point: Point {
            object: *object,
            offset: *offset,
        },
        redact,
        from_redact,
    })
}

/// So many numbers, of sixteen digits each.
fn numbers_in(count: usize, digits: &[u8]) -> ArrayVec<u64, MOST_NUMBERS>
    requires enough { 16 * count ≤ length digits.now }
    requires few { count ≤ MOST_NUMBERS }
    ensures { result.items ≡ numbers_in count digits.now }
{
    let mut numbers = ArrayVec::new();
    for place in 0..count {
        numbers.push(number_of(&digits[DIGITS * place..DIGITS * place + DIGITS]));
    }
    numbers
}

/// The token whose bytes these digits are.
#[tactic(auto, unfolding(crate::specs::Parser::token_of_digits))]
pub(crate) fn token_of_digits(digits: &[u8]) -> Option<Token>
    ensures { result ≡ token_of_digits digits.now }
{
    let count = digits.len() / DIGITS;
    if digits.len() % DIGITS != 0 || count > MOST_NUMBERS {
        return None;
    }
    token_of_numbers(numbers_in(count, digits).as_slice())
}
