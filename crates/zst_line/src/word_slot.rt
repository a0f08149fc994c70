ghost use Rattle.std.specs.Prelude.{◌≡◌, ◌↔◌, IsTrue, MatchOption, codes};
ghost use Rattle.std.specs.List.{AllPass};
ghost use Rattle.hex.specs.Hex.{is_hex_digit};
ghost use Rattle.zst_line.specs.Words.{IsOption, IsText, IsHex, IsNumber, IsSize, IsSpill};
ghost use Rattle.zst_line.specs.NameKinds.{FitsName};
ghost use Rattle.zst_line.specs.WordFaults.{Fits, IsReadAt, Misread};

use crate::line::LineFault;
use crate::name_kinds::{Names, kind_of_name, stop_of};
use zst_bytes::decimal;
use zst_model::limits::{LARGEST_BONUS, is_block_size, is_spill_size};
use zst_token::Token;

/// The word for no bonus, and for no spill block.
const NONE: &str = "none";

/// What may stand at a place of a line.
#[derive(Clone, Copy)]
pub enum WordSlot {
    /// The path of an image.
    Image,
    /// The token that a stream goes on from.
    Token,
    /// A name of one of these kinds.
    Name(Names),
    /// A number in decimal, both bounds included.
    Number { low: u64, high: u64 },
    /// The size of a block, in bytes.
    BlockSize,
    /// `none`, or the bytes of a bonus.
    Bonus,
    /// `none`, or the length of a spill block, `:` and its first bytes.
    Spill,
    /// At least one byte and at most so many, in hexadecimal.
    HexBytes { most: u64 },
    /// The word of an option, which was read as one.
    Given,
}

/// Whether a word begins as an option does.
fn is_option(word: &str) -> bool
    ensures { IsTrue result ↔ IsOption word.now }
{
    word.starts_with('-')
}

fn is_text(word: &str) -> bool
    ensures { IsTrue result ↔ IsText word.now }
{
    !word.is_empty() && !is_option(word)
}

fn is_digit(byte: u8) -> bool
    ensures { result ≡ is_hex_digit byte }
{
    byte.is_ascii_hexdigit()
}

fn are_digits(text: &[u8]) -> bool
    ensures { IsTrue result ↔ AllPass is_hex_digit text.now }
{
    text.iter().all(|byte| is_digit(*byte))
}

/// Whether a word says that there is no bonus, or no spill block.
pub fn is_none(word: &str) -> bool
    ensures { IsTrue result ↔ (word.now ≡ codes "none") }
{
    word == NONE
}

/// Whether a word is bytes in hexadecimal, so many at least and at most.
fn is_hex(word: &str, least: u64, most: u64) -> bool
    ensures { IsTrue result ↔ IsHex least most word.now }
{
    let digits = word.as_bytes();
    let count = digits.len() as u64;
    count % 2 == 0 && least <= count / 2 && count / 2 <= most && are_digits(digits)
}

/// Whether a word is a number in decimal within these bounds, both included.
fn is_number(word: &str, low: u64, high: u64) -> bool
    ensures { IsTrue result ↔ IsNumber low high word.now }
{
    match decimal(word) {
        Some(number) => low <= number && number <= high,
        None => false,
    }
}

/// Whether a word is the size of a block.
fn is_size(word: &str) -> bool
    ensures { IsTrue result ↔ IsSize word.now }
{
    match decimal(word) {
        Some(size) => is_block_size(size),
        None => false,
    }
}

/// Whether a word is a spill size, `:` and at most so many bytes.
fn is_spill(word: &str) -> bool
    ensures { IsTrue result ↔ IsSpill word.now }
{
    match word.split_once(':') {
        Some((size, bytes)) => match decimal(size) {
            Some(size) => is_spill_size(size) && is_hex(bytes, 0, size),
            None => false,
        },
        None => false,
    }
}

/// Whether a word is read as a name that may stand there. Whether it is one isn't asked.
fn fits_name(names: Names, word: &str) -> bool
    ensures { IsTrue result ↔ FitsName names word.now }
{
    !is_option(word) && names.takes(kind_of_name(word))
}

/// Whether a word may stand at a place. Whether a name or a token is one isn't asked.
pub fn fits(slot: WordSlot, word: &str) -> bool
    ensures { IsTrue result ↔ Fits slot word.now }
{
    match slot {
        WordSlot::Image | WordSlot::Token => is_text(word),
        WordSlot::Name(names) => fits_name(names, word),
        WordSlot::Number { low, high } => is_number(word, low, high),
        WordSlot::BlockSize => is_size(word),
        WordSlot::Bonus => is_none(word) || is_hex(word, 1, u64::from(LARGEST_BONUS)),
        WordSlot::Spill => is_none(word) || is_spill(word),
        WordSlot::HexBytes { most } => is_hex(word, 1, most),
        WordSlot::Given => true,
    }
}

/// The fault of a word that isn't the name or the token that has to stand at a place, or None where it is or neither has to.
pub fn misread(slot: WordSlot, word: &str) -> Option<LineFault>
    ensures { MatchOption result (IsReadAt slot word.now) (λ fault. Misread slot word.now fault) }
{
    match slot {
        WordSlot::Name(_) => match stop_of(word) {
            Some(place) => Some(LineFault::BadName { place }),
            None => None,
        },
        WordSlot::Token => match Token::parse(word) {
            Ok(_) => None,
            Err(fault) => Some(LineFault::BadToken { place: fault.place }),
        },
        _ => None,
    }
}
