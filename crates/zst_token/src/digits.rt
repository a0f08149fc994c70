//! Numbers in hexadecimal digits, the lowest byte first, and the check of numbers.
ghost use Rattle.std.specs.Prelude.{◌≡◌, ◌+◌, ◌*◌, ◌≤◌, ◌++◌, length, flat_map};
ghost use Rattle.arrayvec.specs.ArrayString.{array_string_len};
ghost use Rattle.hex.specs.Hex.{encode_lower};
ghost use Rattle.zst_bytes.specs.Words.{word};
ghost use Rattle.zst_fletcher.specs.WeightSum.{weight_sum};
ghost use Rattle.zst_model.specs.refusals.Texts.{guid_text};
ghost use Rattle.zst_token.specs.Parser.{number_of};

use arrayvec::ArrayString;
use hex::FromHex;
use zst_fletcher::Sum;
use zst_model::guid_text;

/// The second of the four sums of the bytes of numbers, in sixteen digits.
pub(crate) fn checksum_of(numbers: &[u64]) -> ArrayString<16>
    ensures check { result.bytes ≡ guid_text (weight_sum (flat_map word numbers.now)).b }
    ensures sixteen { array_string_len result ≡ 16 }
{
    let mut sum = Sum::zero();
    for number in numbers {
        sum.add(number.to_le_bytes().as_slice());
    }
    guid_text(sum.b)
}

/// A number in sixteen digits, its lowest byte first.
fn digits_of(number: u64) -> ArrayString<16>
    ensures digits { result.bytes ≡ encode_lower (word number) }
    ensures sixteen { array_string_len result ≡ 16 }
{
    guid_text(number.swap_bytes())
}

/// Appends numbers, each in sixteen digits.
pub(crate) fn push_digits(text: &mut ArrayString<646>, numbers: &[u64])
    requires { array_string_len text.old + 16 * length numbers.now ≤ 646 }
    ensures bytes { text.new.bytes ≡ text.old.bytes ++ encode_lower (flat_map word numbers.now) }
    ensures len { array_string_len text.new ≡ array_string_len text.old + 16 * length numbers.now }
{
    for number in numbers {
        text.push_str(digits_of(*number).as_str());
    }
}

/// The number of sixteen digits, its lowest byte first.
#[tactic(auto, unfolding(crate::specs::Parser::number_of))]
pub(crate) fn number_of(digits: &[u8]) -> u64
    requires { length digits.now ≡ 16 }
    ensures { result ≡ number_of digits.now }
{
    match <[u8; 8] as FromHex>::from_hex(digits) {
        Ok(bytes) => u64::from_le_bytes(bytes),
        Err(_) => 0,
    }
}
