//! Texts of refusals, built without memory.
ghost use Rattle.std.specs.Prelude.{◌≡◌, ◌+◌, ◌≤◌, ◌++◌, [], ◌∷◌, length, codes, decimal};
ghost use Rattle.std.specs.List.{concat};
ghost use Rattle.arrayvec.specs.ArrayString.{array_string_len};
ghost use Rattle.zst_model.specs.refusals.Texts.{guid_text, sums_text};

use arrayvec::ArrayString;
use hex::encode_to_slice;
use itoa::Buffer;

/// A text of a refusal. The longest names two snapshots, of 255 bytes each.
pub type Text = ArrayString<540>;

/// A guid in a text: 16 lower-case hexadecimal digits, the most significant first.
#[tactic(auto, unfolding(crate::specs::refusals::Texts::guid_text))]
pub fn guid_text(guid: u64) -> ArrayString<16>
    ensures digits { result.bytes ≡ guid_text guid }
    ensures sixteen { array_string_len result ≡ 16 }
{
    let mut digits = [0; 16];
    encode_to_slice(guid.to_be_bytes().as_slice(), &mut digits).unwrap();
    ArrayString::from_byte_string(&digits).unwrap()
}

pub(crate) fn push_number(text: &mut Text, number: u64)
    requires room { array_string_len text.old + 20 ≤ 540 }
    ensures bytes { text.new.bytes ≡ text.old.bytes ++ decimal number }
    ensures short { array_string_len text.new ≤ array_string_len text.old + 20 }
{
    text.push_str(Buffer::new().format(number));
}

pub(crate) fn push_guid(text: &mut Text, guid: u64)
    requires room { array_string_len text.old + 16 ≤ 540 }
    ensures bytes { text.new.bytes ≡ text.old.bytes ++ guid_text guid }
    ensures short { array_string_len text.new ≤ array_string_len text.old + 16 }
{
    text.push_str(guid_text(guid).as_str());
}

fn push_sums(text: &mut Text, sums: &[u64; 4])
    requires room { array_string_len text.old + 83 ≤ 540 }
    ensures bytes { text.new.bytes ≡ text.old.bytes ++ sums_text sums.now }
    ensures short { array_string_len text.new ≤ array_string_len text.old + 83 }
{
    push_number(text, sums[0]);
    text.push_str(" ");
    push_number(text, sums[1]);
    text.push_str(" ");
    push_number(text, sums[2]);
    text.push_str(" ");
    push_number(text, sums[3]);
}

/// A word alone.
pub(crate) fn plain(word: &str) -> Text
    requires { length word.now ≤ 540 }
    ensures { result.bytes ≡ word.now }
{
    let mut text = Text::new();
    text.push_str(word);
    text
}

/// A word, and another behind it.
pub(crate) fn joined(word: &str, rest: &str) -> Text
    requires { length word.now + length rest.now ≤ 540 }
    ensures { result.bytes ≡ concat (word.now ∷ rest.now ∷ []) }
{
    let mut text = plain(word);
    text.push_str(rest);
    text
}

/// A word, another behind it, and after a colon a third.
pub(crate) fn explained(word: &str, what: &str, reason: &str) -> Text
    requires { length word.now + length what.now + length reason.now + 2 ≤ 540 }
    ensures { result.bytes ≡ concat (word.now ∷ what.now ∷ codes ": " ∷ reason.now ∷ []) }
{
    let mut text = joined(word, what);
    text.push_str(": ");
    text.push_str(reason);
    text
}

/// A word, and a number behind it.
pub(crate) fn numbered(word: &str, number: u64) -> Text
    requires { length word.now ≤ 100 }
    ensures bytes { result.bytes ≡ concat (word.now ∷ decimal number ∷ []) }
    ensures short { array_string_len result ≤ length word.now + 20 }
{
    let mut text = plain(word);
    push_number(&mut text, number);
    text
}

/// A word and a number, and after a colon why.
pub(crate) fn reasoned(word: &str, number: u64, reason: &str) -> Text
    requires word { length word.now ≤ 100 }
    requires reason { length reason.now ≤ 100 }
    ensures { result.bytes ≡ concat (word.now ∷ decimal number ∷ codes ": " ∷ reason.now ∷ []) }
{
    let mut text = numbered(word, number);
    text.push_str(": ");
    text.push_str(reason);
    text
}

/// A word and a number, twice.
pub(crate) fn paired(word: &str, number: u64, second: &str, other: u64) -> Text
    requires word { length word.now ≤ 100 }
    requires second { length second.now ≤ 100 }
    ensures { result.bytes ≡ concat (word.now ∷ decimal number ∷ second.now ∷ decimal other ∷ []) }
{
    let mut text = numbered(word, number);
    text.push_str(second);
    push_number(&mut text, other);
    text
}

/// A word, the quantity that has a limit, and the limit.
pub(crate) fn limited(which: &str, number: u64) -> Text
    requires { length which.now ≤ 100 }
    ensures { result.bytes ≡ concat (codes "limit: " ∷ which.now
        ∷ codes " " ∷ decimal number ∷ []) }
{
    let mut text = joined("limit: ", which);
    text.push_str(" ");
    push_number(&mut text, number);
    text
}

/// A word and a number, then what a checksum stated and what was found.
pub(crate) fn summed(word: &str, number: u64, stated: &[u64; 4], found: &[u64; 4]) -> Text
    requires { length word.now ≤ 100 }
    ensures { result.bytes ≡ concat (word.now ∷ decimal number
        ∷ codes ": stated " ∷ sums_text stated.now ∷ codes ", found " ∷ sums_text found.now ∷ []) }
{
    let mut text = numbered(word, number);
    text.push_str(": stated ");
    push_sums(&mut text, stated);
    text.push_str(", found ");
    push_sums(&mut text, found);
    text
}

/// A word, and a guid behind it.
pub(crate) fn with_guid(word: &str, guid: u64) -> Text
    requires { length word.now ≤ 100 }
    ensures bytes { result.bytes ≡ concat (word.now ∷ guid_text guid ∷ []) }
    ensures short { array_string_len result ≤ length word.now + 16 }
{
    let mut text = plain(word);
    push_guid(&mut text, guid);
    text
}
