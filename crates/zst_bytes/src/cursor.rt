ghost use Rattle.std.specs.Prelude.{◌≡◌, ◌^◌, ◌<◌, ◌↔◌, ℕ, List, [], ◌++◌, length, IsTrue, IfSome, IsSomeAnd, All};
ghost use Rattle.std.specs.Option.{option_copied};
ghost use Rattle.zst_bytes.specs.Words.{word, text_bytes};

use crate::words::padding;
use std::marker::Model;

/// A text of bytes that is read from its front. A clause sees the bytes that are left.
#[derive(Drop)]
pub struct Cursor<'a> {
    rest: &'a [u8],
}

impl<'a> Model for Cursor<'a> {
    ghost Value = { List ℕ };

    ghost view = { λ cursor. cursor.rest.now };
}

// The number in the first 8 bytes, and the bytes behind it.
fn split_word(bytes: &[u8]) -> Option<(u64, &[u8])>
    ensures found { IfSome result (λ parts. bytes.now ≡ word parts.0 ++ parts.1.now) }
    ensures exact { (n : ℕ) (rest : List ℕ) → n < 2 ^ 64 → bytes.now ≡ word n ++ rest → IsSomeAnd result (λ parts. (parts.0 ≡ n) × (parts.1.now ≡ rest)) }
{
    let (front, rest) = bytes.split_first_chunk::<8>()?;
    Some((u64::from_le_bytes(*front), rest))
}

// Whether each byte is zero.
fn is_zeros(bytes: &[u8]) -> bool
    ensures { IsTrue result ↔ All (λ byte. byte ≡ 0) bytes.now }
{
    bytes.iter().all(|byte| *byte == 0)
}

impl<'a> Cursor<'a> {
    /// A cursor at the front of these bytes.
    pub fn new(bytes: &'a [u8]) -> Cursor<'a>
        ensures { result ≡ bytes.now }
    {
        Cursor { rest: bytes }
    }

    /// The bytes that are left.
    pub fn rest(&self) -> &'a [u8]
        ensures { result.now ≡ self.now }
    {
        self.rest
    }

    /// Whether no byte is left.
    pub fn is_empty(&self) -> bool
        ensures { IsTrue result ↔ (self.now ≡ []) }
    {
        self.rest.is_empty()
    }

    /// The number in the next 8 bytes, the lowest first, or none where fewer are left.
    pub fn word(&mut self) -> Option<u64>
        ensures found { IfSome result (λ n. self.old ≡ word n ++ self.new) }
        ensures small { IfSome result (λ n. n < 2 ^ 64) }
        ensures exact { (n : ℕ) (rest : List ℕ) → n < 2 ^ 64 → self.old ≡ word n ++ rest → (result ≡ Some n) × (self.new ≡ rest) }
        ensures none { result ≡ None → self.new ≡ self.old }
    {
        let (number, rest) = split_word(self.rest)?;
        self.rest = rest;
        Some(number)
    }

    /// The next `count` bytes, or none where fewer are left.
    pub fn bytes(&mut self, count: usize) -> Option<&'a [u8]>
        ensures found { IfSome result (λ bytes. self.old ≡ bytes.now ++ self.new) }
        ensures size { IfSome result (λ bytes. length bytes.now ≡ count) }
        ensures exact { (bytes rest : List ℕ) → length bytes ≡ count → self.old ≡ bytes ++ rest → (option_copied result ≡ Some bytes) × (self.new ≡ rest) }
        ensures none { result ≡ None → self.new ≡ self.old }
    {
        let (bytes, rest) = self.rest.split_at_checked(count)?;
        self.rest = rest;
        Some(bytes)
    }

    /// The next text: its length as a word, its bytes, and zeros up to a multiple of 8. None where
    /// its length goes past the bytes that are left, or its padding isn't zero.
    pub fn text(&mut self) -> Option<&'a [u8]>
        ensures found { IfSome result (λ text. self.old ≡ text_bytes text.now ++ self.new) }
        ensures exact { (text rest : List ℕ) → length text < 2 ^ 63 → self.old ≡ text_bytes text ++ rest → (option_copied result ≡ Some text) × (self.new ≡ rest) }
        ensures none { result ≡ None → self.new ≡ self.old }
    {
        let mut after = Cursor::new(self.rest);
        let text = after.read_text()?;
        self.rest = after.rest;
        Some(text)
    }

    // The next text. Where there is none, it may have passed some bytes.
    fn read_text(&mut self) -> Option<&'a [u8]>
        ensures found { IfSome result (λ text. self.old ≡ text_bytes text.now ++ self.new) }
        ensures exact { (text rest : List ℕ) → length text < 2 ^ 63 → self.old ≡ text_bytes text ++ rest → (option_copied result ≡ Some text) × (self.new ≡ rest) }
    {
        let len = self.word()? as usize;
        let text = self.bytes(len)?;
        let padding = self.bytes(padding(len))?;
        if is_zeros(padding) { Some(text) } else { None }
    }
}
