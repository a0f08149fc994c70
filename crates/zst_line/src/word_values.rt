//! What single words say that fit their places.
ghost use Rattle.std.specs.Prelude.{◌≡◌, ◌≢◌, ◌⊎◌, ◌-◌, ◌^◌, ◌≤◌, ◌<◌, ℕ, length, Ok, IfOk, codes, decimal};
ghost use Rattle.hex.specs.Hex.{decode_of};
ghost use Rattle.zst_names.specs.Names.{IsDataset, IsSnapshot, IsBookmark};
ghost use Rattle.zst_model.specs.states.State.{IsBonus, largest_bonus};
ghost use Rattle.zst_line.specs.Grammar.{dataset, snapshot, bookmark};
ghost use Rattle.zst_line.specs.WordFaults.{Fits, Takes};
ghost use Rattle.zst_line.specs.Line.{name_of, IsBonusOf, SpellsBlock, SpellsName, SpellsSpill, SpellsToken};
ghost use Rattle.zst_line.specs.NameKinds.{IsNamed};
ghost use Rattle.zst_line.specs.Words as words;
ghost use Rattle.zst_line.specs.declared.word_slot.WordSlot.TheVariants as slots;

use crate::name_kinds::{NameKind, kind_of_name};
use crate::text::Text;
use crate::word_slot::is_none;
use std::alloc::{AllocError, Global};
use zst_bytes::decimal;
use zst_model::{Bytes, Name};
use zst_names::{BookName, DatasetName, SnapName};
use zst_token::Token;

/// A word as it is.
pub fn text(alloc: Global, word: &str) -> Result<Text, AllocError>
    ensures { IfOk result (λ text. text ≡ word.now) }
{
    Ok(Text::new(String::from_str(alloc, word)?))
}

/// The number that a word is known to be.
pub fn number(word: &str) -> u64
    requires { words.IsNumber 0 (2 ^ 64 - 1) word.now }
    ensures { word.now ≡ decimal result }
{
    decimal(word).unwrap()
}

/// The dataset that a word is known to name.
pub fn dataset(word: &str) -> DatasetName
    requires { Takes (slots.Name dataset) word.now }
    ensures { SpellsName IsDataset word.now result }
{
    DatasetName::parse(word).unwrap()
}

/// The snapshot that a word is known to name.
pub fn snapshot(word: &str) -> SnapName
    requires { Takes (slots.Name snapshot) word.now }
    ensures { SpellsName IsSnapshot word.now result }
{
    SnapName::parse(word).unwrap()
}

/// The bookmark that a word is known to name.
pub fn bookmark(word: &str) -> BookName
    requires { Takes (slots.Name bookmark) word.now }
    ensures { SpellsName IsBookmark word.now result }
{
    BookName::parse(word).unwrap()
}

/// The token that a word is known to be.
pub fn token(word: &str) -> Token
    requires { Takes slots.Token word.now }
    ensures { SpellsToken word.now result }
{
    Token::parse(word).unwrap()
}

/// The name that a word is known to be.
pub fn name(word: &str) -> Name
    requires { IsNamed word.now }
    ensures { result ≡ name_of word.now }
{
    match kind_of_name(word) {
        NameKind::Dataset => Name::Dataset(DatasetName::parse(word).unwrap()),
        NameKind::Snapshot => Name::Snapshot(SnapName::parse(word).unwrap()),
        NameKind::Bookmark => Name::Bookmark(BookName::parse(word).unwrap()),
    }
}

/// The bytes that a word is known to be in hexadecimal.
pub fn bytes(alloc: Global, word: &str) -> Result<Bytes, AllocError>
    ensures { IfOk result (λ bytes. decode_of word.now ≡ Ok bytes) }
{
    // Only memory can fail, since the word is known to be hexadecimal.
    match hex::decode(alloc, word) {
        Ok(bytes) => Ok(Bytes::new(bytes)),
        Err(_) => Err(AllocError),
    }
}

/// The bonus that a word is known to be.
pub fn bonus(alloc: Global, word: &str) -> Result<Bytes, AllocError>
    requires { Fits slots.Bonus word.now }
    ensures same { IfOk result (λ bonus. IsBonusOf bonus word.now) }
    ensures most { IfOk result IsBonus }
{
    if is_none(word) {
        return Ok(Bytes::new(Vec::new(alloc)));
    }
    bytes(alloc, word)
}

/// The spill block that a word is known to be, in its whole length.
fn block(alloc: Global, word: &str) -> Result<Bytes, AllocError>
    requires { words.IsSpill word.now }
    ensures { IfOk result (SpellsBlock word.now) }
{
    let (size, digits) = word.split_once(':').unwrap();
    let mut block = bytes(alloc, digits)?.into_vec();
    block.resize(number(size) as usize, 0)?;
    Ok(Bytes::new(block))
}

/// The spill block that a word is known to be, or None.
pub fn spill(alloc: Global, word: &str) -> Result<Option<Bytes>, AllocError>
    requires { Fits slots.Spill word.now }
    ensures { IfOk result (SpellsSpill word.now) }
{
    if is_none(word) {
        return Ok(None);
    }
    Ok(Some(block(alloc, word)?))
}
