//! The fields of the rows of a directory, read from the bytes in front.
ghost use Rattle.std.specs.Prelude.{◌≡◌, ◌<◌, ◌≤◌, ◌^◌, ◌++◌, ◌↔◌, ℕ, Bool, List, Some, IfSome, Contains, IsTrue, length};
ghost use Rattle.std.specs.Option.{option_copied};
ghost use Rattle.zst_bytes.specs.Words.{word, text_bytes, words_bytes};
ghost use Rattle.zst_model.specs.fields.Guids.{IsGuidSet};
ghost use Rattle.zst_model.specs.pools.Pool.{IsGuid, IsKind, IsStatedName};
ghost use Rattle.zst_names.specs.Names.{IsDataset, IsSnapshot, IsBookmark, IsComponent, dataset_of, component_of};
ghost use Rattle.zst_dir.specs.RowReads.{Reads, IsPlain, IsNameOf};
ghost use Rattle.zst_dir.specs.Spelling.{flag, name_bytes};

use std::str;
use zst_bytes::Cursor;
use zst_model::{GuidSet, NameText};
use zst_names::{BookName, DatasetName, SnapName, check_component};

/// A number of 32 bits.
pub(crate) fn read_u32(cursor: &mut Cursor<'_>) -> Option<u32>
    ensures { Reads word (λ n. n < 2 ^ 32) cursor.old cursor.new result }
{
    u32::try_from(cursor.word()?).ok()
}

/// The features of a stream, at most 30 bits.
pub(crate) fn read_features(cursor: &mut Cursor<'_>) -> Option<u32>
    ensures { Reads word (λ features. features < 2 ^ 30) cursor.old cursor.new result }
{
    let features = read_u32(cursor)?;
    if features >= 1 << 30 {
        return None;
    }
    Some(features)
}

/// A guid, which isn't 0.
pub(crate) fn read_guid(cursor: &mut Cursor<'_>) -> Option<u64>
    ensures { Reads word IsGuid cursor.old cursor.new result }
{
    match cursor.word()? {
        0 => None,
        guid => Some(guid),
    }
}

/// The kind of a dataset.
pub(crate) fn read_kind(cursor: &mut Cursor<'_>) -> Option<u32>
    ensures { Reads word IsKind cursor.old cursor.new result }
{
    match cursor.word()? {
        2 => Some(2),
        3 => Some(3),
        _ => None,
    }
}

/// A yes or no.
pub(crate) fn read_flag(cursor: &mut Cursor<'_>) -> Option<bool>
    ensures exact { (yes : Bool) (rest : List ℕ) → cursor.old ≡ word (flag yes) ++ rest → (result ≡ Some yes) × (cursor.new ≡ rest) }
{
    match cursor.word()? {
        0 => Some(false),
        1 => Some(true),
        _ => None,
    }
}

/// A text of ASCII, or of UTF-8.
fn read_str<'a>(cursor: &mut Cursor<'a>) -> Option<&'a str>
    ensures exact { (text rest : List ℕ) → IsPlain text → cursor.old ≡ text_bytes text ++ rest → (option_copied result ≡ Some text) × (cursor.new ≡ rest) }
{
    str::from_utf8(cursor.text()?).ok()
}

/// The name of a dataset.
pub(crate) fn read_dataset_name(cursor: &mut Cursor<'_>) -> Option<DatasetName>
    ensures { Reads text_bytes IsDataset cursor.old cursor.new result }
{
    DatasetName::parse(read_str(cursor)?).ok()
}

/// The name of a bookmark.
pub(crate) fn read_book_name(cursor: &mut Cursor<'_>) -> Option<BookName>
    ensures { Reads text_bytes IsBookmark cursor.old cursor.new result }
{
    BookName::parse(read_str(cursor)?).ok()
}

/// The name of a snapshot, or an empty text where there is none.
pub(crate) fn read_snap_name(cursor: &mut Cursor<'_>) -> Option<Option<SnapName>>
    ensures { Reads name_bytes (λ name. IfSome name IsSnapshot) cursor.old cursor.new result }
{
    let text = read_str(cursor)?;
    if text.is_empty() {
        return Some(None);
    }
    Some(Some(SnapName::parse(text).ok()?))
}

/// The name of a snapshot of this dataset, of which only the component stands there.
pub(crate) fn read_component(cursor: &mut Cursor<'_>, dataset: &DatasetName) -> Option<SnapName>
    ensures { Reads (λ name. text_bytes (component_of 64 name)) (IsNameOf dataset.now) cursor.old cursor.new result }
{
    let component = read_str(cursor)?;
    check_component(component.as_bytes()).ok()?;
    Some(SnapName::of(dataset, component))
}

fn has_zero(bytes: &[u8]) -> bool
    ensures { IsTrue result ↔ Contains bytes.now 0 }
{
    bytes.contains(&0)
}

/// A name of at most 255 bytes, none of them 0.
pub(crate) fn read_name_text(cursor: &mut Cursor<'_>) -> Option<NameText>
    ensures { Reads text_bytes IsStatedName cursor.old cursor.new result }
{
    let bytes = cursor.text()?;
    if bytes.len() > 255 || has_zero(bytes) {
        return None;
    }
    Some(NameText::new(bytes))
}

/// The component of a snapshot's name, without its dataset.
pub(crate) fn read_name_component(cursor: &mut Cursor<'_>) -> Option<NameText>
    ensures { Reads text_bytes IsComponent cursor.old cursor.new result }
{
    let bytes = cursor.text()?;
    check_component(bytes).ok()?;
    Some(NameText::new(bytes))
}

/// A set of guids.
pub(crate) fn read_guids(cursor: &mut Cursor<'_>) -> Option<GuidSet>
    ensures { Reads words_bytes IsGuidSet cursor.old cursor.new result }
{
    let count = cursor.word()?;
    let mut guids = GuidSet::empty();
    for _ in 0..count {
        let guid = cursor.word()?;
        if !guids.insert_last(guid) {
            return None;
        }
    }
    Some(guids)
}

/// The levels of a tree, at most 7.
pub(crate) fn read_levels(cursor: &mut Cursor<'_>) -> Option<u8>
    ensures { Reads word (λ levels. levels ≤ 7) cursor.old cursor.new result }
{
    let levels = cursor.word()?;
    if levels > 7 {
        return None;
    }
    Some(levels as u8)
}
