//! The heads of records, to stream 1.
ghost use Rattle.std.specs.Prelude.{◌≡◌, ◌<◌, ◌^◌, ◌+◌, ◌-◌, ◌⊎◌};
ghost use Rattle.zst_apply.specs.AppliedRecords.{IsOfStream};

use zst_record::Head;

// Blocks of 512 bytes, or of 1,536, which is no power of two.
fn size_of(is_odd: bool) -> u32
    ensures { (result ≡ 512) ⊎ (result ≡ 1536) }
{
    if is_odd { 1536 } else { 512 }
}

// An object with 5 bytes of bonus.
pub(super) fn put(object: u64, type_: u32, is_odd: bool) -> Head
    requires object { (0 < object) × (object < 2 ^ 48) }
    requires some { 0 < type_ }
    ensures { IsOfStream result }
{
    Head::Object {
        object,
        type_,
        bonus_type: 44,
        block_size: size_of(is_odd),
        bonus_len: 5,
        max_block: 0,
        to: 1,
    }
}

pub(super) fn free_objects(first: u64, count: u64) -> Head
    ensures { IsOfStream result }
{
    Head::FreeObjects {
        first,
        count,
        to: 1,
    }
}

pub(super) fn write(object: u64, offset: u64, is_odd: bool) -> Head
    requires object { (0 < object) × (object < 2 ^ 48) }
    ensures { IsOfStream result }
{
    Head::Write {
        object,
        type_: 19,
        offset,
        length: u64::from(size_of(is_odd)),
        to: 1,
    }
}

pub(super) fn free(object: u64, offset: u64, length: u64) -> Head
    requires object { (0 < object) × (object < 2 ^ 48) }
    requires range { (offset + length < 2 ^ 64) ⊎ (length ≡ 2 ^ 64 - 1) }
    ensures { IsOfStream result }
{
    Head::Free {
        object,
        offset,
        length,
        to: 1,
    }
}

pub(super) fn end() -> Head
    ensures { IsOfStream result }
{
    Head::End {
        sums: [0; 4],
        to: 1,
    }
}

pub(super) fn spill(object: u64) -> Head
    requires object { (0 < object) × (object < 2 ^ 48) }
    ensures { IsOfStream result }
{
    Head::Spill {
        object,
        length: 1024,
        to: 1,
    }
}

pub(super) fn redact(object: u64, offset: u64, length: u64) -> Head
    requires object { (0 < object) × (object < 2 ^ 48) }
    requires range { offset + length < 2 ^ 64 }
    ensures { IsOfStream result }
{
    Head::Redact {
        object,
        offset,
        length,
        to: 1,
    }
}
