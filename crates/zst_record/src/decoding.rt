ghost use Rattle.std.specs.Prelude.{◌≡◌, ◌+◌, ◌/◌, ◌%◌, ◌≤◌, ◌<◌, ◌^◌, ◌==◌, length, ℕ, List, Ok, Err, Some, None, if◌then◌else◌, bit_and, position};
ghost use Rattle.std.specs.Int.{w32, trailing_zeros};
ghost use Rattle.zst_bytes.specs.Bytes.{number_at, bytes_at};
ghost use Rattle.zst_model.specs.declared.refusals.stream_fault.StreamFault.TheVariants.{Grammar, Unsupported};
ghost use Rattle.zst_record.specs.Decoding.{decoded, typed, begin_of, snapshot_of, header_with, object_of, write_of, free_of, spill_of, redact_of, is_object, is_range, is_payload_len, needs_payload, name_in, sums_at, lack_of_feature};

use crate::features::{
    COMPRESSED_BIT, DEDUP_BIT, DEDUP_PROPS_BIT, EMBED_DATA_BIT, LARGE_BLOCKS, LZ4_BIT,
    OTHER_FEATURES, RAW_BIT,
};
use crate::head::Head;
use crate::{COMPOUND_STREAM, MAGIC, RECORD_LEN, REVERSED_MAGIC, SUBSTREAM, types};
use zst_bytes::{le8, le32, le64};
use zst_model::features::{REDACTED, RESUMING};
use zst_model::limits::{LARGEST_BONUS, NUMBER_BOUND, is_block_size, is_spill_size};
use zst_model::{Flaw, GuidSet, Header, Lack, NameText, StreamFault};

/// The four sums that stand from a place on.
pub fn get_sums(bytes: &[u8], at: usize) -> [u64; 4]
    requires { at + 32 ≤ length bytes.now }
    ensures { result ≡ sums_at bytes.now at }
{
    [
        le64(bytes, at),
        le64(bytes, at + 8),
        le64(bytes, at + 16),
        le64(bytes, at + 24),
    ]
}

#[tactic(auto, unfolding(crate::specs::Decoding::is_object, zst_model::specs::states::State::number_bound))]
fn names_object(object: u64) -> bool
    ensures { result ≡ is_object object }
{
    0 < object && object < NUMBER_BOUND
}

#[tactic(auto, unfolding(crate::specs::Decoding::is_range))]
fn fits_range(offset: u64, length: u64) -> bool
    ensures { result ≡ is_range offset length }
{
    length <= u64::MAX - offset
}

fn grammar(at: u64, flaw: Flaw) -> Result<Head, StreamFault>
    ensures { result ≡ Err (Grammar at flaw) }
{
    Err(StreamFault::Grammar { at, flaw })
}

fn unsupported(at: u64, lack: Lack) -> Result<Head, StreamFault>
    ensures { result ≡ Err (Unsupported at lack) }
{
    Err(StreamFault::Unsupported { at, lack })
}

#[tactic(auto, unfolding(crate::specs::Decoding::object_with))]
fn decode_object(bytes: &[u8; RECORD_LEN], at: u64) -> Result<Head, StreamFault>
    requires { at ≤ 2 ^ 62 }
    ensures { result ≡ object_of at bytes.now }
{
    let object = le64(bytes, 8);
    let type_ = le32(bytes, 16);
    let block_size = le32(bytes, 24);
    let bonus_len = le32(bytes, 28);
    if !names_object(object) {
        return grammar(at + 8, Flaw::Object);
    }
    if type_ == 0 {
        return grammar(at + 16, Flaw::ObjectType);
    }
    if !is_block_size(u64::from(block_size)) {
        return grammar(at + 24, Flaw::BlockSize);
    }
    if bonus_len > LARGEST_BONUS {
        return grammar(at + 28, Flaw::Bonus);
    }
    if le8(bytes, 34) > 1 {
        return unsupported(at + 34, Lack::LargeDnode);
    }
    if le32(bytes, 36) != 0 {
        return unsupported(at + 36, Lack::Raw);
    }
    Ok(Head::Object {
        object,
        type_,
        bonus_type: le32(bytes, 20),
        block_size,
        bonus_len,
        max_block: le64(bytes, 56),
        to: le64(bytes, 40),
    })
}

#[tactic(auto, unfolding(crate::specs::Decoding::write_with))]
fn decode_write(bytes: &[u8; RECORD_LEN], at: u64) -> Result<Head, StreamFault>
    requires { at ≤ 2 ^ 62 }
    ensures { result ≡ write_of at bytes.now }
{
    let object = le64(bytes, 8);
    let length = le64(bytes, 32);
    if !names_object(object) {
        return grammar(at + 8, Flaw::Object);
    }
    if !is_block_size(length) {
        return grammar(at + 32, Flaw::Size);
    }
    if le8(bytes, 50) != 0 {
        return unsupported(at + 50, Lack::Compressed);
    }
    Ok(Head::Write {
        object,
        type_: le32(bytes, 16),
        offset: le64(bytes, 24),
        length,
        to: le64(bytes, 40),
    })
}

#[tactic(auto, unfolding(crate::specs::Decoding::free_with))]
fn decode_free(bytes: &[u8; RECORD_LEN], at: u64) -> Result<Head, StreamFault>
    requires { at ≤ 2 ^ 62 }
    ensures { result ≡ free_of at bytes.now }
{
    let object = le64(bytes, 8);
    let offset = le64(bytes, 16);
    let length = le64(bytes, 24);
    if !names_object(object) {
        return grammar(at + 8, Flaw::Object);
    }
    if !fits_range(offset, length) && length != u64::MAX {
        return grammar(at + 24, Flaw::Range);
    }
    Ok(Head::Free {
        object,
        offset,
        length,
        to: le64(bytes, 32),
    })
}

#[tactic(auto, unfolding(crate::specs::Decoding::spill_with))]
fn decode_spill(bytes: &[u8; RECORD_LEN], at: u64) -> Result<Head, StreamFault>
    requires { at ≤ 2 ^ 62 }
    ensures { result ≡ spill_of at bytes.now }
{
    let object = le64(bytes, 8);
    let length = le64(bytes, 16);
    if !names_object(object) {
        return grammar(at + 8, Flaw::Object);
    }
    if !is_spill_size(length) {
        return grammar(at + 16, Flaw::Size);
    }
    if le8(bytes, 33) != 0 {
        return unsupported(at + 33, Lack::Compressed);
    }
    Ok(Head::Spill {
        object,
        length,
        to: le64(bytes, 24),
    })
}

#[tactic(auto, unfolding(crate::specs::Decoding::redact_with, zst_model::specs::sends::Features::redacts))]
fn decode_redact(bytes: &[u8; RECORD_LEN], at: u64, features: u32) -> Result<Head, StreamFault>
    requires { at ≤ 2 ^ 62 }
    ensures { result ≡ redact_of at features bytes.now }
{
    if features & REDACTED == 0 {
        return grammar(at, Flaw::Redact);
    }
    let object = le64(bytes, 8);
    let offset = le64(bytes, 16);
    let length = le64(bytes, 24);
    if !names_object(object) {
        return grammar(at + 8, Flaw::Object);
    }
    if !fits_range(offset, length) {
        return grammar(at + 24, Flaw::Range);
    }
    Ok(Head::Redact {
        object,
        offset,
        length,
        to: le64(bytes, 32),
    })
}

#[tactic(auto, unfolding(crate::specs::Decoding::typed))]
fn decode_typed(
    record_type: u32,
    bytes: &[u8; RECORD_LEN],
    at: u64,
    features: u32,
) -> Result<Head, StreamFault>
    requires { at ≤ 2 ^ 62 }
    ensures { result ≡ typed record_type at features bytes.now }
{
    match record_type {
        types::BEGIN => grammar(at, Flaw::SecondBegin),
        types::OBJECT => decode_object(bytes, at),
        types::FREE_OBJECTS => Ok(Head::FreeObjects {
            first: le64(bytes, 8),
            count: le64(bytes, 16),
            to: le64(bytes, 24),
        }),
        types::WRITE => decode_write(bytes, at),
        types::FREE => decode_free(bytes, at),
        types::END => Ok(Head::End {
            sums: get_sums(bytes, 8),
            to: le64(bytes, 40),
        }),
        types::WRITE_BY_REFERENCE => unsupported(at, Lack::ByReference),
        types::SPILL => decode_spill(bytes, at),
        types::WRITE_EMBEDDED => unsupported(at, Lack::Embedded),
        types::OBJECT_RANGE => unsupported(at, Lack::ObjectRange),
        types::REDACT => decode_redact(bytes, at, features),
        _ => grammar(at, Flaw::RecordType),
    }
}

fn lack_of_bit(bit: u32) -> Lack
    ensures { result ≡ lack_of_feature bit }
{
    match bit {
        DEDUP_BIT => Lack::Dedup,
        DEDUP_PROPS_BIT => Lack::DedupProps,
        EMBED_DATA_BIT => Lack::EmbedData,
        LZ4_BIT => Lack::Lz4,
        COMPRESSED_BIT => Lack::Compressed,
        RAW_BIT => Lack::Raw,
        _ => Lack::Feature { bit },
    }
}

fn first_zero(field: &[u8]) -> Option<usize>
    ensures { result ≡ position (λ b. b == 0) field.now }
{
    field.iter().position(|b| *b == 0)
}

#[tactic(auto, unfolding(crate::specs::Decoding::name_in, zst_bytes::specs::Bytes::bytes_at))]
fn get_name(bytes: &[u8; RECORD_LEN]) -> Option<NameText>
    ensures { result ≡ name_in (bytes_at bytes.now 56 256) }
{
    let field = &bytes[56..];
    let len = first_zero(field)?;
    Some(NameText::new(&field[..len]))
}

#[tactic(auto, unfolding(crate::specs::Decoding::is_payload_len))]
fn sizes_payload(len: u32) -> bool
    ensures { result ≡ is_payload_len len }
{
    len == 0 || (40 <= len && len <= 296 && len % 8 == 0)
}

#[tactic(auto, unfolding(crate::specs::Decoding::needs_payload, zst_model::specs::sends::Features::resuming, zst_model::specs::sends::Features::redacts))]
pub(crate) fn wants_payload(features: u32) -> bool
    ensures { result ≡ needs_payload features }
{
    features & (RESUMING | REDACTED) != 0
}

#[tactic(auto, unfolding(crate::specs::Decoding::header_with))]
fn get_header(bytes: &[u8; RECORD_LEN], features: u32, name: NameText) -> Header
    ensures { result ≡
        header_with features (number_at bytes.now 32 4) (number_at bytes.now 36 4)
        (number_at bytes.now 24 8) (number_at bytes.now 40 8) (number_at bytes.now 48 8) name }
{
    Header {
        kind: le32(bytes, 32),
        flags: le32(bytes, 36),
        features,
        time: le64(bytes, 24),
        to: le64(bytes, 40),
        from: le64(bytes, 48),
        name,
        resume: None,
        redact: GuidSet::empty(),
        from_redact: GuidSet::empty(),
    }
}

#[tactic(auto, unfolding(crate::specs::Decoding::snapshot_with, crate::specs::Decoding::named))]
fn decode_snapshot(bytes: &[u8; RECORD_LEN], features: u32) -> Result<Head, StreamFault>
    ensures { result ≡ snapshot_of features bytes.now }
{
    let payload_len = le32(bytes, 4);
    let kind = le32(bytes, 32);
    if kind != 2 && kind != 3 {
        return grammar(32, Flaw::Kind);
    }
    if le64(bytes, 40) == 0 {
        return grammar(40, Flaw::Guid);
    }
    let Some(name) = get_name(bytes) else {
        return grammar(56, Flaw::Name);
    };
    if !sizes_payload(payload_len) {
        return unsupported(4, Lack::ForeignPayload);
    }
    if payload_len == 0 && wants_payload(features) {
        return grammar(4, Flaw::Payload);
    }
    let header = get_header(bytes, features, name);
    Ok(Head::Begin {
        header,
        payload_len,
    })
}

#[tactic(auto, unfolding(crate::specs::Decoding::begin_of, crate::specs::Decoding::begin_with, zst_model::specs::sends::Features::sa_spill, zst_model::specs::sends::Features::resuming, zst_model::specs::sends::Features::redacts))]
fn decode_begin(bytes: &[u8; RECORD_LEN]) -> Result<Head, StreamFault>
    ensures { result ≡ begin_of bytes.now }
{
    let magic = le64(bytes, 8);
    let version = le64(bytes, 16);
    let features = (version / 4 % 0x4000_0000) as u32;
    if le32(bytes, 0) != types::BEGIN {
        return grammar(0, Flaw::RecordType);
    }
    if magic == REVERSED_MAGIC {
        return unsupported(8, Lack::BigEndian);
    }
    if magic != MAGIC {
        return grammar(8, Flaw::Magic);
    }
    if version % 4 == COMPOUND_STREAM {
        return unsupported(16, Lack::Compound);
    }
    if version % 4 != SUBSTREAM {
        return grammar(16, Flaw::HeaderType);
    }
    let others = features & OTHER_FEATURES;
    if others != 0 {
        return unsupported(16, lack_of_bit(others.trailing_zeros()));
    }
    if features & LARGE_BLOCKS != 0 {
        return unsupported(16, Lack::LargeBlocks);
    }
    decode_snapshot(bytes, features)
}

/// What the 312 bytes of the record at a place of a stream with these features say.
///
/// The checks are those that need neither a checksum nor BEGIN's guid, in the order in which
/// `dmu_recv.c` meets the fields; the first that fails is the answer. A place of 0 is BEGIN's.
#[tactic(auto, unfolding(crate::specs::Decoding::decoded))]
pub fn decode(bytes: &[u8; RECORD_LEN], at: u64, features: u32) -> Result<Head, StreamFault>
    requires { at ≤ 2 ^ 62 }
    ensures { result ≡ decoded at features bytes.now }
{
    if at == 0 {
        decode_begin(bytes)
    } else {
        decode_typed(le32(bytes, 0), bytes, at, features)
    }
}
