ghost use Rattle.std.specs.Prelude.{◌≡◌, ◌+◌, ◌≤◌, ◌<◌, ◌^◌, length};
ghost use Rattle.zst_bytes.specs.Fields.{lay};
ghost use Rattle.zst_record.specs.declared.head.Head.TheVariants.{Begin, Object, FreeObjects, Write, Free, End, Spill, Redact};
ghost use Rattle.zst_record.specs.Formats.{free_type, redact_type};
ghost use Rattle.zst_record.specs.Table.{head_bytes, padded, sum_fields, fields_of};

use crate::head::Head;
use crate::{MAGIC, RECORD_LEN, SUBSTREAM, types};
use zst_bytes::{put_bytes, put8, put32, put64};
use zst_model::{Header, NameText};

/// Writes four sums from a place on, and leaves all other bytes.
pub fn put_sums(bytes: &mut [u8], at: usize, sums: &[u64; 4])
    requires { at + 32 ≤ length bytes.old }
    ensures { bytes.new ≡ lay (sum_fields at sums.now) bytes.old }
{
    put64(bytes, at, sums[0]);
    put64(bytes, at + 8, sums[1]);
    put64(bytes, at + 16, sums[2]);
    put64(bytes, at + 24, sums[3]);
}

/// The 256 bytes of a name, with zeros behind it.
fn name_field(name: &NameText) -> [u8; 256]
    ensures { result ≡ padded 256 name.now }
{
    let mut field = [0; 256];
    put_bytes(&mut field, 0, name.as_bytes());
    field
}

fn put_begin(into: &mut [u8], header: &Header, payload_len: u32)
    requires { length into.old ≡ RECORD_LEN }
    ensures { into.new ≡ lay (fields_of (Begin header.now payload_len)) into.old }
{
    put32(into, 0, types::BEGIN);
    put32(into, 4, payload_len);
    put64(into, 8, MAGIC);
    put64(into, 16, 4 * u64::from(header.features) + SUBSTREAM);
    put64(into, 24, header.time);
    put32(into, 32, header.kind);
    put32(into, 36, header.flags);
    put64(into, 40, header.to);
    put64(into, 48, header.from);
    put_bytes(into, 56, &name_field(&header.name));
}

fn put_object(
    into: &mut [u8],
    object: u64,
    type_: u32,
    bonus_type: u32,
    block_size: u32,
    bonus_len: u32,
    max_block: u64,
    to: u64,
)
    requires { length into.old ≡ RECORD_LEN }
    ensures { into.new ≡
        lay (fields_of (Object object type_ bonus_type block_size bonus_len max_block to)) into.old }
{
    put32(into, 0, types::OBJECT);
    put64(into, 8, object);
    put32(into, 16, type_);
    put32(into, 20, bonus_type);
    put32(into, 24, block_size);
    put32(into, 28, bonus_len);
    put8(into, 34, 1);
    put64(into, 40, to);
    put64(into, 56, max_block);
}

fn put_free_objects(into: &mut [u8], first: u64, count: u64, to: u64)
    requires { length into.old ≡ RECORD_LEN }
    ensures { into.new ≡ lay (fields_of (FreeObjects first count to)) into.old }
{
    put32(into, 0, types::FREE_OBJECTS);
    put64(into, 8, first);
    put64(into, 16, count);
    put64(into, 24, to);
}

fn put_write(into: &mut [u8], object: u64, type_: u32, offset: u64, size: u64, to: u64)
    requires { length into.old ≡ RECORD_LEN }
    ensures { into.new ≡ lay (fields_of (Write object type_ offset size to)) into.old }
{
    put32(into, 0, types::WRITE);
    put64(into, 8, object);
    put32(into, 16, type_);
    put64(into, 24, offset);
    put64(into, 32, size);
    put64(into, 40, to);
}

/// FREE and REDACT have the same fields, and differ in the number of their type.
fn put_range(into: &mut [u8], record_type: u32, object: u64, offset: u64, size: u64, to: u64)
    requires { length into.old ≡ RECORD_LEN }
    ensures free { record_type ≡ free_type → into.new ≡ lay (fields_of (Free object offset size to)) into.old }
    ensures redact { record_type ≡ redact_type → into.new ≡ lay (fields_of (Redact object offset size to)) into.old }
{
    put32(into, 0, record_type);
    put64(into, 8, object);
    put64(into, 16, offset);
    put64(into, 24, size);
    put64(into, 32, to);
}

fn put_end(into: &mut [u8], sums: &[u64; 4], to: u64)
    requires { length into.old ≡ RECORD_LEN }
    ensures { into.new ≡ lay (fields_of (End sums.now to)) into.old }
{
    put32(into, 0, types::END);
    put_sums(into, 8, sums);
    put64(into, 40, to);
}

fn put_spill(into: &mut [u8], object: u64, size: u64, to: u64)
    requires { length into.old ≡ RECORD_LEN }
    ensures { into.new ≡ lay (fields_of (Spill object size to)) into.old }
{
    put32(into, 0, types::SPILL);
    put64(into, 8, object);
    put64(into, 16, size);
    put64(into, 24, to);
}

fn put_fields(into: &mut [u8], head: &Head)
    requires { length into.old ≡ RECORD_LEN }
    ensures { into.new ≡ lay (fields_of head.now) into.old }
{
    match head {
        Head::Begin {
            header,
            payload_len,
        } => put_begin(into, header, *payload_len),
        Head::Object {
            object,
            type_,
            bonus_type,
            block_size,
            bonus_len,
            max_block,
            to,
        } => put_object(
            into,
            *object,
            *type_,
            *bonus_type,
            *block_size,
            *bonus_len,
            *max_block,
            *to,
        ),
        Head::FreeObjects { first, count, to } => put_free_objects(into, *first, *count, *to),
        Head::Write {
            object,
            type_,
            offset,
            length,
            to,
        } => put_write(into, *object, *type_, *offset, *length, *to),
        Head::Free {
            object,
            offset,
            length,
            to,
        } => put_range(into, types::FREE, *object, *offset, *length, *to),
        Head::End { sums, to } => put_end(into, sums, *to),
        Head::Spill { object, length, to } => put_spill(into, *object, *length, *to),
        Head::Redact {
            object,
            offset,
            length,
            to,
        } => put_range(into, types::REDACT, *object, *offset, *length, *to),
    }
}

/// Writes a record, all but its checksum: the bytes that no field names are 0.
#[tactic(auto, unfolding(crate::specs::Table::head_bytes, zst_bytes::specs::Fields::zeros))]
pub fn encode(head: &Head, into: &mut [u8; RECORD_LEN])
    ensures { into.new ≡ head_bytes head.now }
{
    *into = [0; RECORD_LEN];
    put_fields(into, head);
}
