ghost use Rattle.std.specs.Prelude.{◌≡◌, ◌<◌, ◌^◌, List, ℕ, Option, flat_map};
ghost use Rattle.zst_outside.specs.Printing.{Prints};
ghost use Rattle.zst_record.specs.Heads.{covered_of};
ghost use Rattle.zst_dump.specs.RecordLines.{line_text, said, fields_text, named_text, begin_text, object_text, free_objects_text, write_text, free_text, end_text, spill_text, redact_text, resume_text, blank_guid, guids_text};
ghost use Rattle.zst_dump.specs.Summary.{summary_text, records_of};

use crate::counts::Counts;
use crate::part::{Part, print, print_number};
use zst_model::{Header, Point};
use zst_outside::{Fault, Sink, write_all};
use zst_record::{Head, Record};

#[tactic(auto, unfolding(crate::specs::RecordLines::fields_text))]
fn print_fields<K: Sink>(header: &Header, payload: u64, out: &mut K) -> Result<(), Fault>
    ensures { Prints (K.state out.old) (K.state out.new) (fields_text header.now payload) result }
{
    print(
        &[
            Part::Words(b" BEGIN features "),
            Part::Number(u64::from(header.features)),
            Part::Words(b" kind "),
            Part::Number(u64::from(header.kind)),
            Part::Words(b" flags "),
            Part::Number(u64::from(header.flags)),
            Part::Words(b" time "),
            Part::Number(header.time),
            Part::Words(b" toguid "),
            Part::Guid(header.to),
            Part::Words(b" fromguid "),
            Part::Guid(header.from),
            Part::Words(b" payload "),
            Part::Number(payload),
        ],
        out,
    )
}

#[tactic(auto, unfolding(crate::specs::RecordLines::resume_text))]
fn print_resume<K: Sink>(resume: &Option<Point>, out: &mut K) -> Result<(), Fault>
    ensures { Prints (K.state out.old) (K.state out.new) (resume_text resume.now) result }
{
    match resume {
        None => print(&[], out),
        Some(point) => print(
            &[
                Part::Words(b" resume "),
                Part::Number(point.object),
                Part::Words(b" "),
                Part::Number(point.offset),
            ],
            out,
        ),
    }
}

fn print_each<K: Sink>(guids: &[u64], out: &mut K) -> Result<(), Fault>
    ensures { Prints (K.state out.old) (K.state out.new) (flat_map blank_guid guids.now) result }
{
    for guid in guids {
        if let Err(fault) = print(&[Part::Words(b" "), Part::Guid(*guid)], out) {
            return Err(fault);
        }
    }
    Ok(())
}

#[tactic(auto, unfolding(crate::specs::RecordLines::guids_text))]
fn print_guids<K: Sink>(word: &[u8], guids: &[u64], out: &mut K) -> Result<(), Fault>
    ensures { Prints (K.state out.old) (K.state out.new) (guids_text word.now guids.now) result }
{
    if guids.is_empty() {
        return print(&[], out);
    }
    write_all(out, word)?;
    print_each(guids, out)
}

#[tactic(auto, unfolding(crate::specs::RecordLines::named_text))]
fn print_named<K: Sink>(name: &[u8], out: &mut K) -> Result<(), Fault>
    ensures { Prints (K.state out.old) (K.state out.new) (named_text name.now) result }
{
    print(
        &[Part::Words(b" name "), Part::Name(name), Part::Words(b"\n")],
        out,
    )
}

#[tactic(auto, unfolding(crate::specs::RecordLines::begin_text))]
fn print_begin<K: Sink>(header: &Header, payload: u64, out: &mut K) -> Result<(), Fault>
    ensures { Prints (K.state out.old) (K.state out.new) (begin_text header.now payload) result }
{
    print_fields(header, payload, out)?;
    print_resume(&header.resume, out)?;
    print_guids(b" redact", header.redact.as_slice(), out)?;
    print_guids(b" from-redact", header.from_redact.as_slice(), out)?;
    print_named(header.name.as_bytes(), out)
}

#[tactic(auto, unfolding(crate::specs::RecordLines::object_text))]
fn print_object<K: Sink>(
    object: u64,
    type_: u32,
    bonus_type: u32,
    block_size: u32,
    bonus_len: u32,
    out: &mut K,
) -> Result<(), Fault>
    ensures { Prints (K.state out.old) (K.state out.new) (object_text object type_ bonus_type block_size bonus_len) result }
{
    print(
        &[
            Part::Words(b" OBJECT object "),
            Part::Number(object),
            Part::Words(b" type "),
            Part::Number(u64::from(type_)),
            Part::Words(b" bonustype "),
            Part::Number(u64::from(bonus_type)),
            Part::Words(b" size "),
            Part::Number(u64::from(block_size)),
            Part::Words(b" bonus "),
            Part::Number(u64::from(bonus_len)),
            Part::Words(b"\n"),
        ],
        out,
    )
}

#[tactic(auto, unfolding(crate::specs::RecordLines::free_objects_text))]
fn print_free_objects<K: Sink>(first: u64, count: u64, out: &mut K) -> Result<(), Fault>
    ensures { Prints (K.state out.old) (K.state out.new) (free_objects_text first count) result }
{
    print(
        &[
            Part::Words(b" FREEOBJECTS first "),
            Part::Number(first),
            Part::Words(b" count "),
            Part::Number(count),
            Part::Words(b"\n"),
        ],
        out,
    )
}

#[tactic(auto, unfolding(crate::specs::RecordLines::write_text))]
fn print_write<K: Sink>(
    object: u64,
    type_: u32,
    offset: u64,
    length: u64,
    out: &mut K,
) -> Result<(), Fault>
    ensures { Prints (K.state out.old) (K.state out.new) (write_text object type_ offset length) result }
{
    print(
        &[
            Part::Words(b" WRITE object "),
            Part::Number(object),
            Part::Words(b" type "),
            Part::Number(u64::from(type_)),
            Part::Words(b" offset "),
            Part::Number(offset),
            Part::Words(b" length "),
            Part::Number(length),
            Part::Words(b"\n"),
        ],
        out,
    )
}

#[tactic(auto, unfolding(crate::specs::RecordLines::free_text))]
fn print_free<K: Sink>(object: u64, offset: u64, length: u64, out: &mut K) -> Result<(), Fault>
    ensures { Prints (K.state out.old) (K.state out.new) (free_text object offset length) result }
{
    print(
        &[
            Part::Words(b" FREE object "),
            Part::Number(object),
            Part::Words(b" offset "),
            Part::Number(offset),
            Part::Words(b" length "),
            Part::Length(length),
            Part::Words(b"\n"),
        ],
        out,
    )
}

#[tactic(auto, unfolding(crate::specs::RecordLines::end_text))]
fn print_end<K: Sink>(sums: &[u64; 4], out: &mut K) -> Result<(), Fault>
    ensures { Prints (K.state out.old) (K.state out.new) (end_text sums.now) result }
{
    print(
        &[
            Part::Words(b" END sums "),
            Part::Number(sums[0]),
            Part::Words(b" "),
            Part::Number(sums[1]),
            Part::Words(b" "),
            Part::Number(sums[2]),
            Part::Words(b" "),
            Part::Number(sums[3]),
            Part::Words(b"\n"),
        ],
        out,
    )
}

#[tactic(auto, unfolding(crate::specs::RecordLines::spill_text))]
fn print_spill<K: Sink>(object: u64, length: u64, out: &mut K) -> Result<(), Fault>
    ensures { Prints (K.state out.old) (K.state out.new) (spill_text object length) result }
{
    print(
        &[
            Part::Words(b" SPILL object "),
            Part::Number(object),
            Part::Words(b" length "),
            Part::Number(length),
            Part::Words(b"\n"),
        ],
        out,
    )
}

#[tactic(auto, unfolding(crate::specs::RecordLines::redact_text))]
fn print_redact<K: Sink>(object: u64, offset: u64, length: u64, out: &mut K) -> Result<(), Fault>
    ensures { Prints (K.state out.old) (K.state out.new) (redact_text object offset length) result }
{
    print(
        &[
            Part::Words(b" REDACT object "),
            Part::Number(object),
            Part::Words(b" offset "),
            Part::Number(offset),
            Part::Words(b" length "),
            Part::Number(length),
            Part::Words(b"\n"),
        ],
        out,
    )
}

// What a record says, of which BEGIN alone prints its payload's length.
fn print_said<K: Sink>(head: &Head, payload: u64, out: &mut K) -> Result<(), Fault>
    ensures { Prints (K.state out.old) (K.state out.new) (said head.now payload) result }
{
    match head {
        Head::Begin { header, .. } => print_begin(header, payload, out),
        Head::Object {
            object,
            type_,
            bonus_type,
            block_size,
            bonus_len,
            ..
        } => print_object(*object, *type_, *bonus_type, *block_size, *bonus_len, out),
        Head::FreeObjects { first, count, .. } => print_free_objects(*first, *count, out),
        Head::Write {
            object,
            type_,
            offset,
            length,
            ..
        } => print_write(*object, *type_, *offset, *length, out),
        Head::Free {
            object,
            offset,
            length,
            ..
        } => print_free(*object, *offset, *length, out),
        Head::End { sums, .. } => print_end(sums, out),
        Head::Spill { object, length, .. } => print_spill(*object, *length, out),
        Head::Redact {
            object,
            offset,
            length,
            ..
        } => print_redact(*object, *offset, *length, out),
    }
}

/// Writes the line of a covered record.
pub fn line_of<K: Sink>(covered: &Record<'_>, out: &mut K) -> Result<(), Fault>
    ensures { Prints (K.state out.old) (K.state out.new) (line_text (covered_of covered.now)) result }
{
    print_number(covered.at, out)?;
    print_said(covered.head, covered.payload.len() as u64, out)
}

/// Writes the two last lines: how many records of each type there are, and how many bytes.
#[tactic(auto, unfolding(crate::specs::Summary::summary_text))]
pub fn summary<K: Sink>(counts: &Counts, out: &mut K) -> Result<(), Fault>
    requires { records_of counts.now < 2 ^ 64 }
    ensures { Prints (K.state out.old) (K.state out.new) (summary_text counts.now) result }
{
    print(
        &[
            Part::Words(b"counts begin "),
            Part::Number(counts.begin),
            Part::Words(b" object "),
            Part::Number(counts.object),
            Part::Words(b" freeobjects "),
            Part::Number(counts.freeobjects),
            Part::Words(b" write "),
            Part::Number(counts.write),
            Part::Words(b" free "),
            Part::Number(counts.free),
            Part::Words(b" end "),
            Part::Number(counts.end),
            Part::Words(b" spill "),
            Part::Number(counts.spill),
            Part::Words(b" redact "),
            Part::Number(counts.redact),
            Part::Words(b"\nrecords "),
            Part::Number(counts.records()),
            Part::Words(b" payload "),
            Part::Number(counts.payload),
            Part::Words(b" stream "),
            Part::Number(counts.stream),
            Part::Words(b"\n"),
        ],
        out,
    )
}
