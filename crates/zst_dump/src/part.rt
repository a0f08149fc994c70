ghost use Rattle.std.specs.Prelude.{◌≡◌, decimal, flat_map};
ghost use Rattle.zst_outside.specs.Printing.{Prints};
ghost use Rattle.zst_dump.specs.Parts.{is_plain, code_of, escaped, name_text, length_text, part_text};

use hex::encode_to_slice;
use itoa::Buffer;
use zst_model::guid_text;
use zst_outside::{Fault, Sink, write_all};

/// A part of a line.
#[derive(Clone, Copy)]
pub(crate) enum Part<'a> {
    Words(&'a [u8]),
    Number(u64),
    Guid(u64),
    Name(&'a [u8]),
    Length(u64),
}

fn is_plain(byte: u8) -> bool
    ensures { result ≡ is_plain byte }
{
    byte >= 33 && byte <= 126 && byte != b'\\'
}

fn code_of(byte: u8) -> [u8; 4]
    ensures { result ≡ code_of byte }
{
    let mut digits = [0; 2];
    encode_to_slice([byte].as_slice(), &mut digits).unwrap();
    [b'\\', b'x', digits[0], digits[1]]
}

#[tactic(auto, unfolding(crate::specs::Parts::escaped))]
fn print_byte<K: Sink>(byte: u8, out: &mut K) -> Result<(), Fault>
    ensures { Prints (K.state out.old) (K.state out.new) (escaped byte) result }
{
    if is_plain(byte) {
        return write_all(out, &[byte]);
    }
    write_all(out, &code_of(byte))
}

fn print_name<K: Sink>(name: &[u8], out: &mut K) -> Result<(), Fault>
    ensures { Prints (K.state out.old) (K.state out.new) (name_text name.now) result }
{
    for byte in name {
        if let Err(fault) = print_byte(*byte, out) {
            return Err(fault);
        }
    }
    Ok(())
}

pub(crate) fn print_number<K: Sink>(number: u64, out: &mut K) -> Result<(), Fault>
    ensures { Prints (K.state out.old) (K.state out.new) (decimal number) result }
{
    write_all(out, Buffer::new().format(number).as_bytes())
}

#[tactic(auto, unfolding(crate::specs::Parts::length_text))]
fn print_length<K: Sink>(count: u64, out: &mut K) -> Result<(), Fault>
    ensures { Prints (K.state out.old) (K.state out.new) (length_text count) result }
{
    if count == u64::MAX {
        return write_all(out, b"to-end");
    }
    print_number(count, out)
}

fn print_part<K: Sink>(part: &Part<'_>, out: &mut K) -> Result<(), Fault>
    ensures { Prints (K.state out.old) (K.state out.new) (part_text part.now) result }
{
    match *part {
        Part::Words(words) => write_all(out, words),
        Part::Number(number) => print_number(number, out),
        Part::Guid(guid) => write_all(out, guid_text(guid).as_str().as_bytes()),
        Part::Name(name) => print_name(name, out),
        Part::Length(count) => print_length(count, out),
    }
}

/// Prints parts, one after another.
pub(crate) fn print<K: Sink>(parts: &[Part<'_>], out: &mut K) -> Result<(), Fault>
    ensures { Prints (K.state out.old) (K.state out.new) (flat_map part_text parts.now) result }
{
    for part in parts {
        if let Err(fault) = print_part(part, out) {
            return Err(fault);
        }
    }
    Ok(())
}
