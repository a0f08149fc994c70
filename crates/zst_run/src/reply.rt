ghost use Rattle.std.specs.Prelude.{◌++◌, OnOk, codes, decimal};
ghost use Rattle.zst_outside.specs.Printing.{Prints};
ghost use Rattle.zst_outside.specs.States.{HandedOn};
ghost use Rattle.zst_run.specs.Replies.{HandsOn, reply_text};

use itoa::Buffer;
use zst_model::{Refusal, Reply};
use zst_outside::{Fault, Sink, write_all};

/// Writes a number behind a text.
pub(crate) fn write_number<K: Sink>(text: &[u8], number: u64, out: &mut K) -> Result<(), Fault>
    ensures { Prints (K.state out.old) (K.state out.new) (text.now ++ decimal number) result }
{
    write_all(out, text)?;
    write_all(out, Buffer::new().format(number).as_bytes())
}

/// Writes a line, and its line feed.
pub(crate) fn write_line<K: Sink>(line: &[u8], out: &mut K) -> Result<(), Fault>
    ensures { Prints (K.state out.old) (K.state out.new) (line.now ++ codes "\n") result }
{
    write_all(out, line)?;
    write_all(out, b"\n")
}

/// Writes a line and its line feed, and hands them on.
pub(crate) fn print_line<K: Sink>(line: &[u8], out: &mut K) -> Result<(), Fault>
    ensures prints { Prints (K.state out.old) (K.state out.new) (line.now ++ codes "\n") result }
    ensures handed_on { OnOk result (HandedOn (K.state out.new)) }
{
    write_line(line, out)?;
    out.flush()
}

/// Writes the lines of a reply.
pub(crate) fn write_lines<K: Sink>(reply: &Reply, out: &mut K) -> Result<(), Fault>
    ensures { Prints (K.state out.old) (K.state out.new) (reply_text reply.now) result }
{
    for line in reply.lines() {
        write_line(line.as_slice(), out)?;
    }
    Ok(())
}

/// Writes the lines of a reply, and hands them on.
pub(crate) fn print_reply<K: Sink>(reply: &Reply, out: &mut K) -> Result<(), Fault>
    ensures prints { Prints (K.state out.old) (K.state out.new) (reply_text reply.now) result }
    ensures handed_on { OnOk result (HandedOn (K.state out.new)) }
{
    write_lines(reply, out)?;
    out.flush()
}

/// Hands on what waits. A fault there takes the place of the answer.
pub(crate) fn hand_on<K: Sink>(answer: Result<(), Refusal>, out: &mut K) -> Result<(), Refusal>
    ensures { HandsOn (K.state out.old) (K.state out.new) answer result }
{
    match out.flush() {
        Ok(()) => answer,
        Err(_) => Err(Refusal::SinkFault),
    }
}
