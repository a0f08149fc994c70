// How the reply of an event is written, without taking memory.
ghost use Rattle.std.specs.Prelude.{◌++◌, OnOk, codes, decimal};
ghost use Rattle.zst_model.specs.pools.AnswerLines.{word};
ghost use Rattle.zst_model.specs.refusals.Texts.{guid_text};
ghost use Rattle.zst_outside.specs.Printing.{Prints};
ghost use Rattle.zst_outside.specs.States.{HandedOn};
ghost use Rattle.zst_run.specs.Replays.{reply_of};
ghost use Rattle.zst_run.specs.Replies.{reply_text};
ghost use Rattle.zst_sessions.specs.EventReplies.{answer_of, reply_lines, standing_text};
ghost use Rattle.zst_sessions.specs.Moves.{took};

use crate::note::write_refusal;
use crate::reply::{write_line, write_lines, write_number};
use crate::reports::write_report;
use zst_model::{Refusal, guid_text};
use zst_outside::{Fault, Sink, write_all};
use zst_sessions::{EventReply, Standing};

// Writes a line that ends in a number, and its line feed.
fn write_number_line<K: Sink>(text: &[u8], number: u64, out: &mut K) -> Result<(), Fault>
    ensures { Prints (K.state out.old) (K.state out.new) (text.now ++ decimal number ++ codes "\n") result }
{
    write_number(text, number, out)?;
    write_all(out, b"\n")
}

// Writes a guid behind a text.
fn write_guid<K: Sink>(text: &[u8], guid: u64, out: &mut K) -> Result<(), Fault>
    ensures { Prints (K.state out.old) (K.state out.new) (text.now ++ guid_text guid) result }
{
    write_all(out, text)?;
    write_all(out, guid_text(guid).as_str().as_bytes())
}

// Writes where a receive stands.
fn write_standing<K: Sink>(standing: Standing, out: &mut K) -> Result<(), Fault>
    ensures { Prints (K.state out.old) (K.state out.new) (standing_text standing) result }
{
    match standing {
        Standing::Point(point) => {
            write_number(b" point ", point.object, out)?;
            write_number(b" ", point.offset, out)
        }
        Standing::Done { guid } => write_guid(b" done ", guid, out),
    }
}

// Writes the line of a pump, and its line feed.
fn write_pumped<K: Sink>(
    taken: u64,
    applied: u64,
    standing: Standing,
    out: &mut K,
) -> Result<(), Fault>
    ensures { Prints (K.state out.old) (K.state out.new) (took taken ++ (codes " applied" ++ (word applied ++ standing_text standing)) ++ codes "\n") result }
{
    write_number(b"took ", taken, out)?;
    write_number(b" applied ", applied, out)?;
    write_standing(standing, out)?;
    write_all(out, b"\n")
}

// Writes the lines of a reply.
fn write_reply<K: Sink>(reply: &EventReply, out: &mut K) -> Result<(), Fault>
    ensures { Prints (K.state out.old) (K.state out.new) (reply_text (reply_lines reply.now)) result }
{
    match reply {
        EventReply::Lines(lines) => write_lines(lines, out),
        EventReply::Token(token) => write_line(token.print().as_str().as_bytes(), out),
        EventReply::Checked(report) => write_report(report, out),
        EventReply::Opened { number } => write_number_line(b"ok ", *number, out),
        EventReply::Pumped {
            taken,
            applied,
            standing,
        } => write_pumped(*taken, *applied, *standing, out),
        EventReply::Dropped { taken } => write_number_line(b"took ", *taken, out),
        EventReply::Closed => write_line(b"ok", out),
    }
}

// Writes the lines of an answer: a reply's, or a refusal's.
fn write_answer<K: Sink>(answer: &Result<EventReply, Refusal>, out: &mut K) -> Result<(), Fault>
    ensures { Prints (K.state out.old) (K.state out.new) (reply_text (reply_of (answer_of answer.now))) result }
{
    match answer {
        Ok(reply) => write_reply(reply, out),
        Err(refusal) => write_refusal(refusal, out),
    }
}

/// Writes the lines of an answer, and hands them on.
pub(crate) fn print_answer<K: Sink>(
    answer: &Result<EventReply, Refusal>,
    out: &mut K,
) -> Result<(), Fault>
    ensures prints { Prints (K.state out.old) (K.state out.new) (reply_text (reply_of (answer_of answer.now))) result }
    ensures handed_on { OnOk result (HandedOn (K.state out.new)) }
{
    write_answer(answer, out)?;
    out.flush()
}
