ghost use Rattle.std.specs.Prelude.{◌≡◌, ◌++◌, codes, decimal};
ghost use Rattle.zst_model.specs.refusals.Refusal.{text_of};
ghost use Rattle.zst_outside.specs.Printing.{Prints};
ghost use Rattle.zst_run.specs.Replies.{refusal_line};
ghost use Rattle.zst_run.specs.Runs.{Noted, note_of, plan_status, status_of};

use itoa::Buffer;
use zst_model::{PlanFault, Refusal};
use zst_outside::{Fault, Sink, write_all};

/// The status that a plan's fault ends the program with.
fn plan_status(fault: &PlanFault) -> u8
    ensures { result ≡ plan_status fault.now }
{
    match fault {
        PlanFault::BadName { .. } => 2,
        PlanFault::Limit { .. } => 9,
        _ => 3,
    }
}

/// The status that a refusal ends the program with.
pub fn status_of(refusal: &Refusal) -> u8
    ensures { result ≡ status_of refusal.now }
{
    match refusal {
        Refusal::Usage { .. } | Refusal::BadToken { .. } => 2,
        Refusal::Plan(fault) => plan_status(fault),
        Refusal::Redacted { .. } => 3,
        // BEGIN is record 0 of a stream and is never applied, so that this number is a command's.
        Refusal::CannotApply { record: 0, .. } => 3,
        Refusal::CannotApply { .. } => 4,
        Refusal::Stream(_) => 4,
        Refusal::SourceFault => 5,
        Refusal::SinkFault => 6,
        Refusal::DiskFault | Refusal::Failed => 7,
        Refusal::NoPool | Refusal::BadVersion { .. } | Refusal::Damaged { .. } => 8,
        Refusal::Limit { .. } | Refusal::Full { .. } => 9,
        Refusal::OutOfMemory => 10,
    }
}

fn write_number<N: Sink>(number: u8, note: &mut N) -> Result<(), Fault>
    ensures { Prints (N.state note.old) (N.state note.new) (decimal number) result }
{
    write_all(note, Buffer::new().format(number).as_bytes())
}

fn write_text<N: Sink>(refusal: &Refusal, note: &mut N) -> Result<(), Fault>
    ensures { Prints (N.state note.old) (N.state note.new) (text_of refusal.now) result }
{
    write_all(note, refusal.text().as_str().as_bytes())
}

/// Writes the line of a refusal, and its line feed.
pub(crate) fn write_refusal<N: Sink>(refusal: &Refusal, note: &mut N) -> Result<(), Fault>
    ensures { Prints (N.state note.old) (N.state note.new) (refusal_line refusal.now ++ codes "\n") result }
{
    write_all(note, b"E")?;
    write_number(refusal.number(), note)?;
    write_all(note, b" ")?;
    write_text(refusal, note)?;
    write_all(note, b"\n")
}

fn write_note<N: Sink>(refusal: &Refusal, note: &mut N) -> Result<(), Fault>
    ensures { Prints (N.state note.old) (N.state note.new) (note_of refusal.now) result }
{
    write_all(note, b"zst: ")?;
    write_refusal(refusal, note)
}

/// Notes a refusal, and hands the note on. A fault of the note changes nothing.
pub(crate) fn note_refusal<N: Sink>(refusal: &Refusal, note: &mut N)
    ensures { Noted (N.state note.old) (N.state note.new) (note_of refusal.now) }
{
    let _ = write_note(refusal, note);
    let _ = note.flush();
}
