// How the report of a check is written, without taking memory.
ghost use Rattle.std.specs.Prelude.{◌++◌, OnOk, codes};
ghost use Rattle.zst_check.specs.Checks.{report_line};
ghost use Rattle.zst_check.specs.declared.report.Report.TheVariants.{Unsound};
ghost use Rattle.zst_outside.specs.Printing.{Prints};
ghost use Rattle.zst_outside.specs.States.{HandedOn};

use crate::reply::write_number;
use zst_check::Report;
use zst_model::NameText;
use zst_outside::{Fault, Sink, write_all};

// Writes where a pool isn't sound.
fn write_place<K: Sink>(
    earlier: &NameText,
    later: &NameText,
    object: u64,
    block: u64,
    out: &mut K,
) -> Result<(), Fault>
    ensures { Prints (K.state out.old) (K.state out.new) (report_line (Unsound earlier.now later.now object block)) result }
{
    write_all(out, b"unsound ")?;
    write_all(out, earlier.as_bytes())?;
    write_all(out, b" ")?;
    write_all(out, later.as_bytes())?;
    write_number(b" object ", object, out)?;
    write_number(b" block ", block, out)
}

/// Writes the line of a report, and its line feed.
pub(crate) fn write_report<K: Sink>(report: &Report, out: &mut K) -> Result<(), Fault>
    ensures { Prints (K.state out.old) (K.state out.new) (report_line report.now ++ codes "\n") result }
{
    match report {
        Report::Sound { blocks } => write_number(b"sound ", *blocks, out)?,
        Report::Unsound {
            earlier,
            later,
            object,
            block,
        } => write_place(earlier, later, *object, *block, out)?,
    }
    write_all(out, b"\n")
}

/// Writes the line of a report and its line feed, and hands them on.
pub(crate) fn print_report<K: Sink>(report: &Report, out: &mut K) -> Result<(), Fault>
    ensures prints { Prints (K.state out.old) (K.state out.new) (report_line report.now ++ codes "\n") result }
    ensures handed_on { OnOk result (HandedOn (K.state out.new)) }
{
    write_report(report, out)?;
    out.flush()
}
