// What a report names.
ghost use Rattle.std.specs.Prelude.{◌≡◌};
ghost use Rattle.zst_check.specs.declared.report.Report.TheVariants.{Unsound};

use crate::report::Report;
use zst_model::NameText;

// What is reported of a state or a snapshot alone: its name stands twice.
pub(crate) fn alone(name: NameText, object: u64, block: u64) -> Report
    ensures { result ≡ Unsound name name object block }
{
    let twice = name.duplicate();
    Report::Unsound {
        earlier: name,
        later: twice,
        object,
        block,
    }
}
