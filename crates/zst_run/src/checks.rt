// The line that checks a pool.
ghost use Rattle.std.specs.Prelude.{◌≡◌};
ghost use Rattle.zst_run.specs.Checks.{EndsCheck, TellsReportOn, status_of_report};

use crate::reports::print_report;
use std::alloc::Global;
use zst_check::{Report, check};
use zst_image::PoolState;
use zst_model::Refusal;
use zst_outside::{Disk, Sink};
use zst_pool::{Pool, opened_is_at_rest};

/// The report on the pool of an image.
fn report_of_image<D: Disk>(alloc: Global, here: &mut D) -> Result<Report, Refusal>
    ensures { TellsReportOn (D.state here.old) (D.state here.new) result }
{
    opened_is_at_rest::<D>();
    let kept = PoolState::open(alloc, here)?;
    let mut pool = Pool::new(alloc, here, kept);
    let report = check(&mut pool, alloc);
    // Only of a disk that was given back is it known what stands on it.
    pool.into_disk();
    Ok(report?)
}

/// The status that the program ends with behind a report.
fn status_of_report(report: &Report) -> u8
    ensures { result ≡ status_of_report report.now }
{
    match report {
        Report::Sound { .. } => 0,
        Report::Unsound { .. } => 8,
    }
}

/// Checks the pool of an image, writes the report's line, and answers the status that the program ends with.
pub(crate) fn check_image<D: Disk, K: Sink>(
    alloc: Global,
    here: &mut D,
    out: &mut K,
) -> Result<u8, Refusal>
    ensures { EndsCheck (D.state here.old) (D.state here.new) (K.state out.old) (K.state out.new) result }
{
    let report = report_of_image(alloc, here)?;
    match print_report(&report, out) {
        Ok(()) => Ok(status_of_report(&report)),
        Err(_) => Err(Refusal::SinkFault),
    }
}
