// Part 2 of soundness, of the numbers of snapshots.
ghost use Rattle.std.specs.Prelude.{◌≡◌, ◌<◌, length, HoldsAt, MatchBool};
ghost use Rattle.zst_dir.specs.RowNames.{AreNamed};
ghost use Rattle.zst_model.specs.pools.Pool.{Pool};
ghost use Rattle.zst_check.specs.FailingPlaces.{IsMisnumbered, LateSnapshot};
ghost use Rattle.zst_check.specs.Findings.{Finds};
ghost use Rattle.zst_check.specs.NumberedPlaces.{IsNumberedAt};
ghost use Rattle.zst_check.specs.NumbersInTurn.{AreNumberedInTurn};
ghost use Rattle.zst_check.specs.ReportNames.{FindsNamed};
ghost use Rattle.zst_check.specs.declared.report.Report.TheVariants.{Unsound};

use crate::names::alone;
use crate::nearest::{neighbour, origin_of};
use crate::report::Report;
use zst_dir::{Dir, Snapshot};
use zst_model::NameText;

// Whether the snapshot at a place is numbered above the one before it, of its dataset or else the origin of that, and not above the pool.
fn is_numbered(dir: &Dir, place: usize, number: u64) -> bool
    requires { place < length dir.now.snapshots }
    ensures { (pool : Pool) → AreNamed dir.now pool → pool.number ≡ number → MatchBool result (IsNumberedAt pool place) (HoldsAt (IsMisnumbered pool) pool.snapshots place) }
{
    let rows = dir.snapshots();
    let row = &rows[place];
    let dataset = row.name.dataset();
    let before = neighbour(dir, place).or_else(|| origin_of(dir, &dataset));
    match before {
        Some(before) => row.number <= number && rows[before].number < row.number,
        None => row.number <= number,
    }
}

fn told(row: &Snapshot) -> Report
    ensures { result ≡ Unsound row.now.name row.now.name 0 0 }
{
    alone(NameText::new(row.name.text().as_bytes()), 0, 0)
}

/// The first snapshot that isn't numbered so.
pub(crate) fn misnumbered_snapshot(dir: &Dir, number: u64) -> Option<Report>
    ensures found { (pool : Pool) → AreNamed dir.now pool → pool.number ≡ number → Finds (AreNumberedInTurn pool) (LateSnapshot pool) result }
    ensures named { FindsNamed dir.now result }
{
    let rows = dir.snapshots();
    for place in 0..rows.len() {
        if !is_numbered(dir, place, number) {
            return Some(told(&rows[place]));
        }
    }
    None
}
