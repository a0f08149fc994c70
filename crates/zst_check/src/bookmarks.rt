// Part 3 of soundness: bookmarks.
ghost use Rattle.std.specs.Prelude.{◌≡◌, ◌<◌, ◌↔◌, IsTrue};
ghost use Rattle.std.specs.List.{list_all};
ghost use Rattle.zst_dir.specs.RowNames.{AreNamed, NamesBookmark};
ghost use Rattle.zst_model.specs.pools.Ancestry.{IsOrigin};
ghost use Rattle.zst_model.specs.pools.Pool.{Pool};
ghost use Rattle.zst_model.specs.pools.Pool as plain;
ghost use Rattle.zst_model.specs.pools.Soundness.{IsBookmarkOf};
ghost use Rattle.zst_names.specs.Names.{dataset_of};
ghost use Rattle.zst_check.specs.FailingPlaces.{BadBookmark};
ghost use Rattle.zst_check.specs.Findings.{Finds};
ghost use Rattle.zst_check.specs.ReportNames.{FindsNamed};
ghost use Rattle.zst_check.specs.Reports.{AreBookmarks};
ghost use Rattle.zst_check.specs.RowTests.{has_its_guid};
ghost use Rattle.zst_check.specs.declared.report.Report.TheVariants.{Unsound};

use crate::nearest::origin_of;
use crate::report::Report;
use zst_dir::{Bookmark, Dir};
use zst_model::NameText;

// Whether the origin of a bookmark's dataset, where it has one, has a lesser number.
fn is_above_origin(dir: &Dir, row: &Bookmark) -> bool
    ensures { (pool : Pool) → AreNamed dir.now pool
        → IsTrue result ↔ ((origin : plain.Snapshot) → IsOrigin pool origin (dataset_of 35 row.now.name) → origin.number < row.now.number) }
{
    match origin_of(dir, &row.name.dataset()) {
        Some(place) => dir.snapshots()[place].number < row.number,
        None => true,
    }
}

// Whether each snapshot of the bookmark's dataset with its number has its guid.
fn has_guid(dir: &Dir, row: &Bookmark) -> bool
    ensures { result ≡ list_all (has_its_guid row.now) dir.now.snapshots }
{
    let dataset = row.name.dataset();
    dir.snapshots().iter().all(|other| {
        other.number != row.number || other.guid == row.guid || other.name.dataset() != dataset
    })
}

// Whether a bookmark's dataset is there, whether it is numbered above that one's origin and not above the pool, and whether it has the guid
// of the snapshot with its number.
fn is_placed(dir: &Dir, row: &Bookmark, number: u64) -> bool
    ensures { (pool : Pool) (bookmark : plain.Bookmark) → AreNamed dir.now pool → pool.number ≡ number → NamesBookmark row.now bookmark
        → IsTrue result ↔ IsBookmarkOf pool bookmark }
{
    dir.dataset(&row.name.dataset()).is_some()
        && row.number <= number
        && is_above_origin(dir, row)
        && has_guid(dir, row)
}

fn told(row: &Bookmark) -> Report
    ensures { result ≡ Unsound row.now.name (dataset_of 35 row.now.name) 0 0 }
{
    Report::Unsound {
        earlier: NameText::new(row.name.text().as_bytes()),
        later: NameText::new(row.name.dataset().text().as_bytes()),
        object: 0,
        block: 0,
    }
}

/// The first bookmark that isn't so.
pub(crate) fn misplaced_bookmark(dir: &Dir, number: u64) -> Option<Report>
    ensures found { (pool : Pool) → AreNamed dir.now pool → pool.number ≡ number → Finds (AreBookmarks pool) (BadBookmark pool) result }
    ensures named { FindsNamed dir.now result }
{
    for row in dir.bookmarks() {
        if !is_placed(dir, row, number) {
            return Some(told(row));
        }
    }
    None
}
