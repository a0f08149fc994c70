// What stands before what, from origin to origin.
ghost use Rattle.std.specs.Prelude.{◌≡◌, ◌<◌, IfSome};
ghost use Rattle.zst_dir.specs.RowNames.{AreNamed, NamesSnapshot};
ghost use Rattle.zst_model.specs.pools.Ancestry as plain;
ghost use Rattle.zst_model.specs.pools.Pool.{Pool, Snapshot as Plain};
ghost use Rattle.zst_model.specs.sends.SendPlan.{comes_before, earlier_origin, origin_of};
ghost use Rattle.zst_plan.specs.Places.{FindAlike};
ghost use Rattle.zst_plan.specs.Sources.{NamesSource};
ghost use Rattle.zst_plan.specs.Sources.{FoundSnapshot};

use crate::lookups::{dataset_of, snapshot_named};
use crate::source::Source;
use zst_dir::{Dir, Snapshot};

// The origin of the snapshot's dataset.
fn origin_of<'a>(dir: &'a Dir, snapshot: &Snapshot) -> Option<&'a Snapshot>
    ensures { (pool : Pool) (later : Plain) → AreNamed dir.now pool → NamesSnapshot snapshot.now later → FindAlike FoundSnapshot result (origin_of pool later) }
{
    let dataset = dataset_of(dir, snapshot)?;
    let name = dataset.origin.as_ref()?;
    snapshot_named(dir, name)
}

// It, where its number is below the snapshot's.
fn earlier_origin<'a>(dir: &'a Dir, snapshot: &Snapshot) -> Option<&'a Snapshot>
    ensures below { IfSome result (λ origin. origin.now.number < snapshot.now.number) }
    ensures found { (pool : Pool) (later : Plain) → AreNamed dir.now pool → NamesSnapshot snapshot.now later → FindAlike FoundSnapshot result (earlier_origin pool later) }
{
    origin_of(dir, snapshot).filter(|origin| origin.number < snapshot.number)
}

/// Whether the source stands before the snapshot. The numbers of origins fall, so that it ends on
/// each directory.
pub fn comes_before(dir: &Dir, source: &Source<'_>, snapshot: &Snapshot) -> bool
    ensures { (pool : Pool) (from : plain.Source) (to : Plain) → AreNamed dir.now pool → NamesSource source.now from → NamesSnapshot snapshot.now to → result ≡ comes_before pool from to }
{
    let mut later = snapshot;
    while let Some(origin) = earlier_origin(dir, later) {
        if source.is_earlier(later) || source.marks(origin) {
            return true;
        }
        later = origin;
    }
    source.is_earlier(later)
}

/// Whether a snapshot stands before another.
pub fn snapshot_comes_before(dir: &Dir, snapshot: &Snapshot, later: &Snapshot) -> bool
    ensures { (pool : Pool) (from to : Plain) → AreNamed dir.now pool → NamesSnapshot snapshot.now from → NamesSnapshot later.now to → result ≡ comes_before pool (plain.OfSnapshot from) to }
{
    // What is looked at is the row alone, not where it stands.
    let source = Source::Snapshot {
        place: 0,
        row: snapshot,
    };
    comes_before(dir, &source, later)
}
