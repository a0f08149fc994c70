// The lists that a send is by, which are made or read as it is opened: of a redacted snapshot what is redacted in it, and
// of a bookmark what it lists.
ghost use Rattle.std.specs.Prelude.{◌≡◌, ◌<◌, true, length, Option, Some, IfErr, IfSome};
ghost use Rattle.zst_block.specs.IoCalls.{Looks};
ghost use Rattle.zst_block.specs.IoStates.{IsHonest, blocks_of, disk_of, io_of};
ghost use Rattle.zst_dir.specs.RowNames.{AreNamed, NamesSnapshot};
ghost use Rattle.zst_model.specs.pools.Ancestry.{Source, OfSnapshot};
ghost use Rattle.zst_model.specs.pools.Pool.{Pool, Bookmark, Snapshot as Plain};
ghost use Rattle.zst_model.specs.sends.SendPlan.{has_guids};
ghost use Rattle.zst_objset.specs.Sets.{SetHolds};
ghost use Rattle.zst_plan.specs.Places.{FindAlike, StandsAt};
ghost use Rattle.zst_plan.specs.Plans.{IsFrom, IsInside, bookmark_source};
ghost use Rattle.zst_pool.specs.Damage.{IsOf};
ghost use Rattle.zst_pool.specs.Lists.{IsUnread};
ghost use Rattle.zst_pool.specs.Queries.{stop_of};
ghost use Rattle.zst_send.specs.Openings.{GivesRuns, GivesSource, HasListOf, HoldsSource, IsDamagedFrom, IsDamagedList, IsDamagedRow, IsRedactedAt, IsUnlisted, redacted_source, runs_in};

use std::alloc::Global;
use zst_block::Io;
use zst_dir::{Dir, Snapshot};
use zst_list::read_list;
use zst_model::List;
use zst_outside::Disk;
use zst_plan::{SendPlan, has_guids};
use zst_pool::{PoolFault, of_built};
use zst_redact::redacted;

/// The list of what a send is from: what is redacted in a redacted snapshot, and what a bookmark lists. Any other source
/// has an empty one.
pub(crate) fn source_list<D: Disk>(
    io: &mut Io<'_, D>,
    alloc: Global,
    dir: &Dir,
    plan: &SendPlan,
) -> Result<List, PoolFault>
    requires inside { IsInside dir.now plan.now }
    // Where what it is of is there, it is given, or refused for its length, unless the disk or the memory fails.
    ensures found { (pool : Pool) (source : Option Source) → IsHonest io.new → AreNamed dir.now pool → IsFrom dir.now pool plan.now source
        → IfSome (redacted_source source) (HoldsSource (blocks_of io.old) dir.now pool) → IfSome (bookmark_source source) (HasListOf (blocks_of io.old) dir.now pool) → GivesSource source result }
    // Whatever the image, E23 comes only of a redacted snapshot, and E25 tells a block of what is read.
    ensures unlisted { IfErr result (IsUnlisted (IsRedactedAt dir.now plan.now.from_snap)) }
    ensures damaged { IsHonest io.new → IfErr result (IsOf (IsDamagedFrom io.old.space.end (disk_of io.old).seen (disk_of io.old).size dir.now plan.now)) }
    ensures looks { Looks (io_of io.old) (io_of io.new) (stop_of result) }
{
    match plan.from_snap {
        None => list_at(io, alloc, dir, plan.book_f),
        Some(place) => redacted_list(io, alloc, &dir.snapshots()[place]),
    }
}

// What is redacted in a snapshot; in one without redaction guids that is nothing, and nothing is read of it.
fn redacted_list<D: Disk>(
    io: &mut Io<'_, D>,
    alloc: Global,
    row: &Snapshot,
) -> Result<List, PoolFault>
    ensures found { (snapshot : Plain) → IsHonest io.new → NamesSnapshot row.now snapshot → (has_guids snapshot.redact ≡ true → SetHolds (blocks_of io.old) row.now.objects snapshot.objects)
        → GivesSource (Some (OfSnapshot snapshot)) result }
    ensures unlisted { IfErr result (IsUnlisted (has_guids row.now.redact ≡ true)) }
    ensures damaged { IsHonest io.new → IfErr result (IsOf (IsDamagedRow (disk_of io.old).seen (disk_of io.old).size row.now)) }
    ensures looks { Looks (io_of io.old) (io_of io.new) (stop_of result) }
{
    if !has_guids(&row.redact) {
        return Ok(List::empty(alloc));
    }
    of_built(redacted(io, alloc, &row.objects))
}

/// The list of the bookmark at a place of the directory; where there is no place it has no pairs.
pub(crate) fn list_at<D: Disk>(
    io: &mut Io<'_, D>,
    alloc: Global,
    dir: &Dir,
    place: Option<usize>,
) -> Result<List, PoolFault>
    requires inside { IfSome place (λ p. p < length dir.now.bookmarks) }
    // Where the bookmark's list is there, it is read, unless the disk or the memory fails.
    ensures found { (pool : Pool) (bookmark : Option Bookmark) → IsHonest io.new → FindAlike (StandsAt dir.now.bookmarks pool.bookmarks) place bookmark
        → IfSome bookmark (HasListOf (blocks_of io.old) dir.now pool) → GivesRuns (runs_in bookmark) result }
    // Whatever the image, E25 tells a block of it.
    ensures unread { IfErr result IsUnread }
    ensures damaged { IsHonest io.new → IfErr result (IsOf (IsDamagedList io.old.space.end (disk_of io.old).seen (disk_of io.old).size dir.now place)) }
    ensures looks { Looks (io_of io.old) (io_of io.new) (stop_of result) }
{
    let Some(place) = place else {
        return Ok(List::empty(alloc));
    };
    let row = &dir.bookmarks()[place];
    let list = read_list(io, alloc, row.levels, row.root, row.runs)?;
    Ok(list)
}
