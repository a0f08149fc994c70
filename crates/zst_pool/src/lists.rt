// The lists of bookmarks.
ghost use Rattle.std.specs.Prelude.{◌≡◌, List, None, false, Some, IfErr, IfOk, IfSome, Err, option_map};
ghost use Rattle.zst_block.specs.IoStates.{IsHonest, blocks_of, disk_of};
ghost use Rattle.zst_model.specs.fields.Lists.{Runs};
ghost use Rattle.zst_model.specs.pools.Pool.{Pool as Plain, bookmark_named};
ghost use Rattle.zst_leaves.specs.Leaves.{BlocksBefore};
ghost use Rattle.zst_list.specs.StoredLists.{HasList};
ghost use Rattle.zst_image.specs.Reads.{RunsBy};
ghost use Rattle.zst_pool.specs.Events.{LooksUp, ReadsOnly};
ghost use Rattle.zst_pool.specs.Lists.{AnswersNamed, AnswersRow, GivesList, GivesListed, StandsBelow, TellsRow, list_by, row_named};

use crate::fault::PoolFault;
use crate::pool::Pool;
use std::alloc::Global;
use zst_block::Io;
use zst_dir::{Bookmark, Dir};
use zst_list::read_list;
use zst_model::{AbsentSubject, List, Name, PlanFault};
use zst_names::BookName;
use zst_outside::Disk;

impl<'d, D: Disk> Pool<'d, D> {
    /// The list of a bookmark of the pool that runs, and none exactly where nothing redacted it.
    pub fn list_of(&mut self, alloc: Global, book: &BookName) -> Result<Option<List>, PoolFault>
        // Where the rows stand for a pool, it is the list of that pool's bookmark, unless the disk or the memory fails.
        ensures found { (pool : Plain) → IsHonest self.new.io → self.old.io.failed ≡ false → RunsBy None (blocks_of self.old.io) self.old.kept.dir pool
            → GivesList book.now (bookmark_named book.now pool) result }
        // Whatever the image is, E3 comes exactly where no row has the name, and what is given stands below the row's root, before the end.
        ensures rows { self.old.io.failed ≡ false → AnswersNamed book.now (row_named book.now self.old.kept.dir) result }
        ensures stands { IsHonest self.new.io
            → IfOk result (λ list. IfSome (row_named book.now self.old.kept.dir) (λ row. StandsBelow (BlocksBefore self.old.io.space.end (disk_of self.old.io).seen) row list)) }
        ensures damaged { IsHonest self.new.io
            → IfErr result (λ fault. IfSome (row_named book.now self.old.kept.dir) (λ row. TellsRow self.old.io.space.end (disk_of self.old.io).seen (disk_of self.old.io).size row fault)) }
        ensures looks_up { LooksUp self.old self.new result }
    {
        if self.io.failed {
            return Err(PoolFault::Failed);
        }
        match row_of(&self.kept.dir, book) {
            None => Err(PoolFault::Plan(no_such(book))),
            Some(row) => read_row(&mut self.io, alloc, &row),
        }
    }
}

// The row of a bookmark.
fn row_of(dir: &Dir, book: &BookName) -> Option<Bookmark>
    ensures { result ≡ option_map (λ row. row) (row_named book.now dir.now) }
{
    dir.bookmarks()
        .iter()
        .find(|row| row.name == *book)
        .map(|row| row.duplicate())
}

fn no_such(book: &BookName) -> PlanFault
    ensures { result ≡ PlanFault.NoSuch (AbsentSubject.Named (Name.Bookmark book.now)) }
{
    PlanFault::NoSuch(AbsentSubject::Named(Name::Bookmark(book.duplicate())))
}

// The list of the bookmark that has this row.
fn read_row<D: Disk>(
    io: &mut Io<'_, D>,
    alloc: Global,
    row: &Bookmark,
) -> Result<Option<List>, PoolFault>
    ensures found { (runs : Runs) → IsHonest io.new → HasList (blocks_of io.old) row.now.levels row.now.root row.now.runs runs → GivesListed (list_by row.now.redact runs) result }
    ensures rows { AnswersRow row.now result }
    ensures stands { IsHonest io.new → IfOk result (StandsBelow (BlocksBefore io.old.space.end (disk_of io.old).seen) row.now) }
    ensures damaged { IsHonest io.new → IfErr result (TellsRow io.old.space.end (disk_of io.old).seen (disk_of io.old).size row.now) }
    ensures reads_only { ReadsOnly io.old io.new result }
{
    if row.redact.as_slice().is_empty() {
        return Ok(None);
    }
    let list = read_list(io, alloc, row.levels, row.root, row.runs)?;
    Ok(Some(list))
}
