// Rows that have an object set, and what these sets reach.
ghost use Rattle.std.specs.Prelude.{◌≡◌, ◌⊎◌, ℕ, List, All, OnOk};
ghost use Rattle.zst_block.specs.Blocks.{IsBlock};
ghost use Rattle.zst_block.specs.IoStates.{IsHonest, blocks_of, disk_of, io_of};
ghost use Rattle.zst_block.specs.IoCalls.{Looks, stop_of};
ghost use Rattle.zst_dir.specs.Rows.{Rows};
ghost use Rattle.zst_marks.specs.Marks.{HasRoomFor, IsMarked, MarksMore};
ghost use Rattle.zst_objset.specs.Damage.{IfDamaged};
ghost use Rattle.zst_reach.specs.ReachedSets.{AllMarked, ReachesInSet};
ghost use Rattle.zst_tree.specs.Damage.{IsSeen};
ghost use Rattle.zst_tree.specs.Indices.{Delivers};
ghost use Rattle.zst_tree.specs.declared.tree.ObjSet.{ObjSet as Set};
ghost use Rattle.zst_roots.specs.ReachedRows.{AreMarkedForSnapshots, IsReachedBySome};
ghost use Rattle.zst_roots.specs.RowDamage.{IsDamagedIn, IsToldOfSome};
ghost use Rattle.zst_roots.specs.StandingRows.{HoldsSome};

use crate::nearest::{before_head, before_partial, objects_at};
use zst_block::{BlockFault, Io};
use zst_dir::{Dataset, Dir, Partial};
use zst_marks::Marks;
use zst_outside::Disk;
use zst_reach::mark_set;
use zst_tree::ObjSet;

// A row that has an object set, and is walked beside a snapshot.
pub(crate) trait SetRow: Sized {
    // The rows of its kind, and its set.
    ghost rows: { Rows → List Self };

    ghost set: { Self → Set };

    // The rows of its kind.
    fn rows(dir: &Dir) -> &[Self]
        ensures { result.now ≡ rows dir.now };

    // Its set.
    fn set(&self) -> &ObjSet
        ensures { result.now ≡ set self.now };

    // The place of the snapshot before it, in whose set the most is that its own has.
    fn before(&self, dir: &Dir) -> Option<usize>;
}

impl SetRow for Dataset {
    ghost rows = { λ dir. dir.datasets };

    ghost set = { λ row. row.head };

    fn rows(dir: &Dir) -> &[Dataset] {
        dir.datasets()
    }

    fn set(&self) -> &ObjSet {
        &self.head
    }

    fn before(&self, dir: &Dir) -> Option<usize> {
        before_head(dir, self)
    }
}

impl SetRow for Partial {
    ghost rows = { λ dir. dir.partials };

    ghost set = { λ row. row.objects };

    fn rows(dir: &Dir) -> &[Partial] {
        dir.partials()
    }

    fn set(&self) -> &ObjSet {
        &self.objects
    }

    fn before(&self, dir: &Dir) -> Option<usize> {
        before_partial(dir, self)
    }
}

// Marks what each row of a kind reaches, beside the snapshot before it. What all snapshots reach was marked before.
pub(crate) fn mark_sets<D: Disk, R: SetRow>(
    io: &mut Io<'_, D>,
    marks: &mut Marks,
    end: u64,
    dir: &Dir,
) -> Result<(), BlockFault>
    requires room { HasRoomFor marks.old end }
    ensures all { IsHonest io.new → AreMarkedForSnapshots (disk_of io.old).seen end marks.old dir.now.snapshots
        → OnOk result (AllMarked (disk_of io.old).seen end marks.new (IsReachedBySome (R.rows dir.now) (λ row. ReachesInSet (IsBlock (disk_of io.old).seen) (R.set row)))) }
    ensures only { IsHonest io.new → (sector : ℕ) → IsMarked marks.new sector → IsMarked marks.old sector ⊎ IsReachedBySome (R.rows dir.now) (λ row. ReachesInSet (IsBlock (disk_of io.old).seen) (R.set row)) sector }
    ensures more { MarksMore marks.old marks.new }
    ensures stands { IsHonest io.new → All (λ row. HoldsSome (blocks_of io.old) (R.set row)) (R.rows dir.now) → Delivers (λ done. Unit {0}) result }
    ensures damaged { IsHonest io.new → IfDamaged result (IsToldOfSome (R.rows dir.now) (λ row. IsDamagedIn (IsSeen (disk_of io.old).seen) (disk_of io.old).size (R.set row))) }
    ensures looks { Looks (io_of io.old) (io_of io.new) (stop_of result) }
{
    for row in R::rows(dir) {
        let known = objects_at(dir.snapshots(), row.before(dir));
        mark_set(io, marks, end, row.set(), &known)?;
    }
    Ok(())
}
