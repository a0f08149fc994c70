ghost use Rattle.std.specs.Prelude.{◌≡◌, ◌*◌, ◌+◌, ◌≤◌, true, Contains, List, None, Some, IfOk, IfSome, OnOk, min, ℕ};
ghost use Rattle.zst_block.specs.IoStates.{IsHonest, blocks_of, disk_of, io_of};
ghost use Rattle.zst_model.specs.declared.sends.header.Header.{Header};
ghost use Rattle.zst_model.specs.declared.states.item.Item.{Item};
ghost use Rattle.zst_model.specs.sends.View.{view_of};
ghost use Rattle.zst_model.specs.states.DatedState.{DatedState};
ghost use Rattle.zst_send.specs.Costs.{cells_due, cells_next, ended, looks_ahead};
ghost use Rattle.zst_send.specs.DueItems.{DueFits, is_run};
ghost use Rattle.zst_send.specs.HeldPointers.{pointer_due};
ghost use Rattle.zst_send.specs.KnownPointers.{DueStands, IsAmong, WalkStands};
ghost use Rattle.zst_send.specs.Subjects.{HoldsFor, IsTightFor, choice_for};
ghost use Rattle.zst_send.specs.WalkPositions.{ComesFirst, Gives, IsPositionOf, IsWalk, WalkFits, items_left};
ghost use Rattle.zst_send.specs.WalkReads.{StepsIn};
ghost use Rattle.zst_tree.specs.Indices.{Delivers};

use crate::due_items::{DueItems, joined};
use crate::subject::Subject;
use crate::walk_position::WalkPosition;
use zst_block::{BlockFault, Io, Ptr};
use zst_laws::held_goes_on;
use zst_model::Point;
use zst_outside::Disk;

/// A walk over what a view shows: where it stands, and what it found and hasn't given.
#[derive(Clone, Copy)]
pub(crate) struct Walk {
    pub position: WalkPosition,
    pub held: Option<DueItems>,
}

impl Walk {
    /// A walk that holds nothing and stands before what is at or after a point.
    pub(crate) fn start(point: Point) -> Walk
        ensures held { result.held ≡ None }
        ensures point { result.position.point ≡ point }
        ensures slot { result.position.slot ≡ true }
        ensures fits { WalkFits result }
    {
        Walk {
            position: WalkPosition::start(point),
            held: None,
        }
    }

    /// The pointer to the block that it found and hasn't given: an object's spill block, or one of its blocks.
    pub(crate) fn pointer_due(&self) -> Option<Ptr>
        ensures { result ≡ pointer_due self.now.held }
    {
        match self.held? {
            DueItems::Object { dnode, .. } => Some(dnode.spill),
            DueItems::Spill { ptr, .. } | DueItems::Block { ptr, .. } => Some(ptr),
            DueItems::Absent { .. }
            | DueItems::Tail { .. }
            | DueItems::Holes { .. }
            | DueItems::Redacted { .. } => None,
        }
    }

    /// What comes next: a run is as long as it can be. After a refusal the walk is of no use.
    pub(crate) fn next<D: Disk>(
        &mut self,
        io: &mut Io<'_, D>,
        subject: &Subject,
    ) -> Result<Option<DueItems>, BlockFault>
        requires walk { WalkFits self.old }

        // Of a set that holds a state but for what is withheld, the first item that is left comes next, and no damage is told.
        ensures gives { (header : Header) (snap : DatedState) (held : List Item) → IsHonest io.new → HoldsFor (blocks_of io.old) subject.now snap
            → IsWalk (blocks_of io.old) snap self.old held
            → Delivers (Gives (blocks_of io.new) snap (view_of header snap (choice_for subject.now)) (items_left (view_of header snap (choice_for subject.now)) self.old held) self.new) result }

        // What comes next may stand in the set, where what the walk holds may.
        ensures stands { (images : List (List ℕ)) → Contains images (disk_of io.old).seen → IsHonest io.new → WalkStands (IsAmong images) subject.now.set self.old
            → OnOk result (WalkStands (IsAmong images) subject.now.set self.new) × IfOk result (λ next. IfSome next (DueStands (IsAmong images) subject.now.set)) }

        // Whatever the image, what comes next is in its range, and damage is told of a block of the walk.
        ensures walk { WalkFits self.new }
        ensures steps { StepsIn subject.now.set (io_of io.old) (io_of io.new) result (λ next. IfSome next DueFits) }
        // Of a set whose slots are tight it reads at most 64 blocks for each included number or pair that comes, and for each look that it is further ahead.
        ensures few { (header : Header) (snap : DatedState) (held : List Item) → IsHonest io.new → IsTightFor (blocks_of io.old) subject.now snap
            → IsWalk (blocks_of io.old) snap self.old held
            → IfOk result (λ next. (disk_of io.new).calls + 64 * looks_ahead snap self.old ≤ (disk_of io.old).calls + 64 * (cells_next snap next + looks_ahead snap self.new)) }
    {
        let Some(due) = self.first(io, subject)? else {
            return Ok(None);
        };
        if due.is_run() {
            return Ok(Some(self.lengthened(io, subject, due)?));
        }
        self.held = due.behind();
        Ok(Some(due))
    }

    // What is held, or else what is found. It is held no longer.
    fn first<D: Disk>(
        &mut self,
        io: &mut Io<'_, D>,
        subject: &Subject,
    ) -> Result<Option<DueItems>, BlockFault>
        requires walk { WalkFits self.old }
        ensures goes { (header : Header) (snap : DatedState) (held : List Item) → IsHonest io.new → HoldsFor (blocks_of io.old) subject.now snap
            → IsWalk (blocks_of io.old) snap self.old held
            → Delivers (ComesFirst (blocks_of io.new) snap (view_of header snap (choice_for subject.now)) (items_left (view_of header snap (choice_for subject.now)) self.old held) self.new.position) result }
        ensures held { self.new.held ≡ None }
        ensures stands { (images : List (List ℕ)) → Contains images (disk_of io.old).seen → IsHonest io.new → WalkStands (IsAmong images) subject.now.set self.old
            → OnOk result (WalkStands (IsAmong images) subject.now.set self.new) × IfOk result (λ next. IfSome next (DueStands (IsAmong images) subject.now.set)) }
        ensures walk { WalkFits self.new }
        ensures steps { StepsIn subject.now.set (io_of io.old) (io_of io.new) result (λ next. IfSome next DueFits) }
        ensures ahead { (snap : DatedState) → IsHonest io.new → IsTightFor (blocks_of io.old) subject.now snap → IsPositionOf snap self.old.position
            → IfOk result (λ next. (disk_of io.new).calls + 64 * looks_ahead snap self.old ≤ (disk_of io.old).calls + 64 * (min 1 (cells_next snap next) + ended self.new.position)) }
    {
        match self.held {
            Some(due) => {
                self.held = None;
                Ok(Some(due))
            }
            None => self.position.find(io, subject),
        }
    }

    // A run joined with all that is found behind it and touches it. What is found last is held.
    fn lengthened<D: Disk>(
        &mut self,
        io: &mut Io<'_, D>,
        subject: &Subject,
        run: DueItems,
    ) -> Result<DueItems, BlockFault>
        requires walk { WalkFits self.old }
        requires run { (is_run run ≡ true) × DueFits run }
        ensures gives { (header : Header) (snap : DatedState) (left : List Item) → IsHonest io.new → HoldsFor (blocks_of io.old) subject.now snap
            → ComesFirst (blocks_of io.old) snap (view_of header snap (choice_for subject.now)) left self.old.position (Some run)
            → Delivers (λ due. Gives (blocks_of io.new) snap (view_of header snap (choice_for subject.now)) left self.new (Some due)) result }
        ensures stands { (images : List (List ℕ)) → Contains images (disk_of io.old).seen → IsHonest io.new
            → OnOk result (WalkStands (IsAmong images) subject.now.set self.new) × IfOk result (DueStands (IsAmong images) subject.now.set) }
        ensures walk { WalkFits self.new }
        ensures steps { StepsIn subject.now.set (io_of io.old) (io_of io.new) result DueFits }
        ensures few { (header : Header) (snap : DatedState) (left : List Item) → IsHonest io.new → IsTightFor (blocks_of io.old) subject.now snap
            → ComesFirst (blocks_of io.old) snap (view_of header snap (choice_for subject.now)) left self.old.position (Some run)
            → IfOk result (λ due. (disk_of io.new).calls + 64 * (cells_due snap run + ended self.old.position) ≤ (disk_of io.old).calls + 64 * (cells_due snap due + looks_ahead snap self.new)) }
    {
        held_goes_on();
        let mut run = run;
        let mut next = self.position.find(io, subject)?;
        while let Some(both) = joined(&run, &next) {
            run = both;
            next = self.position.find(io, subject)?;
        }
        self.held = next;
        Ok(run)
    }
}
