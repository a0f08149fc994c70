ghost use Rattle.std.specs.Prelude.{◌≡◌, ◌*◌, ◌+◌, ◌<◌, ◌≤◌, true, Contains, IfOk, IfSome, List, None, Ok, ℕ};
ghost use Rattle.zst_block.specs.IoStates.{IsHonest, blocks_of, disk_of, io_of};
ghost use Rattle.zst_model.specs.declared.sends.header.Header.{Header};
ghost use Rattle.zst_model.specs.sends.View.{view_of};
ghost use Rattle.zst_model.specs.states.DatedState.{DatedState};
ghost use Rattle.zst_model.specs.states.State.{number_bound};
ghost use Rattle.zst_send.specs.Costs.{cells_due, ended, is_ended};
ghost use Rattle.zst_send.specs.DueItems.{DueFits};
ghost use Rattle.zst_send.specs.KnownPointers.{DueStands, IsAmong};
ghost use Rattle.zst_send.specs.Subjects.{HoldsFor, IsTightFor, choice_for};
ghost use Rattle.zst_send.specs.WalkPositions.{GoesTo, IsPositionOf, PositionFits, position_after};
ghost use Rattle.zst_send.specs.WalkReads.{FindsNext, StepsIn};
ghost use Rattle.zst_traverse.specs.Cells.{FoundFits};
ghost use Rattle.zst_tree.specs.Indices.{Delivers};

use crate::due_items::{DueItems, due_of};
use crate::subject::Subject;
use std::marker::Brand;
use std::sync::ledger::{Blank, Ledger};
use zst_block::{BlockFault, Io};
use zst_laws::{block_run_is_next, gone_run_is_next, object_is_next, walk_ends};
use zst_model::Point;
use zst_model::limits::NUMBER_BOUND;
use zst_outside::Disk;
use zst_traverse::{WalkEntry, next_cell};
use zst_tree::Steps;

/// Where a walk stands.
#[derive(Clone, Copy)]
pub(crate) struct WalkPosition {
    pub point: Point,
    /// Whether the point's own number comes first.
    pub slot: bool,
    /// The type of the object that was passed last.
    pub type_: u32,
    /// The size of its blocks in bytes.
    pub block_size: u32,
}

// The position behind what was found.
fn position_after(position: &WalkPosition, found: &WalkEntry) -> WalkPosition
    requires position { PositionFits position.now }
    requires found { FoundFits position.now.point found.now }
    ensures position { result ≡ position_after position.now found.now }
    ensures fits { PositionFits result }
{
    match *found {
        WalkEntry::Object { number, dnode } => WalkPosition {
            point: Point {
                object: number,
                offset: if number == position.point.object {
                    position.point.offset
                } else {
                    0
                },
            },
            slot: false,
            type_: dnode.type_,
            block_size: dnode.block_size,
        },
        WalkEntry::Gone { first, count } => WalkPosition {
            point: Point {
                object: first + count,
                offset: 0,
            },
            slot: true,
            ..*position
        },
        WalkEntry::Pairs {
            object,
            first,
            count,
            ..
        } => WalkPosition {
            point: Point {
                object,
                offset: (first + count) * u64::from(position.block_size),
            },
            slot: false,
            ..*position
        },
    }
}

impl WalkPosition {
    /// At a point, whose own number comes first. No object was passed yet, and any block size stands for that.
    pub(crate) fn start(point: Point) -> WalkPosition
        ensures point { result.point ≡ point }
        ensures slot { result.slot ≡ true }
        ensures fits { PositionFits result }
    {
        WalkPosition {
            point,
            slot: true,
            type_: 0,
            block_size: 512,
        }
    }

    // Behind all numbers.
    #[tactic(auto, unfolding(zst_model::specs::states::State::number_bound))]
    fn at_end(&self) -> WalkPosition
        ensures point { number_bound ≤ result.point.object }
        ensures slot { result.slot ≡ true }
        ensures ended { ended result ≡ 1 }
        ensures fits { PositionFits self.now → PositionFits result }
    {
        WalkPosition {
            point: Point {
                object: NUMBER_BOUND,
                offset: 0,
            },
            slot: true,
            ..*self
        }
    }

    // Whether it is behind all numbers.
    #[tactic(auto, unfolding(zst_model::specs::states::State::number_bound))]
    fn is_ended(&self) -> bool
        ensures { result ≡ is_ended self.now }
    {
        self.slot && self.point.object >= NUMBER_BOUND
    }

    /// Finds what comes first of what is left, and goes behind it.
    pub(crate) fn find<D: Disk>(
        &mut self,
        io: &mut Io<'_, D>,
        subject: &Subject,
    ) -> Result<Option<DueItems>, BlockFault>
        requires position { PositionFits self.old }

        // Of a set that holds a state but for what is withheld, what is found comes first, and no damage is told.
        ensures found { (header : Header) (snap : DatedState) → IsHonest io.new → HoldsFor (blocks_of io.old) subject.now snap → IsPositionOf snap self.old
            → Delivers (GoesTo (blocks_of io.new) snap (view_of header snap (choice_for subject.now)) self.old self.new) result }

        // What is found may stand in the set.
        ensures stands { (images : List (List ℕ)) → Contains images (disk_of io.old).seen → IsHonest io.new → IfOk result (λ found. IfSome found (DueStands (IsAmong images) subject.now.set)) }

        // Whatever the image, what is found is in its range, and damage is told of a block of the walk.
        ensures position { PositionFits self.new }
        ensures steps { StepsIn subject.now.set (io_of io.old) (io_of io.new) result (λ found. IfSome found DueFits) }
        // Of a set whose slots are tight it reads at most 64 blocks, and behind all numbers none. Where nothing is found it goes behind them, and else what is found has an included number or pair.
        ensures few { (snap : DatedState) → IsHonest io.new → IsTightFor (blocks_of io.old) subject.now snap
            → (disk_of io.new).calls + 64 * ended self.old ≤ (disk_of io.old).calls + 64 }
        ensures ends { result ≡ Ok None → ended self.new ≡ 1 }
        ensures counted { (snap : DatedState) → IsHonest io.new → HoldsFor (blocks_of io.old) subject.now snap → IsPositionOf snap self.old
            → IfOk result (λ found. IfSome found (λ due. 0 < cells_due snap due)) }
    {
        walk_ends();
        object_is_next();
        gone_run_is_next();
        block_run_is_next();
        let Some(found) = next_found(io, subject, self)? else {
            // Who asks again looks at no block.
            *self = self.at_end();
            return Ok(None);
        };
        let position = position_after(self, &found);
        let due = due_of(found, position.type_, position.block_size);
        *self = position;
        Ok(Some(due))
    }
}

// What is found at a position, its steps counted from 0 in a ledger of their own. Behind all numbers
// nothing is looked for.
fn next_found<D: Disk>(
    io: &mut Io<'_, D>,
    subject: &Subject,
    position: &WalkPosition,
) -> Result<Option<WalkEntry>, BlockFault>
    ensures finds { FindsNext subject.now position.now (io_of io.old) (io_of io.new) result }
    ensures few { (snap : DatedState) → IsHonest io.new → IsTightFor (blocks_of io.old) subject.now snap
        → (disk_of io.new).calls + 64 * ended position.now ≤ (disk_of io.old).calls + 64 }
{
    if position.is_ended() {
        return Ok(None);
    }
    counted::<D, Brand>(io, subject, position, Blank::new(1))
}

// That, in this ledger.
fn counted<D: Disk, L: Ledger>(
    io: &mut Io<'_, D>,
    subject: &Subject,
    position: &WalkPosition,
    blank: Blank,
) -> Result<Option<WalkEntry>, BlockFault>
    requires name { blank.name ≡ L.name }
    requires parts { blank.parts ≡ L.parts }
    requires some { 0 < blank.parts }
    ensures finds { FindsNext subject.now position.now (io_of io.old) (io_of io.new) result }
    ensures few { (snap : DatedState) → IsHonest io.new → IsTightFor (blocks_of io.old) subject.now snap → (disk_of io.new).calls ≤ (disk_of io.old).calls + 64 }
{
    let mut steps = Steps::<L>::new(blank);
    next_cell(
        io,
        &subject.set,
        subject.source,
        &subject.listed,
        &subject.redact,
        position.point,
        position.slot,
        &mut steps,
    )
}
