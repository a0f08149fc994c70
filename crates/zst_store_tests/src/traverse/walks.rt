// Walks, and what they tell.
ghost use Rattle.std.specs.Prelude.{◌≡◌, ◌<◌};

use std::alloc::{AllocError, Global};
use std::marker::Brand;
use std::sync::ledger::{Blank, Ledger};
use zst_block::{BlockFault, Io};
use zst_model::{Cell, List, Point};
use zst_outside::Disk;
use zst_traverse::{WalkEntry, next_cell};
use zst_tree::{ObjSet, Steps};

// What a call finds, with its steps counted from 0.
fn counted<D: Disk, L: Ledger>(
    io: &mut Io<'_, D>,
    set: &ObjSet,
    from: Option<u64>,
    listed: &List,
    withheld: &List,
    at: Place,
    blank: Blank,
) -> Result<Option<WalkEntry>, BlockFault>
    requires name { blank.name ≡ L.name }
    requires parts { blank.parts ≡ L.parts }
    requires some { 0 < blank.parts }
    ensures same { io.new.disk.ghost_name ≡ io.old.disk.ghost_name }
{
    let mut steps = Steps::<L>::new(blank);
    next_cell(
        io, set, from, listed, withheld, at.point, at.slot, &mut steps,
    )
}

// That, in a ledger of its own.
pub(super) fn next<D: Disk>(
    io: &mut Io<'_, D>,
    set: &ObjSet,
    from: Option<u64>,
    listed: &List,
    withheld: &List,
    at: Place,
) -> Result<Option<WalkEntry>, BlockFault>
    ensures same { io.new.disk.ghost_name ≡ io.old.disk.ghost_name }
{
    counted::<D, Brand>(io, set, from, listed, withheld, at, Blank::new(1))
}

// Where a walk goes on.
#[derive(Clone, Copy, Debug)]
pub(super) struct Place {
    point: Point,
    slot: bool,
}

pub(super) fn at_slot(object: u64) -> Place {
    Place {
        point: Point { object, offset: 0 },
        slot: true,
    }
}

// What is found, without dnodes and pointers.
#[derive(Clone, Copy, Debug, PartialEq, Eq)]
pub(super) enum WalkAnswer {
    Object(u64),
    Gone(u64, u64),
    Pairs(u64, u64, u64, Cell),
    Nothing,
    Fault,
}

pub(super) fn told_of(found: Result<Option<WalkEntry>, BlockFault>) -> WalkAnswer {
    match found {
        Ok(Some(WalkEntry::Object { number, dnode: _ })) => WalkAnswer::Object(number),
        Ok(Some(WalkEntry::Gone { first, count })) => WalkAnswer::Gone(first, count),
        Ok(
            Some(
                WalkEntry::Pairs {
                    object,
                    first,
                    count,
                    what,
                    ptr: _,
                },
            ),
        ) => WalkAnswer::Pairs(object, first, count, what),
        Ok(None) => WalkAnswer::Nothing,
        Err(_) => WalkAnswer::Fault,
    }
}

// Where a walk goes on behind what is told, over blocks of 512 bytes.
fn behind(told: WalkAnswer, at: Place) -> Place {
    match told {
        WalkAnswer::Object(number) => Place {
            point: Point {
                object: number,
                offset: 0,
            },
            slot: false,
        },
        WalkAnswer::Gone(first, count) => at_slot(first.saturating_add(count)),
        WalkAnswer::Pairs(object, first, count, _) => Place {
            point: Point {
                object,
                offset: first.saturating_add(count).saturating_mul(512),
            },
            slot: false,
        },
        WalkAnswer::Nothing => at,
        WalkAnswer::Fault => at,
    }
}

// The first so many things that a walk tells, and the calls of the disk that it makes.
pub(super) fn walk<D: Disk>(
    alloc: Global,
    io: &mut Io<'_, D>,
    set: &ObjSet,
    from: Option<u64>,
    listed: &List,
    withheld: &List,
    count: usize,
) -> Result<(Vec<WalkAnswer>, u64), AllocError>
    ensures same { io.new.disk.ghost_name ≡ io.old.disk.ghost_name }
{
    let calls = io.disk.calls();
    let mut all = Vec::new(alloc);
    let mut at = at_slot(0);
    'calls: for _ in 0..count {
        let told = told_of(next(io, set, from, listed, withheld, at));
        all.push(told)?;
        at = behind(told, at);
    }
    Ok((all, io.disk.calls().saturating_sub(calls)))
}
