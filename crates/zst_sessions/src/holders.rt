// Which session is in the way of a command, of another session, or has an id.
ghost use Rattle.std.specs.Prelude.{◌≡◌, ◌≢◌, ◌==◌, ◌&&◌, ◌||◌, All, IfOk, List, None, bytes_eq, find};
ghost use Rattle.std.specs.List.{list_any};
ghost use Rattle.zst_dir.specs.Removal.{takes_snapshot};
ghost use Rattle.zst_dir.specs.RowNames.{AreNamed};
ghost use Rattle.zst_dir.specs.Rows.{is_for};
ghost use Rattle.zst_model.specs.pools.Pool.{Pool as Plain};
ghost use Rattle.zst_model.specs.pools.Sessions.{has_claimed, has_named, least_id, lesser, session_into as claiming, session_with};
ghost use Rattle.zst_sessions.specs.BusySessions.{busy_for};
ghost use Rattle.zst_sessions.specs.CommandSteps.{IsUnclaimed};
ghost use Rattle.zst_sessions.specs.EngineSteps.{coded_claim, coded_held, coded_hold, held_blocks, target_of};
ghost use Rattle.zst_sessions.specs.SessionHolders.{coded_holds, has_going, lesser_of, may_be_had};
ghost use Rattle.zst_sessions.specs.World.{is_side};
ghost use Rattle.zst_sessions.specs.declared.open_sessions.OpenReceive.{OpenReceive as OpenReceives};
ghost use Rattle.zst_sessions.specs.declared.open_sessions.OpenSend.{OpenSend as OpenSends};

use crate::open_sessions::{OpenReceive, OpenSend};
use std::alloc::{AllocError, Global};
use zst_dir::{Dir, Removal};
use zst_model::{Command, Name};
use zst_names::{DatasetName, SnapName};
use zst_roots::HeldBlocks;
use zst_script::Side;

// Whether two sides are one.
fn is_side(one: Side, other: Side) -> bool
    ensures { result ≡ is_side one other }
{
    match (one, other) {
        (Side::Here, Side::Here) | (Side::There, Side::There) => true,
        (Side::Here, Side::There) | (Side::There, Side::Here) => false,
    }
}

/// What the sends of a pool hold of it.
pub(crate) fn held_blocks(
    alloc: Global,
    sends: &[OpenSend],
    side: Side,
) -> Result<Vec<HeldBlocks>, AllocError>
    ensures { IfOk result (λ held. held.items ≡ held_blocks side sends.now) }
{
    let mut held = Vec::new(alloc);
    for one in sends {
        if is_side(one.side, side) {
            held.push(one.send.held())?;
        }
    }
    Ok(held)
}

// The lesser of an id and another, where there is another.
fn lesser(id: u32, other: Option<u32>) -> u32
    ensures { result ≡ lesser id other }
{
    match other {
        None => id,
        Some(other) => id.min(other),
    }
}

// The lesser of two ids, or the one that is there.
fn lesser_of(one: Option<u32>, other: Option<u32>) -> Option<u32>
    ensures { result ≡ lesser_of one other }
{
    match one {
        None => other,
        Some(id) => Some(lesser(id, other)),
    }
}

// Whether a send of this pool has what is named.
fn has_named(one: &OpenSend, side: Side, name: &Name) -> bool
    ensures { result ≡ (is_side one.now.side side && has_named name.now (coded_hold one.now)) }
{
    if !is_side(one.side, side) {
        return false;
    }
    match name {
        Name::Dataset(name) => one.snapshot.dataset() == *name,
        Name::Snapshot(name) => one.snapshot == *name,
        Name::Bookmark(_) => false,
    }
}

// The least id of the sends of this pool that have what is named.
fn least_send_with(sends: &[OpenSend], side: Side, name: &Name) -> Option<u32>
    ensures { result ≡ least_id (has_named name.now) (coded_holds side sends.now) }
{
    let mut least = None;
    for one in sends {
        if has_named(one, side, name) {
            least = Some(lesser(one.id, least));
        }
    }
    least
}

// Whether the snapshot of this name goes.
fn is_going(dir: &Dir, going: &Removal, name: &SnapName) -> bool
    ensures { result ≡ list_any (λ row. takes_snapshot going.now row && bytes_eq name.now row.name) dir.now.snapshots }
{
    dir.snapshots()
        .iter()
        .any(|row| going.takes_snapshot(row) && *name == row.name)
}

// Whether a send of this pool holds a snapshot that goes.
fn has_going(dir: &Dir, one: &OpenSend, side: Side, going: &Removal) -> bool
    ensures { result ≡ (is_side one.now.side side && has_going going.now dir.now (coded_hold one.now)) }
{
    is_side(one.side, side) && is_going(dir, going, &one.snapshot)
}

// The least id of the sends of this pool that hold a snapshot that goes.
fn least_send_of(dir: &Dir, sends: &[OpenSend], side: Side, going: &Removal) -> Option<u32>
    ensures { result ≡ least_id (has_going going.now dir.now) (coded_holds side sends.now) }
{
    let mut least = None;
    for one in sends {
        if has_going(dir, one, side, going) {
            least = Some(lesser(one.id, least));
        }
    }
    least
}

// Whether a receive of this pool is into this dataset.
fn has_claimed(one: &OpenReceive, side: Side, target: &DatasetName) -> bool
    ensures { result ≡ (is_side one.now.side side && has_claimed target.now (coded_claim one.now)) }
{
    is_side(one.side, side) && *one.recv.target() == *target
}

/// The session that receives into a dataset of a pool, the one with the least id of several.
pub(crate) fn session_into(
    receives: &[OpenReceive],
    side: Side,
    target: &DatasetName,
) -> Option<u32>
    ensures into { (sends : List OpenSends) → result ≡ claiming target.now (coded_held side sends receives.now) }
    ensures none { result ≡ None → All (λ one. one.side ≡ side → target_of one ≢ target.now) receives.now }
{
    let mut least = None;
    for one in receives {
        if has_claimed(one, side, target) {
            least = Some(lesser(one.id, least));
        }
    }
    least
}

// The session that has what is named, the one with the least id of several.
fn session_with(
    sends: &[OpenSend],
    receives: &[OpenReceive],
    side: Side,
    name: &Name,
) -> Option<u32>
    ensures { result ≡ session_with name.now (coded_held side sends.now receives.now) }
{
    let holding = least_send_with(sends, side, name);
    match name {
        Name::Dataset(target) => lesser_of(holding, session_into(receives, side, target)),
        Name::Snapshot(_) => holding,
        Name::Bookmark(_) => None,
    }
}

// Whether what has this name is there and may be a session's: a dataset or a snapshot.
fn may_be_had(dir: &Dir, name: &Name) -> bool
    ensures { result ≡ may_be_had name.now dir.now }
{
    match name {
        Name::Dataset(name) => dir.dataset(name).is_some(),
        Name::Snapshot(name) => dir.snapshot(name).is_some(),
        Name::Bookmark(_) => false,
    }
}

// The session that has what a destroy names.
fn holder_of_named(
    dir: &Dir,
    sends: &[OpenSend],
    receives: &[OpenReceive],
    side: Side,
    name: &Name,
) -> Option<u32>
    ensures { (running : Plain) → AreNamed dir.now running → result ≡ busy_for (coded_held side sends.now receives.now) (Command.Destroy name.now) running }
{
    if !may_be_had(dir, name) {
        return None;
    }
    session_with(sends, receives, side, name)
}

// The session that receives into the dataset whose partial state is to be given up.
fn holder_of_partial(
    dir: &Dir,
    receives: &[OpenReceive],
    side: Side,
    target: &DatasetName,
) -> Option<u32>
    ensures busy { (sends : List OpenSends) (running : Plain) → AreNamed dir.now running → result ≡ busy_for (coded_held side sends receives.now) (Command.Abort target.now) running }
    ensures claimed { result ≡ None → find (is_for target.now) dir.now.partials ≢ None → All (λ one. one.side ≡ side → target_of one ≢ target.now) receives.now }
{
    if dir.partial(target).is_none() {
        return None;
    }
    session_into(receives, side, target)
}

// The session that holds a snapshot which a rollback to this one destroys.
fn holder_of_newer(
    dir: &Dir,
    sends: &[OpenSend],
    side: Side,
    destroys: bool,
    name: &SnapName,
) -> Option<u32>
    ensures { (receives : List OpenReceives) (running : Plain) → AreNamed dir.now running → result ≡ busy_for (coded_held side sends.now receives) (Command.Rollback destroys name.now) running }
{
    if !destroys {
        return None;
    }
    let snapshots = dir.snapshots();
    let Some(place) = dir.snapshot(name) else {
        return None;
    };
    let row = &snapshots[place];
    let going = Removal::Newer {
        dataset: row.name.dataset(),
        number: row.number,
    };
    least_send_of(dir, sends, side, &going)
}

/// The session that has what a command is to destroy or to give up, the one with the least id of several.
pub(crate) fn holder_for(
    dir: &Dir,
    sends: &[OpenSend],
    receives: &[OpenReceive],
    side: Side,
    command: &Command,
) -> Option<u32>
    // As the definition says of each pool that the rows name.
    ensures busy { (running : Plain) → AreNamed dir.now running → result ≡ busy_for (coded_held side sends.now receives.now) command.now running }
    // Whatever the image: where there is none, the command isn't to give up what a session receives into.
    ensures claimed { result ≡ None → IsUnclaimed side command.now dir.now receives.now }
{
    match command {
        Command::Rollback { destroys, snapshot } => {
            holder_of_newer(dir, sends, side, *destroys, snapshot)
        }
        Command::Destroy { name } => holder_of_named(dir, sends, receives, side, name),
        Command::Abort { dataset } => holder_of_partial(dir, receives, side, dataset),
        _ => None,
    }
}

// Whether a send has this id, and whether a receive has it.
fn is_send(sends: &[OpenSend], id: u32) -> bool
    ensures { result ≡ list_any (λ one. one.id == id) sends.now }
{
    sends.iter().any(|one| one.id == id)
}

fn is_receive(receives: &[OpenReceive], id: u32) -> bool
    ensures { result ≡ list_any (λ one. one.id == id) receives.now }
{
    receives.iter().any(|one| one.id == id)
}

/// Whether a session of either kind has this id.
pub(crate) fn is_used(sends: &[OpenSend], receives: &[OpenReceive], id: u32) -> bool
    ensures { result ≡ (list_any (λ one. one.id == id) sends.now || list_any (λ one. one.id == id) receives.now) }
{
    is_send(sends, id) || is_receive(receives, id)
}
