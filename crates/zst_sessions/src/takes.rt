// The events that take bytes of a send and feed nobody, and that close it.
ghost use Rattle.std.specs.Prelude.{◌≡◌, ◌==◌, ◌<◌, ◌≤◌, ◌^◌, ℕ, false, true, length, take, List, Option, IfOk};
ghost use Rattle.std.specs.List.{position};
ghost use Rattle.zst_block.specs.Blocks.{Has};
ghost use Rattle.zst_block.specs.IoStates.{IsHonest, disk_of};
ghost use Rattle.zst_image.specs.Commits.{Ready};
ghost use Rattle.zst_image.specs.Bodies.{free_by};
ghost use Rattle.zst_model.specs.declared.sends.header.Point.{Point};
ghost use Rattle.zst_model.specs.sends.Headers.{Sent};
ghost use Rattle.zst_script.specs.declared.event.Event.TheVariants as events;
ghost use Rattle.zst_send.specs.Sends.{SendFits, SendsFrom};
ghost use Rattle.zst_sessions.specs.EngineSteps.{EngineFits, StepsEngine, kept_pool, piece_limit};
ghost use Rattle.zst_sessions.specs.Engines.{kept_at};
ghost use Rattle.zst_sessions.specs.Moves.{no_session};
ghost use Rattle.zst_sessions.specs.Takes.{GaveOrStarved, LooksAtPool, TakesAt};

use crate::engine::Engine;
use crate::event_reply::EventReply;
use std::alloc::Global;
use zst_model::{AbsentSubject, PlanFault, Refusal};
use zst_outside::Disk;
use zst_pool::{Pool, PoolFault};
use zst_script::Side;
use zst_send::Send;

/// E3: no open session of this kind has the id.
pub(crate) fn no_session(id: u32) -> Refusal
    ensures { result ≡ no_session id }
{
    Refusal::Plan(PlanFault::NoSuch(AbsentSubject::Session(id)))
}

// Takes at most so many of the next bytes of a send of a pool into the front of a room, over the sectors that the latest body leaves free.
fn take_from<D: Disk>(
    pool: &mut Pool<'_, D>,
    alloc: Global,
    send: &mut Send,
    room: &mut [u8],
    count: usize,
) -> Result<usize, PoolFault>
    requires ready { pool.old.io.failed ≡ false → Ready (disk_of pool.old.io) pool.old.kept.body }
    requires send { SendFits send.old }
    requires count { count ≤ length room.old }
    // The next bytes of the text are given, over the blocks that the latest body leaves taken; or no memory is left for its free extents.
    ensures takes { (sent : Sent) (start : Option Point) (given left : List ℕ) → IsHonest pool.new.io → pool.old.io.failed ≡ false
        → SendsFrom (Has (disk_of pool.old.io).seen (free_by pool.old.kept.body)) send.old sent start given left
        → GaveOrStarved (Has (disk_of pool.new.io).seen (free_by pool.new.kept.body)) send.old send.new sent start given left (take count room.new) result }
    ensures idle { pool.old.io.failed ≡ true → send.new ≡ send.old }
    ensures within { IfOk result (λ taken. taken ≤ count) }
    ensures send { SendFits send.new }
    ensures pool { LooksAtPool pool.old pool.new result }
{
    if pool.io.failed {
        return Err(PoolFault::Failed);
    }
    pool.renew(alloc)?;
    send.take(pool, &mut room[..count])
}

impl<'a, 'b, D: Disk, E: Disk> Engine<'a, 'b, D, E> {
    // Whether the disk of a pool has failed.
    pub(crate) fn has_failed(&self, side: Side) -> bool
        ensures { result ≡ (kept_at side (kept_pool self.entry.now.here) (kept_pool self.entry.now.there)).failed }
    {
        match side {
            Side::Here => self.here.io.failed,
            Side::There => self.there.io.failed,
        }
    }

    // Where the send with this id stands in the list.
    pub(crate) fn send_place(&self, id: u32) -> Option<usize>
        ensures { result ≡ position (λ one. one.id == id) self.entry.now.sends.items }
    {
        self.sends.iter().position(|one| one.id == id)
    }

    // Takes at most so many bytes of the send at a place, into the room.
    pub(crate) fn take_at(
        &mut self,
        alloc: Global,
        place: usize,
        count: usize,
    ) -> Result<usize, Refusal>
        requires place { place < length self.old.sends.items }
        requires count { count ≤ piece_limit }
        requires fits { EngineFits self.old }
        ensures { TakesAt place count self.old self.new result }
    {
        let open = &mut self.sends[place];
        let taken = match open.side {
            Side::Here => take_from(
                &mut self.here,
                alloc,
                &mut open.send,
                self.room.as_mut_slice(),
                count,
            ),
            Side::There => take_from(
                &mut self.there,
                alloc,
                &mut open.send,
                self.room.as_mut_slice(),
                count,
            ),
        };
        Ok(taken?)
    }

    // Takes at most so many bytes of a send, and feeds nobody.
    pub(crate) fn drop_piece(
        &mut self,
        alloc: Global,
        id: u32,
        count: u32,
    ) -> Result<EventReply, Refusal>
        requires count { (1 ≤ count) × (count ≤ 2 ^ 20) }
        requires fits { EngineFits self.old }
        ensures { StepsEngine (events.Drop id count) self.old self.new result }
    {
        let Some(place) = self.send_place(id) else {
            return Err(no_session(id));
        };
        let taken = self.take_at(alloc, place, count as usize)?;
        Ok(EventReply::Dropped {
            taken: taken as u64,
        })
    }

    // Closes a send.
    pub(crate) fn close_send(&mut self, id: u32) -> Result<EventReply, Refusal>
        requires fits { EngineFits self.old }
        ensures { StepsEngine (events.Close id) self.old self.new result }
    {
        let Some(place) = self.send_place(id) else {
            return Err(no_session(id));
        };
        self.sends.remove(place);
        Ok(EventReply::Closed)
    }
}
