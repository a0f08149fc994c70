// The events that end a receive, or all sessions of a pool, which is then opened again.
ghost use Rattle.std.specs.Prelude.{◌≡◌, ◌==◌, ℕ, Err, false, filter, not};
ghost use Rattle.std.specs.List.{position};
ghost use Rattle.zst_block.specs.IoStates.{disk_of};
ghost use Rattle.zst_image.specs.Commits.{Ready};
ghost use Rattle.zst_outside.specs.Causes.{Rose};
ghost use Rattle.zst_recv.specs.Stages.{RecvFits};
ghost use Rattle.zst_script.specs.declared.event.Event.TheVariants as events;
ghost use Rattle.zst_sessions.specs.Endings.{EndsReceive, OpensAgain};
ghost use Rattle.zst_sessions.specs.EngineSteps.{EngineFits, IsLaterPool, StepsEngine, kept_pool};
ghost use Rattle.zst_sessions.specs.World.{is_side};

use crate::engine::Engine;
use crate::event_reply::EventReply;
use crate::laws::{moves_keep_worlds, numbers_rise, sessions_stand_beside};
use crate::open_sessions::{OpenReceive, OpenSend};
use crate::takes::no_session;
use std::alloc::Global;
use zst_extents::root_has_one_set_of_extents;
use zst_model::{Refusal, StreamFault};
use zst_outside::Disk;
use zst_pool::Pool;
use zst_recv::{Recv, ends_leave_rows};
use zst_script::Side;

// Whether a session of one pool stays where those of another end.
fn differs(one: Side, side: Side) -> bool
    ensures { result ≡ not (is_side one side) }
{
    match (one, side) {
        (Side::Here, Side::Here) | (Side::There, Side::There) => false,
        (Side::Here, Side::There) | (Side::There, Side::Here) => true,
    }
}

// Ends the sends of a pool.
fn end_sends(sends: &mut Vec<OpenSend>, side: Side)
    ensures { sends.new.items ≡ filter (λ one. not (is_side one.side side)) sends.old.items }
{
    sends.retain(|one| differs(one.side, side));
}

// Ends the receives of a pool.
fn end_receives(receives: &mut Vec<OpenReceive>, side: Side)
    ensures { receives.new.items ≡ filter (λ one. not (is_side one.side side)) receives.old.items }
{
    receives.retain(|one| differs(one.side, side));
}

// Ends a receive of a pool: its partial state stays only where it is kept.
fn end_receive<D: Disk>(pool: &mut Pool<'_, D>, recv: Recv)
    requires ready { pool.old.io.failed ≡ false → Ready (disk_of pool.old.io) pool.old.kept.body }
    requires recv { RecvFits pool.old.kept.dir recv }
    ensures ends { EndsReceive (kept_pool pool.old) (kept_pool pool.new) recv }
    ensures io { pool.new.io ≡ pool.old.io }
{
    ends_leave_rows();
    let _cut = recv.cut(pool);
    let _lawful = pool.kept.dir.datasets();
}

// Drops what isn't kept of a pool, and opens it again: its number.
fn open_again<D: Disk>(pool: &mut Pool<'_, D>, alloc: Global) -> Result<u64, Refusal>
    requires ready { pool.old.io.failed ≡ false → Ready (disk_of pool.old.io) pool.old.kept.body }
    ensures opens { OpensAgain (kept_pool pool.old) (kept_pool pool.new) result }
    ensures later { IsLaterPool pool.old pool.new }
    ensures cause { result ≡ Err Refusal.DiskFault → Rose (disk_of pool.old.io).faults (disk_of pool.new.io).faults }
    ensures open_still { ¬ (result ≡ Err Refusal.Failed) }
{
    root_has_one_set_of_extents();
    pool.drop_unkept();
    pool.reopen(alloc)?;
    Ok(pool.kept.body.uber().number)
}

impl<'a, 'b, D: Disk, E: Disk> Engine<'a, 'b, D, E> {
    // Ends a receive: E20, with the count of its bytes.
    pub(crate) fn cut_receive(&mut self, id: u32) -> Result<EventReply, Refusal>
        requires fits { EngineFits self.old }
        ensures { StepsEngine (events.Cut id) self.old self.new result }
    {
        moves_keep_worlds();
        numbers_rise();
        sessions_stand_beside();
        let Some(place) = self.receive_place(id) else {
            return Err(no_session(id));
        };
        let OpenReceive { side, recv, .. } = self.receives.remove(place);
        let at = recv.fed();
        match side {
            Side::Here => end_receive(&mut self.here, recv),
            Side::There => end_receive(&mut self.there, recv),
        }
        Err(Refusal::Stream(StreamFault::Truncated { at }))
    }

    // Ends all sessions of a pool without a commit, and opens it again; where that is refused they have ended all the same.
    pub(crate) fn reopen_pool(&mut self, alloc: Global, side: Side) -> Result<EventReply, Refusal>
        requires fits { EngineFits self.old }
        ensures { StepsEngine (events.Reopen side) self.old self.new result }
    {
        moves_keep_worlds();
        end_sends(&mut self.sends, side);
        end_receives(&mut self.receives, side);
        let opened = match side {
            Side::Here => open_again(&mut self.here, alloc),
            Side::There => open_again(&mut self.there, alloc),
        };
        Ok(EventReply::Opened { number: opened? })
    }
}
