// The events that run a command of a pool or tell a token.
ghost use Rattle.std.specs.Prelude.{◌≡◌, ◌≢◌, ℕ, List, IsTrue, Err, None, false, true};
ghost use Rattle.zst_outside.specs.Causes.{Rose};
ghost use Rattle.zst_block.specs.IoStates.{IsHonest, disk_of};
ghost use Rattle.zst_dir.specs.RowNames.{AreNamed};
ghost use Rattle.zst_image.specs.Commits.{Ready};
ghost use Rattle.zst_model.specs.pools.Pool.{Pool as Plain};
ghost use Rattle.zst_model.specs.pools.Sessions.{Held, busy_session};
ghost use Rattle.zst_model.specs.pools.Step.{IsCommand, stepped};
ghost use Rattle.zst_pool.specs.Reclaims.{HeldStand};
ghost use Rattle.zst_recv.specs.Tokens.{token_told};
ghost use Rattle.zst_script.specs.declared.event.Event.TheVariants as events;
ghost use Rattle.zst_sessions.specs.BusySessions.{busy_for};
ghost use Rattle.zst_sessions.specs.CommandSteps.{GivesUp, IsUnclaimed, StepsPool, pool_told, told_as, token_answer};
ghost use Rattle.zst_sessions.specs.EngineSteps.{EngineFits, IsLaterPool, KeepsHeld, KeepsSessions, StepsEngine, coded_held, held_blocks, kept_pool};
ghost use Rattle.zst_sessions.specs.Engines.{PoolStands, kept_at};
ghost use Rattle.zst_sessions.specs.EventReplies.{answer_of};
ghost use Rattle.zst_sessions.specs.FullPools.{StepIsShort};
ghost use Rattle.zst_sessions.specs.World.{OpenPool};

use crate::engine::Engine;
use crate::event_reply::EventReply;
use crate::holders::{held_blocks, holder_for};
use crate::laws::{
    moves_keep_worlds, numbers_rise, sessions_come_first, sessions_outlast_reclaims,
    sessions_stand_beside,
};
use crate::lost::lost_disks_read;
use crate::open_sessions::OpenSend;
use std::alloc::Global;
use zst_model::{Command, Holder, PlanFault, Refusal, Reply};
use zst_names::DatasetName;
use zst_outside::Disk;
use zst_pool::{Pool, PoolFault};
use zst_recv::token;
use zst_script::Side;
use zst_token::Token;

/// E5: this session has what is to change.
pub(crate) fn busy(session: u32) -> Refusal
    ensures { result ≡ busy_session session }
{
    Refusal::Plan(PlanFault::Busy(Holder::Session(session)))
}

// A pool's answer as an event's.
fn told(answer: Result<Reply, PoolFault>) -> Result<Reply, Refusal>
    ensures { result ≡ pool_told answer }
{
    match answer {
        Ok(reply) => Ok(reply),
        Err(fault) => Err(Refusal::from(fault)),
    }
}

// A command's answer as that of its event.
fn lines(answer: Result<Reply, Refusal>) -> Result<EventReply, Refusal>
    ensures { answer_of result ≡ answer }
{
    match answer {
        Ok(reply) => Ok(EventReply::Lines(reply)),
        Err(refusal) => Err(refusal),
    }
}

// A token's telling as the answer of its event.
fn token_reply(answer: Result<Token, Refusal>) -> Result<EventReply, Refusal>
    ensures { answer_of result ≡ token_answer answer }
{
    match answer {
        Ok(token) => Ok(EventReply::Token(token)),
        Err(refusal) => Err(refusal),
    }
}

// Runs a command on a pool, unless a session is in its way. E31 comes before all else.
fn step_unless_busy<D: Disk>(
    pool: &mut Pool<'_, D>,
    alloc: Global,
    now: u64,
    holder: Option<u32>,
    side: Side,
    sends: &[OpenSend],
    command: Command,
) -> Result<Reply, Refusal>
    requires command { IsCommand command }
    requires ready { pool.old.io.failed ≡ false → Ready (disk_of pool.old.io) pool.old.kept.body }
    // Where the holder is the session that the definition finds in the way: what the command makes of the pool beside what is held.
    ensures steps { (held : List Held) (opened : OpenPool) → IsHonest pool.new.io → IsTrue D.tells_images → PoolStands true (kept_pool pool.old) opened
        → (pool.old.io.failed ≡ false → HeldStand (disk_of pool.old.io) pool.old.kept.body (held_blocks side sends.now))
        → (opened.failed ≡ false → holder ≡ busy_for held command opened.pool)
        → StepsPool command (stepped held now command opened.pool) opened (kept_pool pool.old) (kept_pool pool.new) result }
    // Whatever the image is.
    ensures held { KeepsHeld (GivesUp holder command pool.old.kept.dir) (held_blocks side sends.now) (kept_pool pool.old) (kept_pool pool.new) }
    ensures keeps { command ≢ Command.Reclaim → KeepsSessions (GivesUp holder command pool.old.kept.dir) (kept_pool pool.old) (kept_pool pool.new) }
    ensures later { IsLaterPool pool.old pool.new }
    ensures cause { result ≡ Err Refusal.DiskFault → Rose (disk_of pool.old.io).faults (disk_of pool.new.io).faults }
    ensures open_still { pool.old.io.failed ≡ false → ¬ (result ≡ Err Refusal.Failed) }
    ensures works { ¬ (result ≡ Err Refusal.DiskFault) → pool.old.io.failed ≡ false → pool.new.io.failed ≡ false }
    ensures full { (need largest : ℕ) → result ≡ Err (Refusal.Full need largest) → StepIsShort command (held_blocks side sends.now) (kept_pool pool.old) (kept_pool pool.new) pool.new.io.space need largest }
{
    lost_disks_read::<D>();
    sessions_come_first();
    let _lawful = pool.kept.dir.datasets();
    if pool.io.failed {
        return Err(Refusal::Failed);
    }
    if let Some(session) = holder {
        return Err(busy(session));
    }
    let Ok(held) = held_blocks(alloc, sends, side) else {
        return Err(Refusal::OutOfMemory);
    };
    let answer = pool.step(alloc, now, command, held.as_slice());
    let _lawful_still = pool.kept.dir.datasets();
    told(answer)
}

// The token that a pool tells of a dataset's partial state.
pub(crate) fn token_of<D: Disk>(pool: &Pool<'_, D>, dataset: &DatasetName) -> Result<Token, Refusal>
    ensures failed { pool.now.io.failed ≡ true → result ≡ Err Refusal.Failed }
    ensures told { pool.now.io.failed ≡ false → (running : Plain) → AreNamed pool.now.kept.dir running → result ≡ told_as (token_told dataset.now running) }
    ensures open_still { pool.now.io.failed ≡ false → ¬ (result ≡ Err Refusal.Failed) }
    ensures no_fault { ¬ (result ≡ Err Refusal.DiskFault) }
    ensures never_full { (need largest : ℕ) → ¬ (result ≡ Err (Refusal.Full need largest)) }
{
    if pool.io.failed {
        return Err(Refusal::Failed);
    }
    match token(pool, dataset) {
        Ok(token) => Ok(token),
        Err(fault) => Err(Refusal::from(fault)),
    }
}

impl<'a, 'b, D: Disk, E: Disk> Engine<'a, 'b, D, E> {
    // The session that is in the way of a command on a pool.
    fn holder_of(&self, side: Side, command: &Command) -> Option<u32>
        ensures busy { (running : Plain) → AreNamed (kept_at side (kept_pool self.entry.now.here) (kept_pool self.entry.now.there)).state.dir running
            → result ≡ busy_for (coded_held side self.entry.now.sends.items self.entry.now.receives.items) command.now running }
        ensures claimed { result ≡ None → IsUnclaimed side command.now (kept_at side (kept_pool self.entry.now.here) (kept_pool self.entry.now.there)).state.dir self.entry.now.receives.items }
    {
        let sends = self.sends.as_slice();
        let receives = self.receives.as_slice();
        match side {
            Side::Here => holder_for(&self.here.kept.dir, sends, receives, side, command),
            Side::There => holder_for(&self.there.kept.dir, sends, receives, side, command),
        }
    }

    // A command of a pool, beside what its sessions hold and claim.
    pub(crate) fn run_command(
        &mut self,
        alloc: Global,
        side: Side,
        command: Command,
    ) -> Result<EventReply, Refusal>
        requires command { IsCommand command }
        requires fits { EngineFits self.old }
        ensures { StepsEngine (events.Step side command) self.old self.new result }
    {
        sessions_stand_beside();
        sessions_outlast_reclaims();
        moves_keep_worlds();
        numbers_rise();
        let holder = self.holder_of(side, &command);
        match side {
            Side::Here => {
                let sends = self.sends.as_slice();
                let pool = &mut self.here;
                lines(step_unless_busy(pool, alloc, self.now, holder, side, sends, command))
            }
            Side::There => {
                let sends = self.sends.as_slice();
                let pool = &mut self.there;
                lines(step_unless_busy(pool, alloc, self.now, holder, side, sends, command))
            }
        }
    }

    // The token of a dataset's partial state.
    pub(crate) fn tell_token(
        &mut self,
        side: Side,
        dataset: &DatasetName,
    ) -> Result<EventReply, Refusal>
        requires fits { EngineFits self.old }
        ensures { StepsEngine (events.Token side dataset.now) self.old self.new result }
    {
        match side {
            Side::Here => token_reply(token_of(&self.here, dataset)),
            Side::There => token_reply(token_of(&self.there, dataset)),
        }
    }
}
