// The events that open a session.
ghost use Rattle.std.specs.Prelude.{◌≡◌, ◌≢◌, ℕ, false, true, length, All, IfErr, IfOk, None};
ghost use Rattle.zst_block.specs.IoStates.{disk_of};
ghost use Rattle.zst_image.specs.Commits.{Ready};
ghost use Rattle.zst_model.specs.sends.SendPlan.{send_plan, with_list};
ghost use Rattle.zst_recv.specs.FedReceives.{IsFresh};
ghost use Rattle.zst_script.specs.declared.event.Event.TheVariants as events;
ghost use Rattle.zst_send.specs.Openings.{rest_of};
ghost use Rattle.zst_send.specs.Sends.{SendFits};
ghost use Rattle.zst_sessions.specs.EngineSteps.{EngineFits, StepsEngine, kept_pool, target_of};
ghost use Rattle.zst_sessions.specs.Openings.{AddsReceive, AddsSend, BeginsAt, BeginsOn, LooksAtSide, TellsToken, coded_in_the_way, kept_on, opened_of, receive_refusal, send_refusal};
ghost use Rattle.zst_sessions.specs.Takes.{LooksAtPool};
ghost use Rattle.zst_sessions.specs.World.{other_side};

use crate::commands::{busy, token_of};
use crate::engine::{Engine, MOST_RECEIVES, MOST_SENDS};
use crate::event_reply::EventReply;
use crate::holders::{is_used, session_into};
use crate::laws::moves_keep_worlds;
use crate::open_sessions::{OpenReceive, OpenSend};
use std::alloc::Global;
use zst_laws::plans_are_of_pool;
use zst_model::{Quantity, Refusal};
use zst_names::{DatasetName, SnapName};
use zst_outside::Disk;
use zst_pool::{Pool, PoolFault};
use zst_recv::{Recv, RecvAsk};
use zst_script::Side;
use zst_send::{Send, SendAsk, rest_plan, rows_stand_for_sends};
use zst_token::Token;

// A send that was begun on a pool, with the snapshot that it holds and the pool's number.
#[derive(Drop)]
struct Begun {
    send: Send,
    snapshot: SnapName,
    number: u64,
}

// A receive that was begun on a pool, with the pool's number.
#[derive(Drop)]
struct Awaited {
    recv: Recv,
    number: u64,
}

// Begins a send of a snapshot by names, over the sectors that the latest body leaves free.
fn begin_send<D: Disk>(
    pool: &mut Pool<'_, D>,
    alloc: Global,
    ask: &SendAsk,
) -> Result<Begun, PoolFault>
    requires { pool.old.io.failed ≡ false → Ready (disk_of pool.old.io) pool.old.kept.body }
    ensures begins { BeginsOn None (λ running. with_list (send_plan ask.now running)) (kept_pool pool.old) (kept_pool pool.new) result }
    ensures fits { IfOk result (λ begun. SendFits begun.send) }
    ensures pool { LooksAtPool pool.old pool.new result }
{
    plans_are_of_pool();
    rows_stand_for_sends();
    if pool.io.failed {
        return Err(PoolFault::Failed);
    }
    pool.renew(alloc)?;
    let send = Send::open(pool, alloc, ask)?;
    Ok(Begun {
        send,
        snapshot: ask.snap.duplicate(),
        number: pool.kept.body.uber().number,
    })
}

// Begins a send of the rest that a token tells.
fn begin_rest<D: Disk>(
    pool: &mut Pool<'_, D>,
    alloc: Global,
    token: &Token,
) -> Result<Begun, PoolFault>
    requires { pool.old.io.failed ≡ false → Ready (disk_of pool.old.io) pool.old.kept.body }
    ensures begins { BeginsOn (Some token.now.point) (λ running. with_list (rest_of token.now running)) (kept_pool pool.old) (kept_pool pool.new) result }
    ensures fits { IfOk result (λ begun. SendFits begun.send) }
    ensures pool { LooksAtPool pool.old pool.new result }
{
    rows_stand_for_sends();
    if pool.io.failed {
        return Err(PoolFault::Failed);
    }
    pool.renew(alloc)?;
    let plan = rest_plan(&pool.kept.dir, token)?;
    let snapshot = pool.kept.dir.snapshots()[plan.snap].name.duplicate();
    let send = Send::resume(pool, alloc, &plan, token.point)?;
    Ok(Begun {
        send,
        snapshot,
        number: pool.kept.body.uber().number,
    })
}

// Begins a receive on a pool.
fn begin_receive<D: Disk>(
    pool: &mut Pool<'_, D>,
    alloc: Global,
    ask: RecvAsk,
) -> Result<Awaited, PoolFault>
    ensures fresh { IfOk result (λ begun. IsFresh pool.old.kept.dir ask begun.recv) }
    ensures number { IfOk result (λ begun. begun.number ≡ pool.old.kept.body.uber.number) }
    ensures known { pool.old.io.failed ≡ false → IfErr result (λ fault. fault ≡ PoolFault.OutOfMemory) }
    ensures pool { LooksAtPool pool.old pool.new result }
{
    if pool.io.failed {
        return Err(PoolFault::Failed);
    }
    let recv = Recv::open(pool, alloc, ask)?;
    Ok(Awaited {
        recv,
        number: pool.kept.body.uber().number,
    })
}

// E23: as many sessions of a kind are open as may be.
fn too_many(which: Quantity, most: usize) -> Refusal
    ensures { result ≡ Refusal.Limit which most }
{
    Refusal::Limit {
        which,
        number: most as u64,
    }
}

impl<'a, 'b, D: Disk, E: Disk> Engine<'a, 'b, D, E> {
    // ---- a send

    // Why no send may be opened with this id: E5 of the id, then E23.
    #[tactic(auto, unfolding(crate::specs::Moves::most_sends))]
    fn send_refusal(&self, id: u32) -> Option<Refusal>
        ensures { result ≡ send_refusal id self.entry.now.sends.items self.entry.now.receives.items }
    {
        if is_used(&self.sends, &self.receives, id) {
            return Some(busy(id));
        }
        if self.sends.len() >= MOST_SENDS {
            return Some(too_many(Quantity::Sends, MOST_SENDS));
        }
        None
    }

    // One send more, unless it may not be opened.
    fn add_send(&mut self, side: Side, id: u32, begun: Begun) -> Result<EventReply, Refusal>
        ensures rest { self.new ≡ record self.old { sends = self.new.sends } }
        ensures adds { AddsSend (opened_of side id begun) begun.number self.old.receives.items self.old.sends.items self.new.sends.items result }
    {
        if let Some(refusal) = self.send_refusal(id) {
            return Err(refusal);
        }
        let Begun {
            send,
            snapshot,
            number,
        } = begun;
        match self.sends.push(OpenSend {
            id,
            side,
            snapshot,
            send,
        }) {
            Ok(()) => Ok(EventReply::Opened { number }),
            Err(_) => Err(Refusal::OutOfMemory),
        }
    }

    // Begins a send by names on the pool of a side.
    fn send_begun(&mut self, alloc: Global, side: Side, ask: &SendAsk) -> Result<Begun, PoolFault>
        requires fits { EngineFits self.old }
        ensures { BeginsAt side None (λ running. with_list (send_plan ask.now running)) self.old self.new result }
    {
        match side {
            Side::Here => begin_send(&mut self.here, alloc, ask),
            Side::There => begin_send(&mut self.there, alloc, ask),
        }
    }

    // Opens a send by names.
    pub(crate) fn open_send(
        &mut self,
        alloc: Global,
        side: Side,
        id: u32,
        ask: &SendAsk,
    ) -> Result<EventReply, Refusal>
        requires fits { EngineFits self.old }
        ensures { StepsEngine (events.Send side id ask.now) self.old self.new result }
    {
        moves_keep_worlds();
        let begun = self.send_begun(alloc, side, ask)?;
        self.add_send(side, id, begun)
    }

    // ---- a send of what is left

    // The token that the other side's pool tells.
    fn token_beside(&self, side: Side, dataset: &DatasetName) -> Result<Token, Refusal>
        ensures { TellsToken dataset.now (kept_on (other_side side) self.entry.now) result }
    {
        match side {
            Side::Here => token_of(&self.there, dataset),
            Side::There => token_of(&self.here, dataset),
        }
    }

    // Begins a send of the rest that a token tells on the pool of a side.
    fn rest_begun(&mut self, alloc: Global, side: Side, token: &Token) -> Result<Begun, PoolFault>
        requires fits { EngineFits self.old }
        ensures { BeginsAt side (Some token.now.point) (λ running. with_list (rest_of token.now running)) self.old self.new result }
    {
        match side {
            Side::Here => begin_rest(&mut self.here, alloc, token),
            Side::There => begin_rest(&mut self.there, alloc, token),
        }
    }

    // Opens a send of what the other pool's partial state lacks, by the token that it tells.
    pub(crate) fn resume_send(
        &mut self,
        alloc: Global,
        side: Side,
        id: u32,
        dataset: &DatasetName,
    ) -> Result<EventReply, Refusal>
        requires fits { EngineFits self.old }
        ensures { StepsEngine (events.Resume side id dataset.now) self.old self.new result }
    {
        moves_keep_worlds();
        if self.has_failed(side) {
            return Err(Refusal::Failed);
        }
        let token = self.token_beside(side, dataset)?;
        let begun = self.rest_begun(alloc, side, &token)?;
        self.add_send(side, id, begun)
    }

    // ---- a receive

    // The session in whose way a receive is: one that receives into its target, or one that has its id; the one with the least
    // id of them.
    fn in_the_way(&self, side: Side, id: u32, target: &DatasetName) -> Option<u32>
        ensures way { result ≡ coded_in_the_way side id target.now self.entry.now.sends.items self.entry.now.receives.items }
        // Where there is none, receives of that side have other targets.
        ensures none { result ≡ None → All (λ one. one.side ≡ side → target_of one ≢ target.now) self.entry.now.receives.items }
    {
        let claiming = session_into(&self.receives, side, target);
        if !is_used(&self.sends, &self.receives, id) {
            return claiming;
        }
        match claiming {
            Some(other) => Some(id.min(other)),
            None => Some(id),
        }
    }

    // Why no receive may be opened: E31, E5 of its id or its target, then E23.
    #[tactic(auto, unfolding(crate::specs::Moves::most_receives))]
    fn receive_refusal(&self, side: Side, id: u32, target: &DatasetName) -> Option<Refusal>
        ensures refusal { result ≡ receive_refusal (kept_on side self.entry.now).failed (coded_in_the_way side id target.now self.entry.now.sends.items self.entry.now.receives.items) (length self.entry.now.receives.items) }
        ensures none { result ≡ None → All (λ one. one.side ≡ side → target_of one ≢ target.now) self.entry.now.receives.items }
    {
        if self.has_failed(side) {
            return Some(Refusal::Failed);
        }
        if let Some(session) = self.in_the_way(side, id, target) {
            return Some(busy(session));
        }
        if self.receives.len() >= MOST_RECEIVES {
            return Some(too_many(Quantity::Receives, MOST_RECEIVES));
        }
        None
    }

    // Begins a receive on the pool of a side.
    fn receive_begun(
        &mut self,
        alloc: Global,
        side: Side,
        ask: RecvAsk,
    ) -> Result<Awaited, PoolFault>
        ensures fresh { IfOk result (λ begun. IsFresh (kept_on side self.old).state.dir ask begun.recv) }
        ensures number { IfOk result (λ begun. begun.number ≡ (kept_on side self.old).state.body.uber.number) }
        ensures known { (kept_on side self.old).failed ≡ false → IfErr result (λ fault. fault ≡ PoolFault.OutOfMemory) }
        ensures looks { LooksAtSide side self.old self.new result }
    {
        match side {
            Side::Here => begin_receive(&mut self.here, alloc, ask),
            Side::There => begin_receive(&mut self.there, alloc, ask),
        }
    }

    // One receive more.
    fn add_receive(&mut self, one: OpenReceive, number: u64) -> Result<EventReply, Refusal>
        ensures rest { self.new ≡ record self.old { receives = self.new.receives } }
        ensures adds { AddsReceive one number self.old.receives.items self.new.receives.items result }
    {
        match self.receives.push(one) {
            Ok(()) => Ok(EventReply::Opened { number }),
            Err(_) => Err(Refusal::OutOfMemory),
        }
    }

    // Opens a receive: E5 of its id or its target, then E23.
    pub(crate) fn open_receive(
        &mut self,
        alloc: Global,
        side: Side,
        id: u32,
        ask: RecvAsk,
    ) -> Result<EventReply, Refusal>
        requires fits { EngineFits self.old }
        ensures { StepsEngine (events.Receive side id ask) self.old self.new result }
    {
        moves_keep_worlds();
        if let Some(refusal) = self.receive_refusal(side, id, &ask.target) {
            return Err(refusal);
        }
        let Awaited { recv, number } = self.receive_begun(alloc, side, ask)?;
        self.add_receive(OpenReceive { id, side, recv }, number)
    }
}
