// The event that takes bytes of a send and feeds them to a receive.
ghost use Rattle.std.specs.Prelude.{◌≡◌, ◌==◌, ◌<◌, ◌≤◌, ◌^◌, false, true, length};
ghost use Rattle.std.specs.List.{position};
ghost use Rattle.zst_block.specs.IoStates.{disk_of};
ghost use Rattle.zst_image.specs.Commits.{Ready};
ghost use Rattle.zst_recv.specs.Stages.{RecvFits, is_live, stage_of};
ghost use Rattle.zst_script.specs.declared.event.Event.TheVariants as events;
ghost use Rattle.zst_sessions.specs.EngineSteps.{EngineFits, IsLaterPool, StepsEngine, kept_pool, piece_limit};
ghost use Rattle.zst_sessions.specs.Pumps.{FeedReads, FeedsAt, FeedsKept, SettlesFeed, guid_of, standing_of};

use crate::engine::Engine;
use crate::event_reply::{EventReply, Standing};
use crate::laws::{moves_keep_worlds, numbers_rise, sessions_stand_beside};
use crate::lost::lost_disks_read;
use crate::takes::no_session;
use std::alloc::Global;
use zst_model::Refusal;
use zst_outside::Disk;
use zst_pool::Pool;
use zst_recv::{FeedReport, Recv, RecvFault};
use zst_script::Side;
use zst_send::tight_sets_tell_dates;

// Where a receive stands behind a piece that was taken.
fn standing_of(report: &FeedReport, guid: u64) -> Standing
    ensures { result ≡ standing_of report.now guid }
{
    if report.done {
        Standing::Done { guid }
    } else {
        Standing::Point(report.point)
    }
}

// The guid of the snapshot that a receive made.
fn guid_of(recv: &Recv) -> u64
    ensures { result ≡ guid_of recv.now }
{
    match recv.received() {
        Some(made) => made.guid,
        None => 0,
    }
}

// Feeds a piece to a receive of a pool.
fn feed_into<D: Disk>(
    pool: &mut Pool<'_, D>,
    alloc: Global,
    recv: &mut Recv,
    piece: &[u8],
) -> Result<FeedReport, RecvFault>
    requires live { is_live (stage_of recv.old) ≡ true }
    requires recv { RecvFits pool.old.kept.dir recv.old }
    requires ready { pool.old.io.failed ≡ false → Ready (disk_of pool.old.io) pool.old.kept.body }
    ensures fed { FeedsKept (kept_pool pool.old) (kept_pool pool.new) recv.old recv.new piece.now result }
    ensures later { IsLaterPool pool.old pool.new }
    ensures reads { FeedReads recv.old recv.new piece.now pool.old.kept pool.new.kept pool.new.io.space result }
{
    lost_disks_read::<D>();
    tight_sets_tell_dates();
    let fed = recv.feed(pool, alloc, piece);
    // The directory that it leaves is lawful.
    let _lawful = pool.kept.dir.datasets();
    fed
}

impl<'a, 'b, D: Disk, E: Disk> Engine<'a, 'b, D, E> {
    // Where the receive with this id stands in the list.
    pub(crate) fn receive_place(&self, id: u32) -> Option<usize>
        ensures { result ≡ position (λ one. one.id == id) self.entry.now.receives.items }
    {
        self.receives.iter().position(|one| one.id == id)
    }

    // Feeds the first bytes of the room to the receive at a place.
    fn feed_at(
        &mut self,
        alloc: Global,
        place: usize,
        count: usize,
    ) -> Result<FeedReport, RecvFault>
        requires place { place < length self.old.receives.items }
        requires count { count ≤ piece_limit }
        requires fits { EngineFits self.old }
        ensures { FeedsAt place count self.old self.new result }
    {
        let open = &mut self.receives[place];
        let piece = &self.room.as_slice()[..count];
        match open.side {
            Side::Here => feed_into(&mut self.here, alloc, &mut open.recv, piece),
            Side::There => feed_into(&mut self.there, alloc, &mut open.recv, piece),
        }
    }

    // Feeds the first bytes of the room; a receive that is done or refused leaves.
    fn feed_and_settle(
        &mut self,
        alloc: Global,
        place: usize,
        count: usize,
    ) -> Result<EventReply, Refusal>
        requires place { place < length self.old.receives.items }
        requires count { count ≤ piece_limit }
        requires fits { EngineFits self.old }
        ensures { SettlesFeed place count self.old self.new result }
    {
        let fed = self.feed_at(alloc, place, count);
        let guid = guid_of(&self.receives[place].recv);
        if !self.receives[place].recv.live() {
            self.receives.remove(place);
        }
        let report = fed?;
        Ok(EventReply::Pumped {
            taken: count as u64,
            applied: report.applied,
            standing: standing_of(&report, guid),
        })
    }

    // Takes at most so many bytes of a send, and feeds them to a receive.
    pub(crate) fn pump(
        &mut self,
        alloc: Global,
        send: u32,
        receive: u32,
        count: u32,
    ) -> Result<EventReply, Refusal>
        requires count { (1 ≤ count) × (count ≤ 2 ^ 20) }
        requires fits { EngineFits self.old }
        ensures { StepsEngine (events.Pump send receive count) self.old self.new result }
    {
        sessions_stand_beside();
        moves_keep_worlds();
        numbers_rise();
        let Some(from) = self.send_place(send) else {
            return Err(no_session(send));
        };
        let Some(into) = self.receive_place(receive) else {
            return Err(no_session(receive));
        };
        if self.has_failed(self.sends[from].side) || self.has_failed(self.receives[into].side) {
            return Err(Refusal::Failed);
        }
        let taken = self.take_at(alloc, from, count as usize)?;
        self.feed_and_settle(alloc, into, taken)
    }
}
