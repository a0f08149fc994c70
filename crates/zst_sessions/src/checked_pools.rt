// The event that checks a pool.
ghost use Rattle.std.specs.Prelude.{◌≡◌};
ghost use Rattle.zst_script.specs.declared.event.Event.TheVariants as events;
ghost use Rattle.zst_sessions.specs.CommandSteps.{report_told};
ghost use Rattle.zst_sessions.specs.EngineSteps.{EngineFits, StepsEngine};

use crate::engine::Engine;
use crate::event_reply::EventReply;
use crate::laws::moves_keep_worlds;
use std::alloc::Global;
use zst_check::{Report, check};
use zst_model::Refusal;
use zst_outside::Disk;
use zst_pool::PoolFault;
use zst_script::Side;

// A report as the answer of its event.
fn checked(answer: Result<Report, PoolFault>) -> Result<EventReply, Refusal>
    ensures { result ≡ report_told answer }
{
    match answer {
        Ok(report) => Ok(EventReply::Checked(report)),
        Err(fault) => Err(Refusal::from(fault)),
    }
}

impl<'a, 'b, D: Disk, E: Disk> Engine<'a, 'b, D, E> {
    // Whether a pool is sound. It commits nothing, and no session is in its way.
    pub(crate) fn check_pool(&mut self, alloc: Global, side: Side) -> Result<EventReply, Refusal>
        requires fits { EngineFits self.old }
        ensures { StepsEngine (events.Check side) self.old self.new result }
    {
        moves_keep_worlds();
        match side {
            Side::Here => checked(check(&mut self.here, alloc)),
            Side::There => checked(check(&mut self.there, alloc)),
        }
    }
}
