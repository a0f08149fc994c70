ghost use Rattle.std.specs.Prelude.{◌≡◌, ◌≤◌, Some};
ghost use Rattle.zst_model.specs.refusals.Refusal.{number_of, text_of};

use crate::refusals::apply_fault::ApplyFault;
use crate::refusals::faults::Quantity;
use crate::refusals::plan_fault::PlanFault;
use crate::refusals::stream_fault::StreamFault;
use crate::refusals::text::{Text, limited, numbered, paired, plain, reasoned, summed};
use std::fmt;

/// Why something was refused. The refusals are numbered over the whole project.
#[derive(Drop, PartialEq, Eq)]
pub enum Refusal {
    /// E1: the words aren't in the grammar; the first that can't stand where it is, counted from 0.
    Usage {
        place: u64,
    },
    /// E2 to E15, E19 and E23 of a plan.
    Plan(PlanFault),
    /// E16: the byte at which a text stops being a token.
    BadToken {
        place: u64,
    },
    /// E17 to E20 of a stream.
    Stream(StreamFault),
    /// E21: the record that can't be applied, counted from 0 at BEGIN, and why. A command's is 0.
    CannotApply {
        record: u64,
        fault: ApplyFault,
    },
    /// E22: the block that was to be read is redacted.
    Redacted {
        object: u64,
        block: u64,
    },
    /// E23: a quantity past its limit, and the limit.
    Limit {
        which: Quantity,
        number: u64,
    },
    /// E24: the sectors that a block needs, and those of the largest free extent.
    Full {
        need: u64,
        largest: u64,
    },
    /// E25: the sector of a block that isn't as it was written, what its pointer states, and what was found.
    Damaged {
        sector: u64,
        stated: [u64; 4],
        found: [u64; 4],
    },
    /// E26: the image has no pool.
    NoPool,
    /// E27: the version of a pool that isn't this one.
    BadVersion {
        number: u64,
    },
    /// E28: the disk failed.
    DiskFault,
    /// E29: the source failed.
    SourceFault,
    /// E30: the sink failed.
    SinkFault,
    /// E31: the pool's disk failed, and it wasn't opened again.
    Failed,
    /// E32: no memory was left.
    OutOfMemory,
}

impl Refusal {
    /// Its number, 1 to 32.
    pub fn number(&self) -> u8
        ensures { result ≡ number_of self.now }
    {
        match self {
            Refusal::Usage { .. } => 1,
            Refusal::Plan(fault) => fault.number(),
            Refusal::BadToken { .. } => 16,
            Refusal::Stream(fault) => fault.number(),
            Refusal::CannotApply { .. } => 21,
            Refusal::Redacted { .. } => 22,
            Refusal::Limit { .. } => 23,
            Refusal::Full { .. } => 24,
            Refusal::Damaged { .. } => 25,
            Refusal::NoPool => 26,
            Refusal::BadVersion { .. } => 27,
            Refusal::DiskFault => 28,
            Refusal::SourceFault => 29,
            Refusal::SinkFault => 30,
            Refusal::Failed => 31,
            Refusal::OutOfMemory => 32,
        }
    }

    /// Its text, as the program prints it.
    #[tactic(auto, unfolding(crate::specs::refusals::Refusal::text_of))]
    pub fn text(&self) -> Text
        ensures { result.bytes ≡ text_of self.now }
    {
        match self {
            Refusal::Usage { place } => numbered("usage: ", *place),
            Refusal::Plan(fault) => fault.text(),
            Refusal::BadToken { place } => numbered("bad token at ", *place),
            Refusal::Stream(fault) => fault.text(),
            Refusal::CannotApply { record, fault } => {
                reasoned("cannot apply record ", *record, fault.word())
            }
            Refusal::Redacted { object, block } => {
                paired("redacted: object ", *object, " block ", *block)
            }
            Refusal::Limit { which, number } => limited(which.word(), *number),
            Refusal::Full { need, largest } => paired("full: need ", *need, ", largest ", *largest),
            Refusal::Damaged {
                sector,
                stated,
                found,
            } => summed("damaged at sector ", *sector, stated, found),
            Refusal::NoPool => plain("no pool"),
            Refusal::BadVersion { number } => numbered("bad version ", *number),
            Refusal::DiskFault => plain("disk fault"),
            Refusal::SourceFault => plain("source fault"),
            Refusal::SinkFault => plain("sink fault"),
            Refusal::Failed => plain("failed: reopen the pool"),
            Refusal::OutOfMemory => plain("no memory"),
        }
    }
}

impl fmt::Display for Refusal {
    ghost output = { λ refusal. Some (text_of refusal) };

    fn fmt<W: fmt::Write>(&self, f: &mut fmt::Formatter<W>) -> fmt::Result {
        f.pad(self.text().as_str())
    }
}

/// Shown by its text.
impl fmt::Debug for Refusal {
    fn fmt<W: fmt::Write>(&self, f: &mut fmt::Formatter<W>) -> fmt::Result {
        f.pad(self.text().as_str())
    }
}

impl From<PlanFault> for Refusal {
    ghost use Rattle.std.specs.Prelude.{◌≡◌};
    ghost use Rattle.zst_model.specs.refusals.Refusal.{refusal_of};

    ghost from_gives = { λ fault refusal. refusal ≡ refusal_of fault };

    fn from(fault: PlanFault) -> Refusal {
        match fault {
            PlanFault::Limit { which, number } => Refusal::Limit { which, number },
            other => Refusal::Plan(other),
        }
    }
}

impl From<StreamFault> for Refusal {
    ghost use Rattle.std.specs.Prelude.{◌≡◌};
    ghost use Rattle.zst_model.specs.declared.refusals.refusal.Refusal.TheVariants as refusals;

    ghost from_gives = { λ fault refusal. refusal ≡ refusals.Stream fault };

    fn from(fault: StreamFault) -> Refusal {
        Refusal::Stream(fault)
    }
}
