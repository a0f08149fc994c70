use crate::text::Text;
use std::alloc::AllocError;
use zst_model::{Command, Name, PlanFault, Refusal};
use zst_names::{BookName, DatasetName, SnapName};
use zst_token::Token;

/// What a command line asks for, with the images that it names.
#[derive(Drop)]
pub enum Line {
    /// Prints a stream, record by record.
    Dump,
    /// Makes a pool of so many sectors, 128 to 2^31, with this id, 1 to 2^31 - 1.
    Create {
        image: Text,
        sectors: u64,
        id: u32,
    },
    /// A command on a pool.
    Step {
        image: Text,
        command: Command,
    },
    /// Sends a snapshot, whole or from another one or a bookmark, and redacted where a bookmark says so (zfs-send(8)).
    Send {
        image: Text,
        from: Option<Name>,
        redacts: Option<BookName>,
        snapshot: SnapName,
    },
    /// Sends what a token says is still to be sent.
    Resume {
        image: Text,
        token: Token,
    },
    /// Receives a stream (zfs-receive(8)).
    Receive {
        image: Text,
        /// Whether what has come is kept where the stream is cut (`-s`).
        keeps: bool,
        /// Whether the head goes back to its latest snapshot first (`-F`).
        forces: bool,
        origin: Option<SnapName>,
        target: Name,
    },
    /// Tells the token of a dataset's partial state.
    Token {
        image: Text,
        dataset: DatasetName,
    },
    /// Tells whether a pool is sound, and how many blocks it has.
    Check {
        image: Text,
    },
    /// Makes a pool's content for trials, of 1 to 64 steps.
    Gen {
        image: Text,
        steps: u64,
    },
    /// Runs a script of events on two images.
    Replay {
        here: Text,
        there: Text,
    },
}

/// Why words aren't a line.
#[derive(Clone, Copy, Debug, PartialEq, Eq)]
pub enum LineFault {
    /// E1: the first word that can't stand where it is, counted from 0, or the count of words where one is missing.
    Usage { place: u64 },
    /// E2: the byte at which a name stops being one.
    BadName { place: u64 },
    /// E16: the byte at which a token stops being one, or its length where it ends early. Of fields that no token has it is
    /// the first digit's place, of a check that differs the check's.
    BadToken { place: u64 },
    /// E32: no memory was left.
    Memory,
}

impl From<LineFault> for Refusal {
    ghost use Rattle.std.specs.Prelude.{◌≡◌};
    ghost use Rattle.zst_line.specs.Line.{refusal_of};

    ghost from_gives = { λ fault refusal. refusal ≡ refusal_of fault };

    fn from(fault: LineFault) -> Refusal {
        match fault {
            LineFault::Usage { place } => Refusal::Usage { place },
            LineFault::BadName { place } => Refusal::Plan(PlanFault::BadName { place }),
            LineFault::BadToken { place } => Refusal::BadToken { place },
            LineFault::Memory => Refusal::OutOfMemory,
        }
    }
}

impl From<AllocError> for LineFault {
    ghost use Rattle.std.specs.Prelude.{◌≡◌};
    ghost use Rattle.zst_line.specs.declared.line.LineFault.TheVariants.{Memory};

    ghost from_gives = { λ error fault. fault ≡ Memory };

    fn from(_: AllocError) -> LineFault {
        LineFault::Memory
    }
}
