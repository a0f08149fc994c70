ghost use Rattle.std.specs.Prelude.{◌≡◌, Some};
ghost use Rattle.zst_model.specs.refusals.StreamFault.{stream_number, stream_text};

use crate::refusals::faults::{Flaw, Lack};
use crate::refusals::text::{Text, numbered, reasoned, summed};
use std::fmt;

/// Why a stream was refused, with the byte at which the reason stands.
#[derive(Clone, Copy, PartialEq, Eq)]
pub enum StreamFault {
    /// E17: it breaks the grammar there.
    Grammar {
        at: u64,
        flaw: Flaw,
    },
    /// E18: the checksum there isn't that of the bytes before it: what it states, and what was found.
    Checksum {
        at: u64,
        stated: [u64; 4],
        found: [u64; 4],
    },
    /// E19: it has what isn't supported.
    Unsupported {
        at: u64,
        lack: Lack,
    },
    /// E20: the input ended there, before END was whole.
    Truncated {
        at: u64,
    },
}

impl StreamFault {
    /// The number of its refusal.
    pub fn number(&self) -> u8
        ensures { result ≡ stream_number self.now }
    {
        match self {
            StreamFault::Grammar { .. } => 17,
            StreamFault::Checksum { .. } => 18,
            StreamFault::Unsupported { .. } => 19,
            StreamFault::Truncated { .. } => 20,
        }
    }

    /// Its text, as the program prints it.
    #[tactic(auto, unfolding(crate::specs::refusals::StreamFault::stream_text))]
    pub fn text(&self) -> Text
        ensures { result.bytes ≡ stream_text self.now }
    {
        match self {
            StreamFault::Grammar { at, flaw } => reasoned("grammar at ", *at, flaw.word()),
            StreamFault::Checksum { at, stated, found } => {
                summed("checksum at ", *at, stated, found)
            }
            StreamFault::Unsupported { at, lack } => {
                reasoned("unsupported at ", *at, lack.text().as_str())
            }
            StreamFault::Truncated { at } => numbered("truncated at ", *at),
        }
    }
}

impl fmt::Display for StreamFault {
    ghost output = { λ fault. Some (stream_text fault) };

    fn fmt<W: fmt::Write>(&self, f: &mut fmt::Formatter<W>) -> fmt::Result {
        f.pad(self.text().as_str())
    }
}

/// Shown by its text.
impl fmt::Debug for StreamFault {
    fn fmt<W: fmt::Write>(&self, f: &mut fmt::Formatter<W>) -> fmt::Result {
        f.pad(self.text().as_str())
    }
}
