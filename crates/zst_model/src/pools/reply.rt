ghost use Rattle.std.specs.Prelude.{◌≡◌};

use crate::fields::bytes::Bytes;
use std::marker::Model;

/// What an accepted command answers: lines of output, each without its line feed.
#[derive(Drop)]
pub struct Reply {
    lines: Vec<Bytes>,
}

impl Model for Reply {
    ghost use Rattle.std.specs.Prelude.{ℕ, List};

    ghost Value = { List (List ℕ) };

    ghost view = { λ r. r.lines.items };
}

impl Reply {
    /// These lines.
    pub fn new(lines: Vec<Bytes>) -> Reply
        ensures { result ≡ lines.items }
    {
        Reply { lines }
    }

    /// The lines, in order.
    pub fn lines(&self) -> &[Bytes]
        ensures { result.now ≡ self.now }
    {
        self.lines.as_slice()
    }
}
