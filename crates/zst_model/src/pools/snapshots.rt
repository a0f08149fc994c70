ghost use Rattle.std.specs.Prelude.{◌≡◌};

use std::marker::Model;
use zst_names::SnapName;

/// The names of redaction snapshots, in the order of their words.
#[derive(Drop)]
pub struct Snapshots {
    names: Vec<SnapName>,
}

impl Model for Snapshots {
    ghost use Rattle.std.specs.Prelude.{ℕ, List};

    ghost Value = { List (List ℕ) };

    ghost view = { λ s. s.names.items };
}

impl Snapshots {
    /// These snapshots.
    pub fn new(names: Vec<SnapName>) -> Snapshots
        ensures { result ≡ names.items }
    {
        Snapshots { names }
    }

    /// The snapshots.
    pub fn as_slice(&self) -> &[SnapName]
        ensures { result.now ≡ self.now }
    {
        self.names.as_slice()
    }
}
