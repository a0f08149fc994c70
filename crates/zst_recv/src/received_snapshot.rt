ghost use Rattle.std.specs.Prelude.{◌≡◌};
ghost use Rattle.zst_recv.specs.Stages.{received_row};

use zst_dir::Partial;
use zst_model::NameText;
use zst_names::DatasetName;

/// The snapshot that a receive made.
#[derive(Drop)]
pub struct ReceivedSnapshot {
    /// The dataset that it is of.
    pub target: DatasetName,
    /// What stands behind the `@` of its name.
    pub component: NameText,
    /// Its guid, which is the stream's.
    pub guid: u64,
}

impl ReceivedSnapshot {
    /// The snapshot that a partial state becomes.
    pub(crate) fn of(partial: &Partial) -> ReceivedSnapshot
        ensures { result ≡ received_row partial.now }
    {
        ReceivedSnapshot {
            target: partial.target.duplicate(),
            component: partial.snapshot.duplicate(),
            guid: partial.header.to,
        }
    }

    /// The same, which takes no memory.
    pub fn duplicate(&self) -> ReceivedSnapshot
        ensures { result ≡ self.now }
    {
        ReceivedSnapshot {
            target: self.target.duplicate(),
            component: self.component.duplicate(),
            guid: self.guid,
        }
    }
}
