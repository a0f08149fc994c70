ghost use Rattle.std.specs.Prelude.{◌≡◌};
ghost use Rattle.zst_recv.specs.Stages.{has_partial, is_live, keeps_partial, point_in, received_at, stage_behind};

use crate::received_snapshot::ReceivedSnapshot;
use zst_dir::Partial;
use zst_model::Point;

/// Where a receive stands.
#[derive(Drop)]
pub(crate) enum Stage {
    /// BEGIN isn't covered yet.
    Waits,
    /// Its partial state is under way, by a stream with these flags.
    Lives { flags: u32, partial: Partial },
    /// END was covered: this becomes the snapshot.
    Ends { partial: Partial },
    /// END was received, and the snapshot stands.
    Done { received: ReceivedSnapshot },
    /// It is over without END.
    Over,
}

impl Stage {
    /// Whether the receive goes on.
    pub fn is_live(&self) -> bool
        ensures { result ≡ is_live self.now }
    {
        matches!(self, Stage::Waits | Stage::Lives { .. })
    }

    /// Whether its partial state is under way.
    pub fn has_partial(&self) -> bool
        ensures { result ≡ has_partial self.now }
    {
        matches!(self, Stage::Lives { .. })
    }

    /// Whether its partial state stays where its session ends.
    pub fn is_kept(&self) -> bool
        ensures { result ≡ keeps_partial self.now }
    {
        match self {
            Stage::Lives { partial, .. } => partial.keep,
            Stage::Waits | Stage::Ends { .. } | Stage::Done { .. } | Stage::Over => false,
        }
    }

    /// Where the stream goes on.
    pub fn point(&self) -> Point
        ensures { result ≡ point_in self.now }
    {
        match self {
            Stage::Lives { partial, .. } | Stage::Ends { partial } => partial.point,
            Stage::Waits | Stage::Done { .. } | Stage::Over => Point {
                object: 0,
                offset: 0,
            },
        }
    }

    /// The snapshot that it made, once END was received.
    pub fn received(&self) -> Option<ReceivedSnapshot>
        ensures { result ≡ received_at self.now }
    {
        match self {
            Stage::Done { received } => Some(received.duplicate()),
            Stage::Waits | Stage::Lives { .. } | Stage::Ends { .. } | Stage::Over => None,
        }
    }

    /// Where it stands once all of a piece was committed: with END the snapshot stands.
    pub fn settled(self) -> Stage
        ensures { result ≡ stage_behind self }
    {
        match self {
            Stage::Ends { partial } => Stage::Done {
                received: ReceivedSnapshot::of(&partial),
            },
            stage => stage,
        }
    }
}
