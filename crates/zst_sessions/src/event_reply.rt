use zst_check::Report;
use zst_model::{Point, Reply};
use zst_token::Token;

/// Where a receive stands behind a piece.
#[derive(Clone, Copy, Debug, PartialEq, Eq)]
pub enum Standing {
    /// Its stream goes on there.
    Point(Point),
    /// END was covered: the guid of the snapshot that stands.
    Done { guid: u64 },
}

/// What an event answers that isn't refused.
#[derive(Drop)]
pub enum EventReply {
    /// The lines of a command.
    Lines(Reply),
    /// The token of a partial state.
    Token(Token),
    /// What a check of a pool finds.
    Checked(Report),
    /// A session was opened, or a pool again: the pool's number.
    Opened {
        number: u64,
    },
    /// So many bytes were taken of a send, and its receive applied so many records.
    Pumped {
        taken: u64,
        applied: u64,
        standing: Standing,
    },
    /// So many bytes were taken of a send.
    Dropped {
        taken: u64,
    },
    /// A send was closed.
    Closed,
}
