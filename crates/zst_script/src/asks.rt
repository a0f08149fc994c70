//! What the names of a line ask to be sent, and to be received.
ghost use Rattle.std.specs.Prelude.{◌≡◌, IfSome};
ghost use Rattle.zst_script.specs.Asks.{IsSource, IsTarget, ask_of, receipt_of, snapshot_of, source_of, target_of};

use zst_model::{FromName, Name, SendAsk};
use zst_names::{BookName, DatasetName, SnapName};
use zst_plan::RecvAsk;

/// What an increment is asked to be sent from.
fn source_of(from: &Option<Name>) -> Option<FromName>
    requires { IfSome from.now IsSource }
    ensures { result ≡ source_of from.now }
{
    match from {
        Some(Name::Snapshot(name)) => Some(FromName::Snap(name.duplicate())),
        Some(Name::Bookmark(name)) => Some(FromName::Book(name.duplicate())),
        Some(Name::Dataset(_)) => unreachable!(),
        None => None,
    }
}

/// What the names of a line that sends ask for.
pub fn ask_of(from: &Option<Name>, redacts: &Option<BookName>, snapshot: &SnapName) -> SendAsk
    requires { IfSome from.now IsSource }
    ensures { result ≡ ask_of from.now redacts.now snapshot.now }
{
    SendAsk {
        snap: snapshot.duplicate(),
        from: source_of(from),
        redact: match redacts {
            Some(name) => Some(name.duplicate()),
            None => None,
        },
    }
}

/// The dataset that a target names, with a snapshot or without.
fn target_of(target: &Name) -> DatasetName
    requires { IsTarget target.now }
    ensures { result ≡ target_of target.now }
{
    match target {
        Name::Dataset(name) => name.duplicate(),
        Name::Snapshot(name) => name.dataset(),
        Name::Bookmark(_) => unreachable!(),
    }
}

/// The snapshot that a target names, where it names one.
fn snapshot_of(target: &Name) -> Option<SnapName>
    ensures { result ≡ snapshot_of target.now }
{
    match target {
        Name::Snapshot(name) => Some(name.duplicate()),
        Name::Dataset(_) | Name::Bookmark(_) => None,
    }
}

/// What the words of a line that receives ask for.
pub fn receipt_of(keeps: bool, forces: bool, origin: &Option<SnapName>, target: &Name) -> RecvAsk
    requires { IsTarget target.now }
    ensures { result ≡ receipt_of keeps forces origin.now target.now }
{
    RecvAsk {
        target: target_of(target),
        snap: snapshot_of(target),
        keep: keeps,
        force: forces,
        origin: match origin {
            Some(name) => Some(name.duplicate()),
            None => None,
        },
    }
}
