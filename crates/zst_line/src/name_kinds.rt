//! The kind of name that a word is read as.
ghost use Rattle.std.specs.Prelude.{◌≡◌, MatchOption, true};
ghost use Rattle.zst_line.specs.NameKinds.{has, kind_of_name, takes, IsNamed, NamedStops};

use zst_names::{BookName, DatasetName, SnapName};

/// The kinds of names.
#[derive(Clone, Copy)]
pub enum NameKind {
    Dataset,
    Snapshot,
    Bookmark,
}

/// Which kinds of names may stand at a place.
#[derive(Clone, Copy)]
pub struct Names {
    pub datasets: bool,
    pub snapshots: bool,
    pub bookmarks: bool,
}

impl Names {
    /// Whether a name of this kind may stand there.
    pub fn takes(self, kind: NameKind) -> bool
        ensures { result ≡ takes self kind }
    {
        match kind {
            NameKind::Dataset => self.datasets,
            NameKind::Snapshot => self.snapshots,
            NameKind::Bookmark => self.bookmarks,
        }
    }
}

fn has(word: &str, mark: u8) -> bool
    ensures { result ≡ has mark word.now }
{
    word.as_bytes().iter().any(|byte| *byte == mark)
}

/// The kind that a word's marks say.
pub fn kind_of_name(word: &str) -> NameKind
    ensures { result ≡ kind_of_name word.now }
{
    if has(word, b'@') {
        NameKind::Snapshot
    } else if has(word, b'#') {
        NameKind::Bookmark
    } else {
        NameKind::Dataset
    }
}

/// The byte at which a word stops being a name of its kind, or None where it is one.
pub fn stop_of(word: &str) -> Option<u64>
    ensures { MatchOption result (IsNamed word.now) (λ at. NamedStops word.now at) }
{
    match kind_of_name(word) {
        NameKind::Dataset => DatasetName::parse(word).err().map(|fault| fault.place),
        NameKind::Snapshot => SnapName::parse(word).err().map(|fault| fault.place),
        NameKind::Bookmark => BookName::parse(word).err().map(|fault| fault.place),
    }
}
