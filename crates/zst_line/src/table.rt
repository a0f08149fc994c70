//! The places of the named words of each line.
ghost use Rattle.std.specs.Prelude.{◌≡◌};
ghost use Rattle.zst_line.specs.Grammar.{front};

use crate::kind::Kind;
use crate::name_kinds::Names;
use crate::word_slot::WordSlot;
use zst_model::limits::LARGEST_WRITE;

pub const DATASET: Names = Names {
    datasets: true,
    snapshots: false,
    bookmarks: false,
};

pub const SNAPSHOT: Names = Names {
    datasets: false,
    snapshots: true,
    bookmarks: false,
};

pub const BOOKMARK: Names = Names {
    datasets: false,
    snapshots: false,
    bookmarks: true,
};

pub const DATASET_OR_SNAPSHOT: Names = Names {
    datasets: true,
    snapshots: true,
    bookmarks: false,
};

pub const SNAPSHOT_OR_BOOKMARK: Names = Names {
    datasets: false,
    snapshots: true,
    bookmarks: true,
};

const ANY_NAME: Names = Names {
    datasets: true,
    snapshots: true,
    bookmarks: true,
};

/// The numbers of objects, and counts: all of 64 bits but 0.
const COUNT: WordSlot = WordSlot::Number {
    low: 1,
    high: u64::MAX,
};

/// The indices of blocks: all numbers of 64 bits.
const INDEX: WordSlot = WordSlot::Number {
    low: 0,
    high: u64::MAX,
};

const CREATE: [WordSlot; 3] = [
    WordSlot::Image,
    WordSlot::Number {
        low: 128,
        high: 1 << 31,
    },
    WordSlot::Number {
        low: 1,
        high: (1 << 31) - 1,
    },
];

const ON_IMAGE: [WordSlot; 1] = [WordSlot::Image];

const ON_DATASET: [WordSlot; 2] = [WordSlot::Image, WordSlot::Name(DATASET)];

const ON_SNAPSHOT: [WordSlot; 2] = [WordSlot::Image, WordSlot::Name(SNAPSHOT)];

const ON_EITHER: [WordSlot; 2] = [WordSlot::Image, WordSlot::Name(DATASET_OR_SNAPSHOT)];

const OBJECT: [WordSlot; 8] = [
    WordSlot::Image,
    WordSlot::Name(DATASET),
    COUNT,
    WordSlot::Number {
        low: 1,
        high: (1 << 32) - 1,
    },
    WordSlot::BlockSize,
    WordSlot::Number {
        low: 0,
        high: (1 << 32) - 1,
    },
    WordSlot::Bonus,
    WordSlot::Spill,
];

const WRITE: [WordSlot; 5] = [
    WordSlot::Image,
    WordSlot::Name(DATASET),
    COUNT,
    INDEX,
    WordSlot::HexBytes {
        most: LARGEST_WRITE,
    },
];

const PUNCH: [WordSlot; 5] = [
    WordSlot::Image,
    WordSlot::Name(DATASET),
    COUNT,
    INDEX,
    COUNT,
];

const FREE: [WordSlot; 4] = [WordSlot::Image, WordSlot::Name(DATASET), COUNT, COUNT];

const READ: [WordSlot; 4] = [
    WordSlot::Image,
    WordSlot::Name(DATASET_OR_SNAPSHOT),
    COUNT,
    INDEX,
];

const CLONE: [WordSlot; 3] = [
    WordSlot::Image,
    WordSlot::Name(SNAPSHOT),
    WordSlot::Name(DATASET),
];

const ON_BOOKMARK: [WordSlot; 3] = [
    WordSlot::Image,
    WordSlot::Name(SNAPSHOT),
    WordSlot::Name(BOOKMARK),
];

const DESTROY: [WordSlot; 2] = [WordSlot::Image, WordSlot::Name(ANY_NAME)];

const GEN: [WordSlot; 2] = [WordSlot::Image, WordSlot::Number { low: 1, high: 64 }];

const REPLAY: [WordSlot; 2] = [WordSlot::Image, WordSlot::Image];

/// The places of a line that says with a token where a stream goes on.
pub const RESUME: [WordSlot; 3] = [WordSlot::Given, WordSlot::Token, WordSlot::Image];

/// The place of each of the snapshots at the end of `redact`.
pub const LAST_SNAPSHOT: WordSlot = WordSlot::Name(SNAPSHOT);

/// The places of the named words of a line, of which so many stand, without the last snapshots of `redact`.
pub fn front(kind: Kind, count: usize) -> &'static [WordSlot]
    ensures { result.now ≡ front kind count }
{
    match kind {
        Kind::Dump => &[],
        Kind::Create => &CREATE,
        Kind::Fs | Kind::Volume | Kind::Abort | Kind::Token => &ON_DATASET,
        Kind::Object => &OBJECT,
        Kind::Write => &WRITE,
        Kind::Punch => &PUNCH,
        Kind::Free => &FREE,
        Kind::Read => &READ,
        Kind::List if count < 2 => &ON_IMAGE,
        Kind::List | Kind::Receive => &ON_EITHER,
        Kind::Snapshot | Kind::Rollback | Kind::Send => &ON_SNAPSHOT,
        Kind::Clone => &CLONE,
        Kind::Bookmark | Kind::Redact => &ON_BOOKMARK,
        Kind::Destroy => &DESTROY,
        Kind::Check | Kind::Reclaim => &ON_IMAGE,
        Kind::Gen => &GEN,
        Kind::Replay => &REPLAY,
    }
}
