//! The limits of objects, of pools and of commands.
ghost use Rattle.std.specs.Prelude.{◌≡◌};
ghost use Rattle.zst_model.specs.pools.Limits.{last_number, last_guid, most_datasets, most_snapshots, most_bookmarks, most_runs, most_partials, largest_write};
ghost use Rattle.zst_model.specs.states.State.{number_bound, index_bound, largest_bonus, is_block_size, is_spill_size};

/// Object numbers stand below this (DN_MAX_OBJECT of dnode.h).
pub const NUMBER_BOUND: u64 = 1 << 48;

/// Indices stand below this, a limit of this project: an object of blocks of 131,072 bytes has at
/// most 2^60 bytes.
pub const INDEX_BOUND: u64 = 1 << 43;

/// The least and the most bytes of a block (SPA_MINBLOCKSIZE and SPA_OLD_MAXBLOCKSIZE of spa.h).
const SMALLEST_BLOCK: u64 = 512;

const LARGEST_BLOCK: u64 = 131_072;

/// The most bytes of a spill block (SPA_OLD_MAXBLOCKSIZE of spa.h), which larger blocks don't raise.
const LARGEST_SPILL: u64 = 131_072;

/// The most bytes of a bonus (DN_OLD_MAX_BONUSLEN of dnode.h).
pub const LARGEST_BONUS: u32 = 320;

/// The most bytes that a command writes.
pub const LARGEST_WRITE: u64 = 1 << 20;

/// The number of a pool's last commit.
pub const LAST_NUMBER: u64 = 1 << 63;

/// A pool's guid counter goes up to this.
pub const LAST_GUID: u64 = (1 << 32) - 1;

/// A pool has at most so many datasets; partial states of absent ones count too.
pub const MOST_DATASETS: usize = 256;

/// A pool has at most so many snapshots; each partial state counts as one.
pub const MOST_SNAPSHOTS: usize = 1024;

/// A pool has at most so many bookmarks.
pub const MOST_BOOKMARKS: usize = 1024;

/// The list of a redaction bookmark has at most so many runs.
pub const MOST_RUNS: usize = 65_536;

/// A pool has at most so many partial states.
pub const MOST_PARTIALS: usize = 16;

/// Law: the limits of numbers and of bytes in code are those of the definitions.
#[tactic(auto, unfolding(crate::specs::states::State::number_bound, crate::specs::states::State::index_bound, crate::specs::pools::Limits::last_number, crate::specs::pools::Limits::last_guid))]
pub fn limits_are_defined()
    ensures numbers { NUMBER_BOUND ≡ number_bound }
    ensures indices { INDEX_BOUND ≡ index_bound }
    ensures bonus { LARGEST_BONUS ≡ largest_bonus }
    ensures write { LARGEST_WRITE ≡ largest_write }
    ensures commits { LAST_NUMBER ≡ last_number }
    ensures guids { LAST_GUID ≡ last_guid }
{}

/// Law: and so are those of how many there are.
#[tactic(auto, unfolding(crate::specs::pools::Limits::most_datasets, crate::specs::pools::Limits::most_snapshots, crate::specs::pools::Limits::most_bookmarks, crate::specs::pools::Limits::most_runs, crate::specs::pools::Limits::most_partials))]
pub fn counts_are_defined()
    ensures datasets { MOST_DATASETS ≡ most_datasets }
    ensures snapshots { MOST_SNAPSHOTS ≡ most_snapshots }
    ensures bookmarks { MOST_BOOKMARKS ≡ most_bookmarks }
    ensures runs { MOST_RUNS ≡ most_runs }
    ensures partials { MOST_PARTIALS ≡ most_partials }
{}

/// Whether a block may have so many bytes.
#[tactic(auto, unfolding(crate::specs::states::State::is_block_size, crate::specs::states::State::largest_block))]
pub fn is_block_size(bytes: u64) -> bool
    ensures { result ≡ is_block_size bytes }
{
    SMALLEST_BLOCK <= bytes && bytes <= LARGEST_BLOCK && bytes % SMALLEST_BLOCK == 0
}

/// Whether a spill block may have so many bytes.
#[tactic(auto, unfolding(crate::specs::states::State::is_spill_size))]
pub fn is_spill_size(bytes: u64) -> bool
    ensures { result ≡ is_spill_size bytes }
{
    SMALLEST_BLOCK <= bytes && bytes <= LARGEST_SPILL && bytes % SMALLEST_BLOCK == 0
}
