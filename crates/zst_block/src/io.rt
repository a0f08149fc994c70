ghost use Rattle.std.specs.Prelude.{◌≡◌, ◌*◌, ◌≤◌, List, ℕ, false, Contains};
ghost use Rattle.zst_outside.specs.Ranges.{bytes_at};
ghost use Rattle.zst_block.specs.Blocks.{FitsDisk, FitsDisk-prop};

use crate::cache::Cache;
use crate::node::Node;
use std::alloc::Global;
use zst_outside::Disk;
use zst_space::Space;

/// The disk of a pool, its free sectors, and one block of a tree in memory.
#[derive(Drop)]
pub struct Io<'d, D: Disk> {
    /// The disk.
    pub disk: &'d mut D,
    /// The sectors into which blocks may be written.
    pub space: Space,
    /// Whether the disk has failed.
    pub failed: bool,
    /// How many reads of blocks found other bytes than their sums state, or were of pointers that
    /// name no whole sectors, or no block of a tree, as `vs_checksum_errors` of a vdev counts. It
    /// stays at 2^64 - 1 once it is there.
    pub checksum_errors: u64,
    /// The block of a tree that was loaded, or is to be saved.
    pub node: Node,
    // Blocks of trees that were read or saved. Each is what a read of its sectors gives.
    pub(crate) cache: Cache,
    // The free sectors are sectors of the disk, and 0 to 7 are none of them.
    ghost fits: { FitsDisk (D.state disk.now).size space } by { FitsDisk-prop (D.state disk.now).size space },
    ghost told: { (D.state disk.now).honest → (sector : ℕ) (bytes : List ℕ) → Contains cache (sector, bytes) → bytes_at (D.state disk.now).seen (512 * sector) 8192 ≡ bytes },
    // None stands in sectors 0 to 7, which a commit writes.
    ghost behind: { (sector : ℕ) (bytes : List ℕ) → Contains cache (sector, bytes) → 8 ≤ sector },
}

impl<'d, D: Disk> Io<'d, D> {
    /// A disk that hasn't failed, with its free sectors. No block of it is kept yet.
    pub fn new(alloc: Global, disk: &'d mut D, space: Space) -> Io<'d, D>
        requires { FitsDisk (D.state disk.old).size space }
        ensures same { result.disk.ghost_name ≡ disk.entry.ghost_name }
        ensures disk { result.disk.now ≡ disk.old }
        ensures space { result.space ≡ space }
        ensures failed { result.failed ≡ false }
        ensures checksum_errors { result.checksum_errors ≡ 0 }
    {
        Io {
            disk,
            space,
            failed: false,
            checksum_errors: 0,
            node: Node::new(),
            cache: Cache::new(alloc),
        }
    }

    /// Gives the disk back.
    pub fn into_disk(self) -> &'d mut D
        ensures same { result.ghost_name ≡ self.entry.disk.ghost_name }
        ensures disk { result.now ≡ self.entry.disk.now }
    {
        let Io { disk, .. } = self;
        disk
    }
}
