// A block is written into free sectors, and what is kept of these is forgotten.
ghost use Rattle.std.specs.Prelude.{◌≡◌, ◌*◌, ◌/◌, ◌%◌, ◌^◌, ◌<◌, ◌≤◌, List, ℕ, length, OnOk, IfOk, IsErr, []};
ghost use Rattle.zst_fletcher.specs.WeightSum.{weight_sum};
ghost use Rattle.zst_outside.specs.Images.{WritesIn};
ghost use Rattle.zst_space.specs.FreeSectors.{largest_of};
ghost use Rattle.zst_space.specs.TakenExtents.{place_of, without};
ghost use Rattle.zst_block.specs.Blocks.{FitsDisk};
ghost use Rattle.zst_block.specs.BlockWrites.{WritesBlock};
ghost use Rattle.zst_block.specs.KeptBlocks.{Forgets, Keeps};
ghost use Rattle.zst_block.specs.IoStates.{blocks_of, io_of};
ghost use Rattle.zst_block.specs.IoCalls.{Works, stop_of};

use crate::cache::Cache;
use crate::fault::BlockFault;
use crate::io::Io;
use crate::node::Node;
use crate::ptr::Ptr;
use zst_fletcher::sum_of;
use zst_outside::{Disk, Fault};
use zst_space::Space;

/// Writes a block into free sectors, and gives the pointer that names it, with kind 1.
///
/// Whatever it answers, every block that was there still is, and each image that a crash may
/// leave has all blocks of one that it might have left before.
pub fn write<D: Disk>(
    io: &mut Io<'_, D>,
    bytes: &[u8],
    level: u8,
    number: u64,
) -> Result<Ptr, BlockFault>
    requires some { 0 < length bytes.now }
    requires whole { length bytes.now % 512 ≡ 0 }
    requires small { length bytes.now < 2 ^ 32 }

    ensures block { WritesBlock bytes.now level number (io_of io.old) (io_of io.new) result }
    ensures untouched { largest_of io.old.space < length bytes.now / 512 → io.new.disk.now ≡ io.old.disk.now }
    ensures node { io.new.node ≡ io.old.node }
{
    let outcome = write_block(io.disk, &mut io.space, &mut io.failed, bytes, level, number);
    forget_written(&mut io.cache, &outcome);
    outcome
}

/// Writes the node into free sectors as a block of a tree, and gives the pointer that names it,
/// with kind 1.
///
/// Whatever it answers, every block that was there still is, and each image that a crash may
/// leave has all blocks of one that it might have left before.
pub fn save<D: Disk>(io: &mut Io<'_, D>, level: u8, number: u64) -> Result<Ptr, BlockFault>
    ensures block { WritesBlock io.old.node level number (io_of io.old) (io_of io.new) result }
    ensures node { io.new.node ≡ io.old.node }

    // It has 8,192 bytes and 16 sectors.
    ensures long { length io.old.node ≡ 8192 }
    ensures wrote { IfOk result (λ ptr. blocks_of io.new ptr io.old.node) }
    ensures pointer { IfOk result (λ ptr. ptr ≡ record { kind = 1; level = level; length = 8192; sector = place_of io.old.space 16; number = number; sum = weight_sum io.old.node }) }
    ensures after { OnOk result (io.new.space ≡ without io.old.space 16) }
    ensures works { Works 16 16 (io_of io.old) (io_of io.new) (stop_of result) }
    ensures never_damaged { (sector : ℕ) (stated found : List ℕ) → ¬ (result ≡ Err (BlockFault.Damaged sector stated found)) }
{
    let outcome = write_block(
        io.disk,
        &mut io.space,
        &mut io.failed,
        io.node.as_slice(),
        level,
        number,
    );
    forget_written(&mut io.cache, &outcome);
    keep_saved(&mut io.cache, &outcome, &io.node);
    outcome
}

// Forgets what is kept of the sectors of a block that was written, and all where none was.
fn forget_written(cache: &mut Cache, outcome: &Result<Ptr, BlockFault>)
    ensures wrote { IfOk outcome.now (λ ptr. Forgets cache.old cache.new ptr.sector (ptr.length / 512)) }
    ensures none { IsErr outcome.now → cache.new ≡ [] }
{
    match outcome {
        Ok(ptr) => cache.forget(ptr.sector, u64::from(ptr.length) / 512),
        Err(_) => cache.clear(),
    }
}

// Keeps a node that was saved.
fn keep_saved(cache: &mut Cache, outcome: &Result<Ptr, BlockFault>, node: &Node)
    ensures saved { IfOk outcome.now (λ ptr. Keeps cache.old cache.new ptr.sector node.now) }
    ensures same { IsErr outcome.now → cache.new ≡ cache.old }
{
    if let Ok(ptr) = outcome {
        cache.keep(ptr.sector, node);
    }
}

// Writes a block for a write or a save, and marks a disk that fails.
fn write_block<D: Disk>(
    disk: &mut D,
    space: &mut Space,
    failed: &mut bool,
    bytes: &[u8],
    level: u8,
    number: u64,
) -> Result<Ptr, BlockFault>
    requires some { 0 < length bytes.now }
    requires whole { length bytes.now % 512 ≡ 0 }
    requires small { length bytes.now < 2 ^ 32 }
    requires fits { FitsDisk (D.state disk.old).size space.old }

    // Of the Io that the disk, the sectors and the mark are borrowed from.
    ensures block { (checksum_errors reference : ℕ) → WritesBlock bytes.now level number (record { disk = D.state disk.old; space = space.old; failed = failed.old; checksum_errors = checksum_errors; reference = reference }) (record { disk = D.state disk.new; space = space.new; failed = failed.new; checksum_errors = checksum_errors; reference = reference }) result }
    ensures writes { IfOk result (λ ptr. WritesIn (512 * ptr.sector) ptr.length (D.state disk.old) (D.state disk.new)) }
    ensures untouched { largest_of space.old < length bytes.now / 512 → disk.new ≡ disk.old }
    ensures fits { FitsDisk (D.state disk.new).size space.new }
{
    let count = bytes.len() as u64 / 512;
    match space.take(count) {
        Err(full) => Err(BlockFault::from(full)),
        Ok(sector) => {
            let place = place_in(disk, sector);
            match disk.write_at(place, bytes) {
                Ok(()) => Ok(Ptr {
                    kind: 1,
                    level,
                    length: bytes.len() as u32,
                    sector,
                    number,
                    sum: sum_of(bytes),
                }),
                Err(Fault) => {
                    *failed = true;
                    Err(BlockFault::DiskFault)
                }
            }
        }
    }
}

// The place of a sector that the disk has.
fn place_in<D: Disk>(disk: &D, sector: u64) -> u64
    requires { 512 * sector ≤ (D.state disk.now).size }
    ensures { result ≡ 512 * sector }
{
    let size = disk.bytes();
    prove!(sector <= size / 512);
    512 * sector
}
