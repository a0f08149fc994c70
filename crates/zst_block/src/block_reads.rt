// What is read of a pool's disk, and what is kept of it.
ghost use Rattle.std.specs.Prelude.{◌≡◌, ◌↔◌, ◌+◌, ◌≤◌, ◌||◌, List, ℕ, nat_eq, length, IsTrue, false, OnOk, Contains, Ok, Err};
ghost use Rattle.lru.specs.LruCache.{promoted};
ghost use Rattle.zst_fletcher.specs.WeightSum.{weight_sum, parts_of, IsWhole};
ghost use Rattle.zst_outside.specs.Images.{OnlyReads};
ghost use Rattle.zst_block.specs.Faults.{HasDiskCause, is_disk_fault};
ghost use Rattle.zst_block.specs.Blocks.{IsBlock, IsPlaced};
ghost use Rattle.zst_block.specs.KeptBlocks.{KeepsNone};
ghost use Rattle.zst_block.specs.ReadAnswers.{ReadAnswers, GivesBlock, Compares};
ghost use Rattle.zst_block.specs.IoStates.{IsHonest, blocks_of, disk_of, io_of};
ghost use Rattle.zst_block.specs.IoCalls.{Looks, TellsDamage, is_damage, stop_of, with_error};

use crate::cache::Cache;
use crate::fault::BlockFault;
use crate::io::Io;
use crate::node::Node;
use crate::ptr::Ptr;
use zst_fletcher::{Sum, sum_of};
use zst_outside::Disk;

/// Reads the block that a pointer names.
///
/// It is damaged where its bytes have other sums than the pointer states, and with both sums
/// alike where the pointer names no whole sectors of the disk. Either is counted. A call of the disk
/// is made at most once.
pub fn read<D: Disk>(io: &mut Io<'_, D>, ptr: Ptr, into: &mut [u8]) -> Result<(), BlockFault>
    requires length { length into.old ≡ ptr.length }

    // What is read is the block. Each answer has its cause, and a block that is there is read.
    ensures answer { IsHonest io.new → ReadAnswers (disk_of io.old).seen (disk_of io.old).size ptr into.new result }
    ensures there { (bytes : List ℕ) → IsHonest io.new → blocks_of io.old ptr bytes → GivesBlock bytes into.new result }
    ensures sum { OnOk result (weight_sum into.new ≡ ptr.sum) }
    ensures placed { OnOk result (IsPlaced (disk_of io.old).size ptr) }

    // The disk is read at most once, and a block that is damaged is counted.
    ensures looks { Looks (io_of io.old) (io_of io.new) (stop_of result) }
    ensures counted { io.new.checksum_errors ≡ with_error io.old.checksum_errors (stop_of result) }
    ensures calls { (disk_of io.new).calls ≤ (disk_of io.old).calls + 1 }
    ensures node { io.new.node ≡ io.old.node }
{
    let outcome = read_block(io.disk, &ptr, into);
    note(&mut io.failed, &mut io.checksum_errors, &outcome);
    outcome
}

/// Reads the block of a tree that a pointer names into the node.
///
/// A pointer to a block of another length than a node's is damaged, with both sums alike. A block
/// that is damaged is counted, each time that it is loaded. A call of the disk is made at most once.
pub fn load<D: Disk>(io: &mut Io<'_, D>, ptr: Ptr) -> Result<(), BlockFault>
    // What is loaded is the block, and a block that is there is loaded.
    ensures block { IsHonest io.new → OnOk result (IsBlock (disk_of io.old).seen ptr io.new.node) }
    ensures there { (bytes : List ℕ) → IsHonest io.new → blocks_of io.old ptr bytes → length bytes ≡ 8192 → GivesBlock bytes io.new.node result }
    ensures answer { IsHonest io.new → ptr.length ≡ 8192 → ReadAnswers (disk_of io.old).seen (disk_of io.old).size ptr io.new.node result }
    ensures damaged { IsHonest io.new → TellsDamage (disk_of io.old).seen (disk_of io.old).size ptr result }
    ensures long { OnOk result (length io.new.node ≡ 8192) }

    ensures looks { Looks (io_of io.old) (io_of io.new) (stop_of result) }
    ensures counted { io.new.checksum_errors ≡ with_error io.old.checksum_errors (stop_of result) }
    ensures calls { (disk_of io.new).calls ≤ (disk_of io.old).calls + 1 }
{
    if ptr.length != 8192 {
        let outcome = Err(BlockFault::of_layout(&ptr));
        note(&mut io.failed, &mut io.checksum_errors, &outcome);
        return outcome;
    }
    if is_kept(&mut io.cache, io.disk.bytes(), &ptr, &mut io.node) {
        let outcome = compare(&ptr, io.node.as_slice());
        note(&mut io.failed, &mut io.checksum_errors, &outcome);
        return outcome;
    }
    let outcome = io.node.read(io.disk, &ptr);
    note(&mut io.failed, &mut io.checksum_errors, &outcome);
    if outcome == Ok(()) && 8 <= ptr.sector {
        io.cache.keep(ptr.sector, &io.node);
    }
    outcome
}

// Whether the block that a pointer names in a disk of so many bytes is kept, and is then given.
fn is_kept(cache: &mut Cache, size: u64, ptr: &Ptr, into: &mut Node) -> bool
    ensures placed { IsTrue result → IsPlaced size ptr.now }
    ensures given { IsTrue result → Contains cache.old (ptr.now.sector, into.new) }
    ensures missed { result ≡ false → IsPlaced size ptr.now → KeepsNone cache.old ptr.now.sector }
    // The block that is given goes first, and all others stay.
    ensures order { IsTrue result → cache.new ≡ promoted (nat_eq ptr.now.sector) cache.old }
    ensures same { result ≡ false → cache.new ≡ cache.old }
{
    is_placed(size, ptr) && cache.give(ptr.sector, into)
}

// Notes what came of a read: a disk that fails is marked, and a block that is damaged counted.
fn note(failed: &mut bool, checksum_errors: &mut u64, outcome: &Result<(), BlockFault>)
    ensures failed { failed.new ≡ (failed.old || is_disk_fault outcome.now) }
    ensures counted { checksum_errors.new ≡ with_error checksum_errors.old (stop_of outcome.now) }
    ensures told { is_damage (stop_of outcome.now) ≡ false → checksum_errors.new ≡ checksum_errors.old }
{
    match outcome {
        Ok(()) | Err(BlockFault::Full { .. }) => {}
        Err(BlockFault::Damaged { .. }) => *checksum_errors = checksum_errors.saturating_add(1),
        Err(BlockFault::DiskFault) => *failed = true,
    }
}

// Reads the block that a pointer names from a disk.
pub(crate) fn read_block<D: Disk>(
    disk: &mut D,
    ptr: &Ptr,
    into: &mut [u8],
) -> Result<(), BlockFault>
    requires { length into.old ≡ ptr.now.length }
    ensures answer { (D.state disk.new).honest → ReadAnswers (D.state disk.old).seen (D.state disk.old).size ptr.now into.new result }
    ensures sum { OnOk result (weight_sum into.new ≡ ptr.now.sum) }
    ensures placed { OnOk result (IsPlaced (D.state disk.old).size ptr.now) }
    ensures never_full { (need largest : ℕ) → ¬ (result ≡ Err (BlockFault.Full need largest)) }
    ensures reads { OnlyReads (D.state disk.old) (D.state disk.new) }
    ensures calls { (D.state disk.new).calls ≤ (D.state disk.old).calls + 1 }
    ensures cause { HasDiskCause (D.state disk.old).faults (D.state disk.new).faults result }
{
    if !is_placed(disk.bytes(), ptr) {
        return Err(damaged(ptr, ptr.sum));
    }
    disk.read(512 * ptr.sector, into)?;
    compare(ptr, into)
}

// Compares the sum of a block's bytes with the one that its pointer states.
fn compare(ptr: &Ptr, bytes: &[u8]) -> Result<(), BlockFault>
    requires { IsWhole bytes.now }
    ensures { Compares ptr.now bytes.now result }
{
    let found = sum_of(bytes);
    if found == ptr.sum {
        Ok(())
    } else {
        Err(damaged(ptr, found))
    }
}

// Whether the pointer names whole sectors of a disk of so many bytes.
fn is_placed(size: u64, ptr: &Ptr) -> bool
    ensures { IsTrue result ↔ IsPlaced size ptr.now }
{
    let length = u64::from(ptr.length);
    length % 512 == 0 && length <= size && ptr.sector <= (size - length) / 512
}

fn damaged(ptr: &Ptr, found: Sum) -> BlockFault
    ensures { result ≡ BlockFault.Damaged ptr.now.sector (parts_of ptr.now.sum) (parts_of found) }
{
    BlockFault::Damaged {
        sector: ptr.sector,
        stated: ptr.sum.parts(),
        found: found.parts(),
    }
}
