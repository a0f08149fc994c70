ghost use Rattle.std.specs.Prelude.{◌≡◌, ◌%◌, ◌≤◌, List, None, Some, ℕ, length, take, IfErr, IfOk, OnOk};
ghost use Rattle.zst_block.specs.IoStates.{IsHonest, blocks_of, disk_of, io_of};
ghost use Rattle.zst_block.specs.IoCalls.{stop_of};
ghost use Rattle.zst_objset.specs.Damage.{IfDamaged};
ghost use Rattle.zst_send.specs.BufferReads.{ReadsAtMost};
ghost use Rattle.zst_send.specs.Damage.{IsDamagedLoad, IsDamagedRead};
ghost use Rattle.zst_send.specs.PendingRecords.{BufferFits, HoldsBlock, IsLoaded};
ghost use Rattle.zst_tree.specs.Damage.{IsSeen};
ghost use Rattle.zst_tree.specs.Indices.{Delivers};
ghost use Rattle.zst_tree.specs.Steps.{LooksAtMost};

use std::alloc::{AllocError, Global};
use zst_block::{BlockFault, Io, Ptr, read};
use zst_outside::Disk;
use zst_record::LONGEST_PAYLOAD;

/// Memory for one block, and which block it has.
#[derive(Drop)]
pub(crate) struct BlockBuffer {
    bytes: Vec<u8>,
    holds: Option<Ptr>,
}

impl BlockBuffer {
    /// Memory for the longest block, with none in it.
    pub(crate) fn new(alloc: Global) -> Result<BlockBuffer, AllocError>
        ensures holds { IfOk result (λ buffer. buffer.holds ≡ None) }
        ensures fits { IfOk result BufferFits }
    {
        let bytes = vec![in alloc; 0; LONGEST_PAYLOAD]?;
        Ok(BlockBuffer { bytes, holds: None })
    }

    /// The pointer to the block that it has, where it has one.
    pub(crate) fn holds(&self) -> Option<Ptr>
        ensures { result ≡ self.now.holds }
    {
        self.holds
    }

    /// Has the block that a pointer names, which is read where it has another.
    ///
    /// A block that is longer than any that a stream has isn't of its layout.
    pub(crate) fn load<D: Disk>(&mut self, io: &mut Io<'_, D>, ptr: &Ptr) -> Result<(), BlockFault>
        requires buffer { BufferFits self.old }

        // What is there is loaded, and what was loaded stays so.
        ensures there { (bytes : List ℕ) → IsHonest io.new → IsLoaded (blocks_of io.old) self.old → blocks_of io.old ptr.now bytes
            → length bytes ≤ 131072 → Delivers (λ done. take ptr.now.length self.new.bytes.items ≡ bytes) result }
        ensures loaded { (bytes : List ℕ) → IsHonest io.new → IsLoaded (blocks_of io.old) self.old → blocks_of io.old ptr.now bytes
            → IsLoaded (blocks_of io.new) self.new }

        // It is read at most once, and not where it was there already.
        ensures reads { ReadsAtMost 1 (λ images size. IsDamagedLoad images size ptr.now) (io_of io.old) (io_of io.new) self.new result }
        ensures kept { self.old.holds ≡ Some ptr.now → (disk_of io.new).calls ≤ (disk_of io.old).calls }
        ensures held { self.old.holds ≡ Some ptr.now → IfErr result (λ fault. ⊥) }
        ensures holds { OnOk result (HoldsBlock ptr.now self.new) }
    {
        if self.holds == Some(*ptr) {
            return Ok(());
        }
        if ptr.length as usize > LONGEST_PAYLOAD {
            return Err(BlockFault::of_layout(ptr));
        }
        self.holds = None;
        read_front(io, *ptr, self.bytes.as_mut_slice())?;
        self.holds = Some(*ptr);
        Ok(())
    }

    /// The first bytes of the block that it has.
    pub(crate) fn block(&self, length: u32) -> &[u8]
        requires buffer { BufferFits self.now }
        requires length { length ≤ 131072 }
        ensures { result.now ≡ take length self.now.bytes.items }
    {
        &self.bytes.as_slice()[..length as usize]
    }
}

// Reads the block that a pointer names into the first bytes of these.
fn read_front<D: Disk>(io: &mut Io<'_, D>, ptr: Ptr, into: &mut [u8]) -> Result<(), BlockFault>
    requires into { ptr.length ≤ length into.old }
    ensures there { (bytes : List ℕ) → IsHonest io.new → blocks_of io.old ptr bytes → Delivers (λ done. take ptr.length into.new ≡ bytes) result }
    ensures long { length into.new ≡ length into.old }
    ensures whole { OnOk result (ptr.length % 512 ≡ 0) }
    ensures damaged { IsHonest io.new → IfDamaged result (IsDamagedRead (IsSeen (disk_of io.old).seen) (disk_of io.old).size ptr) }
    ensures looks { LooksAtMost 1 (io_of io.old) (io_of io.new) (stop_of result) }
{
    read(io, ptr, &mut into[..ptr.length as usize])
}
