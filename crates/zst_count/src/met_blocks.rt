// The blocks that a walk has met.
ghost use Rattle.std.specs.Prelude.{◌≡◌, ◌≤◌, ℕ, List, vec_len};
ghost use Rattle.zst_block.specs.IoStates.{IsHonest, blocks_of, disk_of, io_of};
ghost use Rattle.zst_block.specs.IoCalls.{Looks, stop_of};
ghost use Rattle.zst_block.specs.ReadAnswers.{ReadAnswers};
ghost use Rattle.zst_marks.specs.Marks.{HasRoomFor};
ghost use Rattle.zst_tree.specs.Indices.{Delivers};
ghost use Rattle.zst_count.specs.declared.met_blocks.TheConstants.{LONGEST_BLOCK};

use std::alloc::{AllocError, Global};
use zst_block::{BlockFault, Io, Ptr, read};
use zst_marks::Marks;
use zst_outside::Disk;

/// The longest block of data.
const LONGEST_BLOCK: usize = 131_072;

/// The first sectors of the blocks that were met before an end, one bit each, and room to read a block of data.
#[derive(Drop)]
pub(crate) struct MetBlocks {
    marks: Marks,
    end: u64,
    room: Vec<u8>,
    ghost bits: { HasRoomFor marks end },
    ghost long: { vec_len room ≡ LONGEST_BLOCK },
}

impl MetBlocks {
    ghost use Rattle.std.specs.Prelude.{◌↔◌, ◌⊎◌, ◌<◌, IfOk, OnOk, false};
    ghost use Rattle.zst_block.specs.Blocks.{IsBlock};
    ghost use Rattle.zst_block.specs.Ptr.{is_flat};
    ghost use Rattle.zst_marks.specs.Marks.{IsMarked};
    ghost use Rattle.zst_objset.specs.Damage.{IfDamaged, IsDamagedData};
    ghost use Rattle.zst_tree.specs.Damage.{IsSeen};
    ghost use Rattle.zst_count.specs.FirstSectors.{Counts};
    ghost use Rattle.zst_count.specs.StandingData.{IsDataThere};

    /// None yet.
    pub(crate) fn new(alloc: Global, end: u64) -> Result<MetBlocks, AllocError>
        ensures none { IfOk result (λ met. (sector : ℕ) → ¬ IsMarked met.marks sector) }
        ensures end { IfOk result (λ met. met.end ≡ end) }
    {
        let marks = Marks::new(alloc, end)?;
        let room = vec![in alloc; 0; LONGEST_BLOCK]?;
        Ok(MetBlocks { marks, end, room })
    }

    /// A block was met.
    pub(crate) fn meet(&mut self, ptr: &Ptr)
        ensures met { (sector : ℕ) → IsMarked self.new.marks sector ↔ (((sector ≡ ptr.now.sector) × (sector < self.old.end)) ⊎ IsMarked self.old.marks sector) }
        ensures end { self.new.end ≡ self.old.end }
    {
        if ptr.sector < self.end {
            self.marks.mark(ptr.sector, 1);
        }
    }

    /// Reads a block of data of so many bytes. One of another length isn't of the layout, nor is one of another kind.
    pub(crate) fn read_data<D: Disk>(
        &mut self,
        io: &mut Io<'_, D>,
        ptr: &Ptr,
        length: u32,
    ) -> Result<(), BlockFault>
        requires { length ≤ LONGEST_BLOCK }
        ensures block { IsHonest io.new → OnOk result ((bytes : List ℕ) × IsBlock (disk_of io.old).seen ptr.now bytes) }
        ensures there { IsHonest io.new → IsDataThere (blocks_of io.old) length ptr.now → Delivers (λ done. Unit {0}) result }
        ensures damaged { IsHonest io.new → is_flat ptr.now ≡ false → IfDamaged result (IsDamagedData (IsSeen (disk_of io.old).seen) (disk_of io.old).size length ptr.now) }
        ensures met { (self.new.marks ≡ self.old.marks) × (self.new.end ≡ self.old.end) }
        ensures looks { Looks (io_of io.old) (io_of io.new) (stop_of result) }
    {
        if ptr.kind != 1 || ptr.length != length {
            return Err(BlockFault::of_layout(ptr));
        }
        read_front(io, *ptr, &mut self.room)
    }

    /// How many different ones were met.
    pub(crate) fn count(&self) -> u64
        ensures { Counts (λ sector. (sector < self.now.end) × IsMarked self.now.marks sector) result }
    {
        let mut count = 0;
        for sector in 0..self.end {
            if self.marks.has(sector) {
                count += 1;
            }
        }
        count
    }
}

// Reads the block that a pointer names into the first bytes of a room that has as many.
fn read_front<D: Disk>(io: &mut Io<'_, D>, ptr: Ptr, room: &mut Vec<u8>) -> Result<(), BlockFault>
    requires room { ptr.length ≤ vec_len room.old }
    ensures answer { IsHonest io.new → (read : List ℕ) × ReadAnswers (disk_of io.old).seen (disk_of io.old).size ptr read result }
    ensures there { (bytes : List ℕ) → IsHonest io.new → blocks_of io.old ptr bytes → Delivers (λ done. Unit {0}) result }
    ensures long { vec_len room.new ≡ vec_len room.old }
    ensures looks { Looks (io_of io.old) (io_of io.new) (stop_of result) }
{
    read(io, ptr, &mut room[..ptr.length as usize])
}
