//! The contents of two indices, and two spills, compared.
ghost use Rattle.std.specs.Prelude.{◌≡◌, ◌↔◌, ◌≤◌, ℕ, List, Option, IsTrue, OnOk, false, length};
ghost use Rattle.zst_block.specs.IoStates.{IsHonest, blocks_of, disk_of, io_of};
ghost use Rattle.zst_block.specs.IoCalls.{Looks, stop_of};
ghost use Rattle.zst_block.specs.Ptr.{is_flat};
ghost use Rattle.zst_dnode.specs.Dnode.{is_spill};
ghost use Rattle.zst_model.specs.states.State.{Content};
ghost use Rattle.zst_objset.specs.Damage.{IfDamaged, IsDamagedData};
ghost use Rattle.zst_objset.specs.Dnodes.{SpillIs};
ghost use Rattle.zst_tree.specs.Damage.{IsSeen};
ghost use Rattle.zst_tree.specs.Indices.{Delivers};
ghost use Rattle.zst_compare.specs.Contents.{ContentIs};
ghost use Rattle.zst_compare.specs.Damage.{IsDamagedSpill, OfEither};

use zst_block::{BlockFault, Io, Ptr, read};
use zst_outside::Disk;

// Reads the block of data that a pointer names. One of another length than these bytes isn't of the
// layout, nor is one of another kind.
fn read_data<D: Disk>(io: &mut Io<'_, D>, ptr: &Ptr, into: &mut [u8]) -> Result<(), BlockFault>
    ensures there { (bytes : List ℕ) → IsHonest io.new → ptr.now.kind ≡ 1 → blocks_of io.old ptr.now bytes → length bytes ≡ length into.old → Delivers (λ done. into.new ≡ bytes) result }
    ensures long { length into.new ≡ length into.old }
    ensures damaged { IsHonest io.new → is_flat ptr.now ≡ false → IfDamaged result (IsDamagedData (IsSeen (disk_of io.old).seen) (disk_of io.old).size (length into.old) ptr.now) }
    ensures looks { Looks (io_of io.old) (io_of io.new) (stop_of result) }
{
    if ptr.kind != 1 || ptr.length as usize != into.len() {
        return Err(BlockFault::of_layout(ptr));
    }
    read(io, *ptr, into)
}

// Whether two blocks of data of one length have the same bytes. They are read where their sums are the
// same and their places aren't.
fn same_data<D: Disk>(
    io: &mut Io<'_, D>,
    later: &Ptr,
    earlier: &Ptr,
    size: u32,
) -> Result<bool, BlockFault>
    requires size { size ≤ 131072 }
    ensures same { (now was : List ℕ) → IsHonest io.new → later.now.kind ≡ 1 → earlier.now.kind ≡ 1 → blocks_of io.old later.now now → blocks_of io.old earlier.now was → length now ≡ size → length was ≡ size
        → Delivers (λ same. IsTrue same ↔ (was ≡ now)) result }
    ensures damaged { IsHonest io.new → is_flat later.now ≡ false → is_flat earlier.now ≡ false → IfDamaged result (OfEither
        (IsDamagedData (IsSeen (disk_of io.old).seen) (disk_of io.old).size size later.now)
        (IsDamagedData (IsSeen (disk_of io.old).seen) (disk_of io.old).size size earlier.now)) }
    ensures looks { Looks (io_of io.old) (io_of io.new) (stop_of result) }
{
    if later.sum != earlier.sum {
        return Ok(false);
    }
    if later.sector == earlier.sector && later.length == earlier.length {
        return Ok(true);
    }
    let mut now = [0; 131072];
    let mut was = [0; 131072];
    let now = &mut now[..size as usize];
    let was = &mut was[..size as usize];
    read_data(io, later, now)?;
    read_data(io, earlier, was)?;
    Ok(*was == *now)
}

/// Whether two pointers stand for the same content, each in an object with blocks of its size.
pub(crate) fn same_content<D: Disk>(
    io: &mut Io<'_, D>,
    later: &Ptr,
    later_size: u32,
    earlier: &Ptr,
    earlier_size: u32,
) -> Result<bool, BlockFault>
    requires size { later_size ≤ 131072 }
    ensures same { (now was : Content) → IsHonest io.new → ContentIs (blocks_of io.old) later_size later.now now → ContentIs (blocks_of io.old) earlier_size earlier.now was
        → Delivers (λ same. IsTrue same ↔ (was ≡ now)) result }
    ensures damaged { IsHonest io.new → IfDamaged result (OfEither
        (IsDamagedData (IsSeen (disk_of io.old).seen) (disk_of io.old).size later_size later.now)
        (IsDamagedData (IsSeen (disk_of io.old).seen) (disk_of io.old).size earlier_size earlier.now)) }
    ensures looks { Looks (io_of io.old) (io_of io.new) (stop_of result) }
{
    if later.kind != earlier.kind {
        return Ok(false);
    }
    if later.kind == 0 {
        return Ok(true);
    }
    if later_size != earlier_size {
        return Ok(false);
    }
    if later.kind == 2 {
        return Ok(true);
    }
    same_data(io, later, earlier, later_size)
}

/// Whether two pointers stand for the same spill.
pub(crate) fn same_spill<D: Disk>(
    io: &mut Io<'_, D>,
    later: &Ptr,
    earlier: &Ptr,
) -> Result<bool, BlockFault>
    requires later { IsTrue (is_spill later.now) }
    requires earlier { IsTrue (is_spill earlier.now) }
    ensures same { (now was : Option (List ℕ)) → IsHonest io.new → SpillIs (blocks_of io.old) later.now now → SpillIs (blocks_of io.old) earlier.now was
        → Delivers (λ same. IsTrue same ↔ (was ≡ now)) result }
    ensures damaged { IsHonest io.new → IfDamaged result (OfEither
        (IsDamagedSpill (IsSeen (disk_of io.old).seen) (disk_of io.old).size later.now)
        (IsDamagedSpill (IsSeen (disk_of io.old).seen) (disk_of io.old).size earlier.now)) }
    ensures looks { Looks (io_of io.old) (io_of io.new) (stop_of result) }
{
    if later.kind != earlier.kind {
        return Ok(false);
    }
    if later.kind == 0 {
        return Ok(true);
    }
    if later.length != earlier.length {
        return Ok(false);
    }
    same_data(io, later, earlier, later.length)
}
