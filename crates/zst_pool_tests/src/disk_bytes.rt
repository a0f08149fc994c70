//! What a disk has.
ghost use Rattle.std.specs.Prelude.{◌≡◌, length, IfOk};
ghost use Rattle.zst_outside.specs.Ranges.{bytes_at};

use std::alloc::Global;
use zst_model::Refusal;
use zst_outside::{Disk, MemDisk};

/// All bytes of a disk, unless its read fails or no memory is left.
pub fn bytes_of(alloc: Global, disk: &mut MemDisk) -> Result<Vec<u8>, Refusal>
    ensures size { IfOk result (λ bytes. length bytes.items ≡ (⟦<MemDisk as Disk>⟧.state disk.old).size) }
    ensures seen { (⟦<MemDisk as Disk>⟧.state disk.new).honest → IfOk result (λ bytes. bytes.items ≡ bytes_at (⟦<MemDisk as Disk>⟧.state disk.old).seen 0 (⟦<MemDisk as Disk>⟧.state disk.old).size) }
{
    let Ok(mut bytes) = vec![in alloc; 0; disk.bytes() as usize] else {
        return Err(Refusal::OutOfMemory);
    };
    match disk.read(0, &mut bytes) {
        Ok(()) => Ok(bytes),
        Err(_) => Err(Refusal::DiskFault),
    }
}
