//! Disks in memory.
ghost use Rattle.std.specs.Prelude.{◌≡◌, IfOk};

use std::alloc::{AllocError, Global};
use zst_block::Io;
use zst_outside::{Disk, SureDisk};
use zst_space::Space;

/// 32,768 sectors of zeros.
pub fn zeros(alloc: Global) -> Result<SureDisk, AllocError>
    ensures size { IfOk result (λ d. (⟦<SureDisk as Disk>⟧.state d).size ≡ 16777216) }
{
    Ok(SureDisk::new(vec![in alloc; 0; 16_777_216]?))
}

/// Its sectors from 8 on are free.
pub fn all_free<'d>(alloc: Global, disk: &'d mut SureDisk) -> Io<'d, SureDisk>
    requires { (⟦<SureDisk as Disk>⟧.state disk.old).size ≡ 16777216 }
    ensures same { result.disk.ghost_name ≡ disk.entry.ghost_name }
{
    Io::new(alloc, disk, Space::new(8, 32_768, Vec::new(alloc)))
}

/// The same disk and what is free of it, where no block is kept.
pub fn unread<'d, D: Disk>(alloc: Global, io: Io<'d, D>) -> Result<Io<'d, D>, AllocError>
    ensures same { IfOk result (λ new. new.disk.ghost_name ≡ io.entry.disk.ghost_name) }
{
    let space = io.space.copy(alloc)?;
    Ok(Io::new(alloc, io.into_disk(), space))
}
