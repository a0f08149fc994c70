use crate::places::{copy_out, overwrite};
use crate::{Disk, Fault};

/// A disk in memory that never fails. It is always honest, and leaves its images untold.
#[derive(Drop)]
pub struct SureDisk {
    bytes: Vec<u8>,
    calls: u64,
}

impl SureDisk {
    ghost use Rattle.std.specs.Prelude.{◌≡◌, length};

    /// A disk of these bytes.
    pub fn new(bytes: Vec<u8>) -> Self
        ensures honest { (⟦<SureDisk as Disk>⟧.state result).honest }
        ensures seen { (⟦<SureDisk as Disk>⟧.state result).seen ≡ bytes.items }
        ensures size { (⟦<SureDisk as Disk>⟧.state result).size ≡ length bytes.items }
        ensures calls { (⟦<SureDisk as Disk>⟧.state result).calls ≡ 0 }
    {
        SureDisk { bytes, calls: 0 }
    }
}

impl Disk for SureDisk {
    ghost use Rattle.std.specs.Prelude.{◌≡◌, ◌+◌, ◌≤◌, true, false, length, IsOk};
    ghost use Rattle.std.proofs.Common.{refl, rules};
    ghost use Rattle.zst_outside.specs.SureDisk.{sure_state};

    ghost tells_images = { false };

    ghost state = { sure_state };

    ghost seen_size = { λ d. refl };

    ghost image_size = { λ d c image. absurd image };

    ghost reads_as_image = { λ d told. Prim.search rules };

    ghost counts_now = { λ d t c le now. now };

    ghost only_now = { λ d c left. left };

    fn bytes(&self) -> u64 {
        self.bytes.len() as u64
    }

    fn calls(&self) -> u64 {
        self.calls
    }

    fn faults(&self) -> u64
        ensures told { result ≡ (sure_state self.now).faults }
        ensures none { result ≡ 0 }
    {
        0
    }

    fn read(&mut self, place: u64, into: &mut [u8]) -> Result<(), Fault> {
        self.calls = self.calls.saturating_add(1);
        copy_out(&self.bytes, place as usize, into);
        Ok(())
    }

    fn write_at(&mut self, place: u64, from: &[u8]) -> Result<(), Fault> {
        self.calls = self.calls.saturating_add(1);
        overwrite(&mut self.bytes, place as usize, from);
        Ok(())
    }

    fn sync(&mut self) -> Result<(), Fault> {
        self.calls = self.calls.saturating_add(1);
        Ok(())
    }
}
