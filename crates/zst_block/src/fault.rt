use crate::ptr::Ptr;
use zst_outside::Fault;
use zst_space::SpaceFault;

/// Why a block is not read or written.
#[derive(Clone, Copy, Debug, PartialEq, Eq)]
pub enum BlockFault {
    /// No free extent has `need` sectors: the longest one has `largest`.
    Full {
        need: u64,
        largest: u64,
    },
    /// The block from this sector on has other sums than are stated, or, with both alike, its
    /// pointer names no whole sectors of the disk.
    Damaged {
        sector: u64,
        stated: [u64; 4],
        found: [u64; 4],
    },
    /// The disk failed, and its count of faults rose.
    DiskFault,
}

impl BlockFault {
    ghost use Rattle.std.specs.Prelude.{◌≡◌};
    ghost use Rattle.zst_fletcher.specs.WeightSum.{parts_of};

    /// The block that a pointer names isn't of the layout: both sums are alike.
    pub fn of_layout(ptr: &Ptr) -> BlockFault
        ensures { result ≡ BlockFault.Damaged ptr.now.sector (parts_of ptr.now.sum) (parts_of ptr.now.sum) }
    {
        let sum = ptr.sum.parts();
        BlockFault::Damaged {
            sector: ptr.sector,
            stated: sum,
            found: sum,
        }
    }
}

impl From<Fault> for BlockFault {
    ghost use Rattle.std.specs.Prelude.{◌≡◌};
    ghost use Rattle.zst_block.specs.declared.fault.BlockFault.TheVariants.{DiskFault};

    ghost from_gives = { λ _ fault. fault ≡ DiskFault };

    fn from(_: Fault) -> Self {
        BlockFault::DiskFault
    }
}

impl From<SpaceFault> for BlockFault {
    ghost use Rattle.std.specs.Prelude.{◌≡◌};
    ghost use Rattle.zst_block.specs.declared.fault.BlockFault.TheVariants as faults;

    ghost from_gives = { λ full fault. fault ≡ faults.Full full.need full.largest };

    fn from(full: SpaceFault) -> Self {
        BlockFault::Full {
            need: full.need,
            largest: full.largest,
        }
    }
}
