use std::alloc::AllocError;
use zst_block::Ptr;
use zst_model::Refusal;
use zst_uber::UberFault;

/// Why the pool of an image isn't opened.
#[derive(Debug, Drop)]
pub enum OpenFault {
    /// E25: the block from this sector on has other sums than are stated, or, with both alike, isn't
    /// of its layout.
    Damaged {
        sector: u64,
        stated: [u64; 4],
        found: [u64; 4],
    },
    /// E26: no open gate stands before a body.
    NoPool,
    /// E27: the latest body has this version.
    BadVersion(u32),
    /// E28: the disk failed, and its count of faults rose.
    DiskFault,
    /// E32: no memory was left.
    OutOfMemory,
}

impl OpenFault {
    ghost use Rattle.std.specs.Prelude.{◌≡◌};
    ghost use Rattle.zst_fletcher.specs.WeightSum.{parts_of};

    // A block that isn't of its layout: both sums are those that its pointer states.
    pub(crate) fn of_layout(ptr: &Ptr) -> OpenFault
        ensures { result ≡ OpenFault.Damaged ptr.now.sector (parts_of ptr.now.sum) (parts_of ptr.now.sum) }
    {
        OpenFault::Damaged {
            sector: ptr.sector,
            stated: ptr.sum.parts(),
            found: ptr.sum.parts(),
        }
    }
}

impl From<AllocError> for OpenFault {
    ghost use Rattle.std.specs.Prelude.{◌≡◌};
    ghost use Rattle.zst_image.specs.declared.open_fault.OpenFault.TheVariants.{OutOfMemory};

    ghost from_gives = { λ _ fault. fault ≡ OutOfMemory };

    fn from(_: AllocError) -> Self {
        OpenFault::OutOfMemory
    }
}

impl From<UberFault> for OpenFault {
    ghost use Rattle.std.specs.Prelude.{◌≡◌};
    ghost use Rattle.zst_image.specs.Faults.{of_uber};

    ghost from_gives = { λ uber fault. fault ≡ of_uber uber };

    fn from(fault: UberFault) -> Self {
        match fault {
            UberFault::Damaged {
                sector,
                stated,
                found,
            } => OpenFault::Damaged {
                sector,
                stated,
                found,
            },
            UberFault::NoPool => OpenFault::NoPool,
            UberFault::BadVersion(version) => OpenFault::BadVersion(version),
            UberFault::DiskFault => OpenFault::DiskFault,
        }
    }
}

impl From<OpenFault> for Refusal {
    ghost use Rattle.std.specs.Prelude.{◌≡◌};
    ghost use Rattle.zst_image.specs.Faults.{open_refusal};

    ghost from_gives = { λ fault refusal. refusal ≡ open_refusal fault };

    fn from(fault: OpenFault) -> Self {
        match fault {
            OpenFault::Damaged {
                sector,
                stated,
                found,
            } => Refusal::Damaged {
                sector,
                stated,
                found,
            },
            OpenFault::NoPool => Refusal::NoPool,
            OpenFault::BadVersion(version) => Refusal::BadVersion {
                number: u64::from(version),
            },
            OpenFault::DiskFault => Refusal::DiskFault,
            OpenFault::OutOfMemory => Refusal::OutOfMemory,
        }
    }
}
