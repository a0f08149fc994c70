use zst_model::{PlanFault, PresentSubject, Quantity, Refusal};

/// Why no pool is made in an image.
#[derive(Debug, Drop, PartialEq, Eq)]
pub enum CreateFault {
    /// E4: a slot has an open gate and a body.
    Exists,
    /// E23: the disk doesn't have so many sectors.
    TooSmall { sectors: u64 },
    /// E28: the disk failed, and its count of faults rose.
    DiskFault,
    /// E32: no memory was left.
    OutOfMemory,
}

impl From<CreateFault> for Refusal {
    ghost use Rattle.std.specs.Prelude.{◌≡◌};
    ghost use Rattle.zst_image.specs.Faults.{create_refusal};

    ghost from_gives = { λ fault refusal. refusal ≡ create_refusal fault };

    fn from(fault: CreateFault) -> Self {
        match fault {
            CreateFault::Exists => Refusal::from(PlanFault::Exists(PresentSubject::Pool)),
            CreateFault::TooSmall { sectors } => Refusal::from(PlanFault::Limit {
                which: Quantity::Device,
                number: sectors,
            }),
            CreateFault::DiskFault => Refusal::DiskFault,
            CreateFault::OutOfMemory => Refusal::OutOfMemory,
        }
    }
}
