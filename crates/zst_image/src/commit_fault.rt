use std::alloc::AllocError;
use zst_model::Refusal;

/// Why a directory isn't committed.
#[derive(Debug, Drop)]
pub enum CommitFault {
    /// E24: no free extent has `need` sectors: the longest one has `largest`.
    Full { need: u64, largest: u64 },
    /// E28: the disk failed, and its count of faults rose.
    DiskFault,
    /// E32: no memory was left.
    OutOfMemory,
}

impl From<AllocError> for CommitFault {
    ghost use Rattle.std.specs.Prelude.{◌≡◌};
    ghost use Rattle.zst_image.specs.declared.commit_fault.CommitFault.TheVariants.{OutOfMemory};

    ghost from_gives = { λ _ fault. fault ≡ OutOfMemory };

    fn from(_: AllocError) -> Self {
        CommitFault::OutOfMemory
    }
}

impl From<CommitFault> for Refusal {
    ghost use Rattle.std.specs.Prelude.{◌≡◌};
    ghost use Rattle.zst_image.specs.Faults.{commit_refusal};

    ghost from_gives = { λ fault refusal. refusal ≡ commit_refusal fault };

    fn from(fault: CommitFault) -> Self {
        match fault {
            CommitFault::Full { need, largest } => Refusal::Full { need, largest },
            CommitFault::DiskFault => Refusal::DiskFault,
            CommitFault::OutOfMemory => Refusal::OutOfMemory,
        }
    }
}
