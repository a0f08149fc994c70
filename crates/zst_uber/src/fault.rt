use zst_outside::Fault;

/// Why a pool is not opened, or a body not committed.
#[derive(Clone, Copy)]
pub enum UberFault {
    /// The latest body, in this sector, has other sums than it states, or, with both alike, is
    /// not of its table on this disk.
    Damaged {
        sector: u64,
        stated: [u64; 4],
        found: [u64; 4],
    },
    /// No open gate stands before a body.
    NoPool,
    /// The latest body has this version.
    BadVersion(u32),
    /// The disk failed, and its count of faults rose.
    DiskFault,
}

impl From<Fault> for UberFault {
    ghost use Rattle.std.specs.Prelude.{◌≡◌};
    ghost use Rattle.zst_uber.specs.declared.fault.UberFault.TheVariants.{DiskFault};

    ghost from_gives = { λ _ fault. fault ≡ DiskFault };

    fn from(_: Fault) -> Self {
        UberFault::DiskFault
    }
}
