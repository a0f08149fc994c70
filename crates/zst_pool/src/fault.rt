ghost use Rattle.std.specs.Prelude.{◌≡◌};
ghost use Rattle.zst_pool.specs.Faults.{of_built, of_committed};

use std::alloc::AllocError;
use zst_block::BlockFault;
use zst_image::{CommitFault, PoolState};
use zst_model::limits::MOST_RUNS;
use zst_model::{ApplyFault, List, PlanFault, Quantity, Refusal};
use zst_objset::ObjFault;
use zst_redact::RedactFault;
use zst_tree::OrMemory;

/// Why a pool isn't stepped.
#[derive(Debug, Drop)]
pub enum PoolFault {
    /// What the command's own checks found (E2 to E15, E19, E23).
    Plan(PlanFault),
    /// E21: what the command writes can't be applied.
    CannotApply(ApplyFault),
    /// E22: the block is redacted.
    Redacted {
        object: u64,
        block: u64,
    },
    /// E24: no free extent has `need` sectors: the longest one has `largest`.
    Full {
        need: u64,
        largest: u64,
    },
    /// E25: the block from this sector on has other sums than are stated, or, with both alike, isn't
    /// of its layout.
    Damaged {
        sector: u64,
        stated: [u64; 4],
        found: [u64; 4],
    },
    /// E28: the disk failed, and its count of faults rose.
    DiskFault,
    /// E31: the disk failed before, and the pool wasn't opened again.
    Failed,
    /// E32: no memory was left.
    OutOfMemory,
}

impl From<AllocError> for PoolFault {
    ghost use Rattle.std.specs.Prelude.{◌≡◌};
    ghost use Rattle.zst_pool.specs.declared.fault.PoolFault.TheVariants.{OutOfMemory};

    ghost from_gives = { λ _ fault. fault ≡ OutOfMemory };

    fn from(_: AllocError) -> Self {
        PoolFault::OutOfMemory
    }
}

impl From<PlanFault> for PoolFault {
    ghost use Rattle.std.specs.Prelude.{◌≡◌};
    ghost use Rattle.zst_pool.specs.declared.fault.PoolFault.TheVariants.{Plan};

    ghost from_gives = { λ plan fault. fault ≡ Plan plan };

    fn from(fault: PlanFault) -> Self {
        PoolFault::Plan(fault)
    }
}

impl From<BlockFault> for PoolFault {
    ghost use Rattle.std.specs.Prelude.{◌≡◌};
    ghost use Rattle.zst_pool.specs.Faults.{of_block};

    ghost from_gives = { λ block fault. fault ≡ of_block block };

    fn from(fault: BlockFault) -> Self {
        match fault {
            BlockFault::Full { need, largest } => PoolFault::Full { need, largest },
            BlockFault::Damaged {
                sector,
                stated,
                found,
            } => PoolFault::Damaged {
                sector,
                stated,
                found,
            },
            BlockFault::DiskFault => PoolFault::DiskFault,
        }
    }
}

impl From<ObjFault> for PoolFault {
    ghost use Rattle.std.specs.Prelude.{◌≡◌};
    ghost use Rattle.zst_pool.specs.Faults.{of_set};

    ghost from_gives = { λ set fault. fault ≡ of_set set };

    fn from(fault: ObjFault) -> Self {
        match fault {
            ObjFault::CannotApply(fault) => PoolFault::CannotApply(fault),
            ObjFault::Redacted { object, block } => PoolFault::Redacted { object, block },
            ObjFault::Limit { which, number } => {
                PoolFault::Plan(PlanFault::Limit { which, number })
            }
            ObjFault::Block(fault) => PoolFault::from(fault),
        }
    }
}

impl From<OrMemory<BlockFault>> for PoolFault {
    ghost use Rattle.std.specs.Prelude.{◌≡◌};
    ghost use Rattle.zst_pool.specs.Faults.{of_block, or_memory};

    ghost from_gives = { λ block fault. fault ≡ or_memory of_block block };

    fn from(fault: OrMemory<BlockFault>) -> Self {
        match fault {
            OrMemory::Fault(fault) => PoolFault::from(fault),
            OrMemory::Memory => PoolFault::OutOfMemory,
        }
    }
}

impl From<OrMemory<ObjFault>> for PoolFault {
    ghost use Rattle.std.specs.Prelude.{◌≡◌};
    ghost use Rattle.zst_pool.specs.Faults.{of_set, or_memory};

    ghost from_gives = { λ set fault. fault ≡ or_memory of_set set };

    fn from(fault: OrMemory<ObjFault>) -> Self {
        match fault {
            OrMemory::Fault(fault) => PoolFault::from(fault),
            OrMemory::Memory => PoolFault::OutOfMemory,
        }
    }
}

impl From<CommitFault> for PoolFault {
    ghost use Rattle.std.specs.Prelude.{◌≡◌};
    ghost use Rattle.zst_pool.specs.Faults.{of_commit};

    ghost from_gives = { λ commit fault. fault ≡ of_commit commit };

    fn from(fault: CommitFault) -> Self {
        match fault {
            CommitFault::Full { need, largest } => PoolFault::Full { need, largest },
            CommitFault::DiskFault => PoolFault::DiskFault,
            CommitFault::OutOfMemory => PoolFault::OutOfMemory,
        }
    }
}

/// What the building of a list answers, as a pool's answer.
#[tactic(auto, unfolding(zst_model::specs::pools::Limits::most_runs))]
pub fn of_built(built: Result<List, OrMemory<RedactFault>>) -> Result<List, PoolFault>
    ensures { result ≡ of_built built }
{
    match built {
        Ok(list) => Ok(list),
        Err(OrMemory::Fault(RedactFault::Limit)) => Err(PoolFault::Plan(PlanFault::Limit {
            which: Quantity::Runs,
            number: MOST_RUNS as u64,
        })),
        Err(OrMemory::Fault(RedactFault::Block(fault))) => Err(PoolFault::from(fault)),
        Err(OrMemory::Memory) => Err(PoolFault::OutOfMemory),
    }
}

/// What a commit answers, as a pool's answer.
pub(crate) fn of_committed(made: Result<PoolState, CommitFault>) -> Result<PoolState, PoolFault>
    ensures { result ≡ of_committed made }
{
    match made {
        Ok(kept) => Ok(kept),
        Err(fault) => Err(PoolFault::from(fault)),
    }
}

impl From<PoolFault> for Refusal {
    ghost use Rattle.std.specs.Prelude.{◌≡◌};
    ghost use Rattle.zst_pool.specs.Faults.{pool_refusal};

    ghost from_gives = { λ fault refusal. refusal ≡ pool_refusal fault };

    fn from(fault: PoolFault) -> Self {
        match fault {
            PoolFault::Plan(plan) => Refusal::from(plan),
            PoolFault::CannotApply(fault) => Refusal::CannotApply { record: 0, fault },
            PoolFault::Redacted { object, block } => Refusal::Redacted { object, block },
            PoolFault::Full { need, largest } => Refusal::Full { need, largest },
            PoolFault::Damaged {
                sector,
                stated,
                found,
            } => Refusal::Damaged {
                sector,
                stated,
                found,
            },
            PoolFault::DiskFault => Refusal::DiskFault,
            PoolFault::Failed => Refusal::Failed,
            PoolFault::OutOfMemory => Refusal::OutOfMemory,
        }
    }
}
