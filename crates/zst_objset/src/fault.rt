use zst_block::BlockFault;
use zst_model::{ApplyFault, Quantity};
use zst_tree::OrMemory;

/// Why a call on an object set is refused.
#[derive(Clone, Copy, Debug, PartialEq, Eq)]
pub enum ObjFault {
    /// E21.
    CannotApply(ApplyFault),
    /// E22.
    Redacted { object: u64, block: u64 },
    /// E23.
    Limit { which: Quantity, number: u64 },
    /// E24, E25 and E28.
    Block(BlockFault),
}

impl From<ApplyFault> for ObjFault {
    ghost use Rattle.std.specs.Prelude.{◌≡◌};
    ghost use Rattle.zst_objset.specs.declared.fault.ObjFault.TheVariants as faults;

    ghost from_gives = { λ apply fault. fault ≡ faults.CannotApply apply };

    fn from(apply: ApplyFault) -> Self {
        ObjFault::CannotApply(apply)
    }
}

impl From<BlockFault> for ObjFault {
    ghost use Rattle.std.specs.Prelude.{◌≡◌};
    ghost use Rattle.zst_objset.specs.declared.fault.ObjFault.TheVariants as faults;

    ghost from_gives = { λ block fault. fault ≡ faults.Block block };

    fn from(block: BlockFault) -> Self {
        ObjFault::Block(block)
    }
}

impl From<ObjFault> for OrMemory<ObjFault> {
    ghost use Rattle.std.specs.Prelude.{◌≡◌};
    ghost use Rattle.zst_tree.specs.declared.or_memory.OrMemory.TheVariants.{Fault};

    ghost from_gives = { λ fault made. made ≡ Fault fault };

    fn from(fault: ObjFault) -> Self {
        OrMemory::Fault(fault)
    }
}
