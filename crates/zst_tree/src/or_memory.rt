//! What calls answer that have faults of their own and may want memory: below all that read leaves,
//! list objects or change heads.
use std::alloc::AllocError;
use zst_block::BlockFault;

/// A fault, or want of memory.
#[derive(Clone, Copy, Debug, PartialEq, Eq)]
pub enum OrMemory<F> {
    /// The call's own fault.
    Fault(F),
    /// No memory was left.
    Memory,
}

impl<F> From<AllocError> for OrMemory<F> {
    ghost use Rattle.std.specs.Prelude.{◌≡◌};
    ghost use Rattle.zst_tree.specs.declared.or_memory.OrMemory.TheVariants.{Memory};

    ghost from_gives = { λ _ made. made ≡ Memory };

    fn from(_: AllocError) -> Self {
        OrMemory::Memory
    }
}

// Each type of fault has its own: one for all would overlap with that of `AllocError`.
impl From<BlockFault> for OrMemory<BlockFault> {
    ghost use Rattle.std.specs.Prelude.{◌≡◌};
    ghost use Rattle.zst_tree.specs.declared.or_memory.OrMemory.TheVariants.{Fault};

    ghost from_gives = { λ fault made. made ≡ Fault fault };

    fn from(fault: BlockFault) -> Self {
        OrMemory::Fault(fault)
    }
}
