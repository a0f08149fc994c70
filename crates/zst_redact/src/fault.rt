use zst_block::BlockFault;
use zst_tree::OrMemory;

/// Why no list is made.
#[derive(Clone, Copy, Debug, PartialEq, Eq)]
pub enum RedactFault {
    /// E23: it would have more runs than a list may have.
    Limit,
    /// E25 and E28.
    Block(BlockFault),
}

impl From<RedactFault> for OrMemory<RedactFault> {
    ghost use Rattle.std.specs.Prelude.{◌≡◌};
    ghost use Rattle.zst_tree.specs.declared.or_memory.OrMemory.TheVariants.{Fault};

    ghost from_gives = { λ fault made. made ≡ Fault fault };

    fn from(fault: RedactFault) -> Self {
        OrMemory::Fault(fault)
    }
}
