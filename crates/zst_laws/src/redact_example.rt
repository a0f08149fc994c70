ghost use Rattle.zst_laws.specs.RedactExample.{TwoClonesList, RedactedItems};

/// Of two clones that each changed two blocks, the block that both changed is listed, and is sent as REDACT.
pub fn two_clones_list_one_block()
    ensures listed { TwoClonesList }
    ensures sent { RedactedItems }
{}
