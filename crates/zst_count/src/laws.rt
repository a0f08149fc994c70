ghost use Rattle.zst_count.specs.FirstSectors.{CountIsOne, CountedAreReached, ReachedAreCounted};

/// A pool has one count of blocks.
pub fn counts_are_one()
    ensures { CountIsOne }
{}

/// The blocks that are counted have the sectors that are reached, but for the first eight and what sessions hold.
pub fn counted_blocks_are_reached()
    ensures reached { CountedAreReached }
    ensures counted { ReachedAreCounted }
{}
