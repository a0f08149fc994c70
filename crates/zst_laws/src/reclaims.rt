ghost use Rattle.zst_laws.specs.Reclaims.{ReclaimChangesNumber, ReclaimHasNoNumber, ReclaimLeavesReceives};

/// A reclaim takes a pool's next number, and changes nothing else of it.
pub fn reclaimed_stay()
    ensures made { ReclaimChangesNumber }
    ensures values { ReclaimLeavesReceives }
{}

/// A reclaim is refused at the last number alone.
pub fn reclaims_are_refused()
    ensures { ReclaimHasNoNumber }
{}
