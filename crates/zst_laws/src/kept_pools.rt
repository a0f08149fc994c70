ghost use Rattle.zst_laws.specs.KeptPools.{TwoAreKept, KeptAreKept, KeepingIsDone, KeptIsLawful, KeptIsSound};

/// An image keeps exactly the partial states with `keep`, and all else of a pool that runs.
pub fn kept_are_kept()
    ensures values { TwoAreKept }
    ensures exact { KeptAreKept }
{}

/// Of a pool that keeps all its partial states an image keeps all, so that keeping twice is keeping once.
pub fn keeping_is_done()
    ensures { KeepingIsDone }
{}

/// What an image keeps of a lawful pool is lawful, and of a sound one sound.
pub fn kept_are_lawful()
    ensures lawful { KeptIsLawful }
    ensures sound { KeptIsSound }
{}
