ghost use Rattle.zst_laws.specs.CommitCounts.{CommitsCount, AnswersKeep};
ghost use Rattle.zst_laws.specs.StepInvariants.{StepsKeepKept, StepsKeepPartials, StepsKeepPools, StepsKeepSound};

/// A command that commits raises the pool's number by exactly one, one that commits nothing leaves the pool equal, and each
/// makes a lawful pool of a lawful pool.
pub fn steps_keep_pools()
    ensures commits { CommitsCount }
    ensures answers { AnswersKeep }
    ensures pools { StepsKeepPools }
{}

/// A command makes a sound pool of a sound pool: what a later state hasn't dated since a snapshot
/// before it stays as it was there.
pub fn steps_keep_sound()
    ensures { StepsKeepSound }
{}

/// An abort drops the partial state of its target, and no other command touches one: what is kept of a pool that keeps all of them is
/// the pool that the command makes of it.
pub fn steps_keep_partials()
    ensures partials { StepsKeepPartials }
    ensures kept { StepsKeepKept }
{}
