ghost use Rattle.zst_laws.specs.StepExample.{SmallSteps, RewrittenStep, PutSteps, ChangedSteps, ChangedReads};

/// A file system, a file in it with one block and a snapshot of them are four commits.
pub fn small_is_made()
    ensures { SmallSteps }
{}

/// A block that is written again with equal bytes is dated.
pub fn rewritten_is_made()
    ensures { RewrittenStep }
{}

/// A file that is given its attributes again keeps its blocks exactly where its block size stays.
pub fn small_is_put_again()
    ensures { PutSteps }
{}

/// After the snapshot a block of zeros is written, a block is punched and absent numbers are freed; reads and lists tell it.
pub fn small_is_changed()
    ensures commits { ChangedSteps }
    ensures reads { ChangedReads }
{}
