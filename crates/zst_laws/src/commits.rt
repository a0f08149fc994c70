ghost use Rattle.zst_laws.specs.Commits.{HistoryRemembers, IncrementIsExact};

/// What later commits leave is lawful and still remembers the snapshot.
pub fn history_remembers()
    ensures { HistoryRemembers }
{}

/// The increment from a snapshot gives exactly what the commits after it left, with exactly the listed pairs redacted.
pub fn increment_is_exact()
    ensures { IncrementIsExact }
{}
