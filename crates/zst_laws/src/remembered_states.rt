ghost use Rattle.zst_laws.specs.RememberedStates.{OwnIsRemembered, TakenRemembers, StepsRemember, RememberedIsBase, SourcesAreBases, HistoryIsBase};

/// In a sound pool a source remembers the state of its own snapshot, while that is there; so does a snapshot that a command makes.
pub fn own_is_remembered()
    ensures own { OwnIsRemembered }
    ensures taken { TakenRemembers }
{}

/// What a snapshot or a bookmark remembers, it remembers after each accepted command that leaves it there, also where a bookmark's own
/// snapshot is gone.
pub fn steps_remember()
    ensures { StepsRemember }
{}

/// What a source remembers is fit as the base of all that the source stands before.
pub fn remembered_is_base()
    ensures { RememberedIsBase }
{}

/// So in a sound pool a source's own snapshot is, where that is there.
pub fn sources_are_bases()
    ensures { SourcesAreBases }
{}

/// What a source remembers stays fit as a base through any number of commands, as long as the source stands.
pub fn history_is_base()
    ensures { HistoryIsBase }
{}
