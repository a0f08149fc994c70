ghost use Rattle.zst_laws.specs.Dates.{ChangesAreDated, DatesAreExact, RemembersItself, RemembersOn, AppliedIsState, RemembersThrough};

/// An item that is applied in a commit changes no content that it doesn't date.
pub fn changes_are_dated()
    ensures { ChangesAreDated }
{}

/// What an item dates has the commit's number as its date, and all else keeps its date.
pub fn dates_are_exact()
    ensures { DatesAreExact }
{}

/// A snapshot remembers its own state at each number.
pub fn remembers_itself()
    ensures { RemembersItself }
{}

/// A state that is remembered stays so under an item of a later commit.
pub fn remembers_on()
    ensures { RemembersOn }
{}

/// A lawful item leaves a lawful state.
pub fn applied_is_state()
    ensures { AppliedIsState }
{}

/// The lawful items of a later commit leave a lawful state, and what is remembered stays so under them.
pub fn remembers_through()
    ensures { RemembersThrough }
{}
