ghost use Rattle.zst_laws.specs.Sessions.{CutsAreExact, CutsComplete, FullCutsAreExact, IncrementCutsAreExact};

/// Wherever it is cut, a receive that has come to its end has the target.
pub fn cuts_are_exact()
    ensures { CutsAreExact }
{}

/// What a cut receive has can always be completed.
pub fn cuts_complete()
    ensures { CutsComplete }
{}

/// A full stream, received from nothing in any sessions, is exactly its snapshot, with exactly the listed pairs redacted.
pub fn full_cuts_are_exact()
    ensures { FullCutsAreExact }
{}

/// The increment from a snapshot, received over it in any sessions, is exactly what the commits after it left, with exactly the listed
/// pairs redacted.
pub fn increment_cuts_are_exact()
    ensures { IncrementCutsAreExact }
{}
