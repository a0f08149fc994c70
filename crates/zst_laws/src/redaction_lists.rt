ghost use Rattle.zst_laws.specs.RedactionLists.{CoveredIsBase, ListedMayBeRedacted};

/// A state that a source remembers stays fit as a base without what some snapshots behind the source have lost, where the stream
/// is of one of these, or its redaction bookmark or that of its source is for some of them.
pub fn covered_is_base()
    ensures { CoveredIsBase }
{}

/// What a redaction bookmark lists of its snapshot is data of files and volumes.
pub fn listed_may_be_redacted()
    ensures { ListedMayBeRedacted }
{}
