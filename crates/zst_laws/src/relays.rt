ghost use Rattle.zst_laws.specs.Relays.{LessRedactedIsBase, RedSetsGrow, SourceListsRedacted};

/// What is redacted for some snapshots is redacted for fewer of them. A redacted source lists what is redacted in it, so an increment
/// from it fits each base that lacks no more than the source does.
pub fn relays_fit()
    ensures grow { RedSetsGrow }
    ensures lists { SourceListsRedacted }
    ensures less { LessRedactedIsBase }
{}
