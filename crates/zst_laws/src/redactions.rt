ghost use Rattle.zst_laws.specs.Redactions.{RedactMakes, RedactWantsSnapshot, RedactWantsEach, RedactIsElsewhere, RedactIsThere, RedactIsRelayed};
ghost use Rattle.zst_laws.specs.Redactions.{RedactIsEarlier, RedactsAreFull, RedactIsLong, RedactHasNoNumber};

/// A redaction makes a bookmark with the guids of its redaction snapshots and the list of the blocks that none of them has kept.
pub fn redactions_list_what_none_keeps()
    ensures { RedactMakes }
{}

/// A redaction is refused for want of its snapshot and of a redaction snapshot, for another dataset, where its bookmark is there, for what is
/// redacted already, for a redaction snapshot that doesn't come of its snapshot, at the limits of bookmarks and of runs, and at the last
/// number, in this order.
pub fn redactions_are_refused()
    ensures absent { RedactWantsSnapshot }
    ensures each { RedactWantsEach }
    ensures elsewhere { RedactIsElsewhere }
    ensures there { RedactIsThere }
    ensures relayed { RedactIsRelayed }
    ensures earlier { RedactIsEarlier }
    ensures full { RedactsAreFull }
    ensures long { RedactIsLong }
    ensures number { RedactHasNoNumber }
{}
