ghost use Rattle.zst_replication.specs.MatchingBases.{ContainedIsBase, ListedIsWithin, MarkedIsSent, PlainIsWithin, RedactedBasesMatch, RelayIsWithin};
ghost use Rattle.zst_replication.specs.Relays.{LeftIsSentOn, RelayedIsReceived};
ghost use Rattle.zst_replication.specs.Soundness.{ReceivesKeepLists};

use crate::laws::{sent_can_be_sent, sent_is_received};

/// What part 4 of soundness says of a redaction bookmark makes its send one that can be stated, and so are a send of what isn't
/// redacted, and one of a redacted snapshot as it is.
pub fn listed_can_be_sent()
    ensures listed { ListedIsWithin }
    ensures plain { PlainIsWithin }
    ensures relay { RelayIsWithin }
{
    zst_laws::listed_may_be_redacted();
}

/// A base that was redacted for some snapshots is fit for each increment that is contained in it, and a receive's plan looks for that.
pub fn redacted_bases_match()
    ensures contained { ContainedIsBase }
    ensures matches { RedactedBasesMatch }
    ensures marked { MarkedIsSent }
{
    zst_laws::covered_is_base();
    zst_plan::contained_is_covered();
}

/// A redacted snapshot that was received can be sent on as it is, and what can't be read after two hops is what can't be read
/// after the first, guids and all else equal.
pub fn relayed_is_received()
    ensures left { LeftIsSentOn }
    ensures received { RelayedIsReceived }
{
    zst_laws::plans_are_of_pool();
    sent_can_be_sent();
    sent_is_received();
}

/// What redaction bookmarks list stays so through a receive, whatever is read.
pub fn receives_keep_lists()
    ensures { ReceivesKeepLists }
{
    zst_laws::received_is_state();
    zst_laws::lists_are_kept();
}
