ghost use Rattle.zst_laws.specs.HeaderExample.{FullHeader, VolumeHeader, IncrementHeaders, SourceHeader, CloneHeaders, RedactedHeader, RelayHeaders};
ghost use Rattle.zst_laws.specs.HeaderExample.{Choices, SentItems, SentIsStated, SentHasView, PointHeaders};

/// What BEGIN says of sends of small snapshots: whole and from a source, of one dataset and of a clone, redacted, and sent on.
pub fn headers_are_exact()
    ensures full { FullHeader }
    ensures volume { VolumeHeader }
    ensures increments { IncrementHeaders }
    ensures source { SourceHeader }
    ensures clones { CloneHeaders }
    ensures redacted { RedactedHeader }
    ensures relayed { RelayHeaders }
{}

/// What these sends are asked beside their snapshots.
pub fn choices_are_exact()
    ensures { Choices }
{}

/// The items of two of them.
pub fn sends_have_items()
    ensures { SentItems }
{}

/// What is sent of a lawful pool has a header that a stream can state, and a lawful view.
pub fn sends_are_stated()
    ensures header { SentIsStated }
    ensures view { SentHasView }
{}

/// A stream that a token asked for says so, and else what the send from the start says.
pub fn headers_keep_the_rest()
    ensures { PointHeaders }
{}
