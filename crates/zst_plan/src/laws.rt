ghost use Rattle.zst_plan.specs.AcceptedStreams.{StreamsBegin, StreamsGoOn, GoingOnIsExact};
ghost use Rattle.zst_plan.specs.AcceptedTokens.{TokensAreAccepted, SendsHaveTokens, SentIsAbsent, FromIsAbsent, MarkIsAbsent};
ghost use Rattle.zst_plan.specs.ContainedBases.{ContainedIsCovered};
ghost use Rattle.zst_plan.specs.RefusedStreams.{NameStops, NameHasNoMark, PartialIsThere, PartialIsElsewhere, PartialIsAbsent};
ghost use Rattle.zst_plan.specs.RefusedStreams.{TargetIsThere, LatestIsAnother, LatestIsAbsent, TargetIsOfKind, HeadIsChanged, MarkIsLater};
ghost use Rattle.zst_plan.specs.RefusedStreams.{OriginIsAbsent, OriginIsAnother, FullWantsFrees, SourceIsAbsent, CloneIsOfKind};
ghost use Rattle.zst_plan.specs.RefusedStreams.{BaseIsRedacted, NameIsTaken, PartialsAreFull, TargetsAreFull, ReceivesAreFull};

/// An increment that is contained in a redacted base, and neither of nor from a redacted snapshot, is of a snapshot that the base was
/// redacted for, or its redaction bookmark, or that of its source, is for some of these.
pub fn contained_is_covered()
    ensures { ContainedIsCovered }
{}

/// A stream that takes a base and passes all checks begins with exactly this base.
pub fn streams_are_accepted()
    ensures { StreamsBegin }
{}

/// A stream goes on with a partial state exactly where it is the one that this is of, and begins where it stands.
pub fn resumed_streams_are_accepted()
    ensures goes_on { StreamsGoOn }
    ensures only { GoingOnIsExact }
{}

/// A stream whose name has no component is refused before all else, with the byte at which it stops being one.
pub fn stated_names_are_refused()
    ensures stops { NameStops }
    ensures unmarked { NameHasNoMark }
{}

/// Then a plain stream is refused where the target has a partial state, one that a token asked for where it is another, and where
/// there is no partial state.
pub fn partials_are_refused()
    ensures there { PartialIsThere }
    ensures elsewhere { PartialIsElsewhere }
    ensures absent { PartialIsAbsent }
{}

/// Then a stream for a dataset that is there is refused where it makes one, comes from another snapshot than the latest, is of
/// another kind, where the head was changed, and where a later bookmark would be lost, in this order.
pub fn targets_are_refused()
    ensures there { TargetIsThere }
    ensures another { LatestIsAnother }
    ensures none { LatestIsAbsent }
    ensures kind { TargetIsOfKind }
    ensures changed { HeadIsChanged }
    ensures bookmark { MarkIsLater }
{}

/// A stream for a new dataset is refused where its origin is absent or another than an increment's source, where a full one doesn't
/// free what it lacks, where its source is absent, and where it is of another kind than its base.
pub fn new_targets_are_refused()
    ensures absent { OriginIsAbsent }
    ensures another { OriginIsAnother }
    ensures frees { FullWantsFrees }
    ensures source { SourceIsAbsent }
    ensures kind { CloneIsOfKind }
{}

/// A stream with a base is refused where it isn't contained in it, where the snapshot's name is taken, and at the limits of
/// partial states, of datasets and of snapshots, in this order.
pub fn based_streams_are_refused()
    ensures outside { BaseIsRedacted }
    ensures taken { NameIsTaken }
    ensures partials { PartialsAreFull }
    ensures datasets { TargetsAreFull }
    ensures snapshots { ReceivesAreFull }
{}

/// A token is taken where the pool has all that it states, and refused for want of its snapshot, its source and its redaction
/// bookmark, in this order.
pub fn tokens_are_accepted()
    ensures accepted { TokensAreAccepted }
    ensures sent { SentIsAbsent }
    ensures from { FromIsAbsent }
    ensures mark { MarkIsAbsent }
{}

/// What a send gave, the token of its header gives again.
pub fn sends_have_tokens()
    ensures { SendsHaveTokens }
{}
