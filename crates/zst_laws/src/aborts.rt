ghost use Rattle.zst_laws.specs.Aborts.{AbortedGoes, NothingToAbort, OnlyNothingToAbort, AbortHasNoNumber, AbortLeavesOthers};

/// An abort drops the partial state of its target, and nothing else.
pub fn aborted_go_alone()
    ensures made { AbortedGoes }
    ensures values { AbortLeavesOthers }
{}

/// An abort is refused where there is no partial state, and only there with E14; behind that and behind sessions at the last number.
pub fn aborts_are_refused()
    ensures absent { NothingToAbort }
    ensures only { OnlyNothingToAbort }
    ensures number { AbortHasNoNumber }
{}
