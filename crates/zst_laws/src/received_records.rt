ghost use Rattle.zst_laws.specs.ReceivedRecords.{WritesAreFar, RedactsAreFar, OthersHaveNoLimit, FaultsComeFirst, FarFaults, ReceivedIsApplied, ReceivedIsState};
ghost use Rattle.zst_laws.specs.ReceivedRecords.{MovedHasTaken, TakenTogether, BegunIsPartWay, CutIsPartWay, PartWayIsCompleted};

/// A received WRITE or REDACT past index 2^43 - 1 is refused, and no other record is.
pub fn far_records_are_refused()
    ensures writes { WritesAreFar }
    ensures redacts { RedactsAreFar }
    ensures others { OthersHaveNoLimit }
{}

/// Each fault of a record comes before that limit.
pub fn record_faults_come_first()
    ensures first { FaultsComeFirst }
    ensures values { FarFaults }
{}

/// An accepted record is applied, and leaves a lawful state.
pub fn received_is_state()
    ensures applied { ReceivedIsApplied }
    ensures state { ReceivedIsState }
{}

/// An accepted record moves a partial state to the point after it, and so do records one after another.
pub fn moved_has_taken()
    ensures one { MovedHasTaken }
    ensures together { TakenTogether }
{}

/// A partial state begins part of the way of its send, and a cut after any items leaves it part of the way.
pub fn cut_is_part_way()
    ensures begun { BegunIsPartWay }
    ensures cut { CutIsPartWay }
{}

/// A partial state that is part of the way is completed by the items from its own point.
pub fn part_way_is_completed()
    ensures { PartWayIsCompleted }
{}
