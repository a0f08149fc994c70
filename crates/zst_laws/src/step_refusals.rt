ghost use Rattle.zst_laws.specs.StepRefusals.{DatasetIsThere, TargetIsThere, DatasetsAreFull, TargetsCount, DatasetHasNoNumber};
ghost use Rattle.zst_laws.specs.StepRefusals.{DatasetIsAbsent, DatasetIsBusy, NumberIsFar, NumbersAreFar, ObjectHasNoNumber, FreeHasNoNumber};
ghost use Rattle.zst_laws.specs.StepRefusals.{WriteWantsObject, WriteIsLong, WriteIsOdd, WriteIsFar, WriteHasNoNumber, OddSizes, PunchWantsObject, PunchIsFar, PunchHasNoNumber};
ghost use Rattle.zst_laws.specs.StepRefusals.{SnapshotIsThere, SnapshotsAreFull, GuidsAreOver, SnapshotHasNoNumber};
ghost use Rattle.zst_laws.specs.StepRefusals.{NameIsAbsent, ReadWantsObject, ReadIsRedacted, ReadIsFar};

/// A new dataset is refused where its name is taken, at the limit of datasets, and at the last number, in this order.
pub fn new_datasets_are_refused()
    ensures there { DatasetIsThere }
    ensures begun { TargetIsThere }
    ensures full { DatasetsAreFull }
    ensures counted { TargetsCount }
    ensures number { DatasetHasNoNumber }
{}

/// A command on a head, and a snapshot of it, are refused where the dataset is absent, and then where it has a partial state.
pub fn heads_are_refused()
    ensures absent { DatasetIsAbsent }
    ensures busy { DatasetIsBusy }
{}

/// Objects are made and freed below 2^48 alone, and then not at the last number.
pub fn numbers_are_refused()
    ensures object { NumberIsFar }
    ensures free { NumbersAreFar }
    ensures object_number { ObjectHasNoNumber }
    ensures free_number { FreeHasNoNumber }
{}

/// A write is refused for want of an object, for its length, for an odd size, past index 2^43 - 1, and at the last number, in this order.
pub fn writes_are_refused()
    ensures object { WriteWantsObject }
    ensures long { WriteIsLong }
    ensures odd { WriteIsOdd }
    ensures far { WriteIsFar }
    ensures number { WriteHasNoNumber }
    ensures sizes { OddSizes }
{}

/// A punch is refused for want of an object, where it ends past index 2^43, and at the last number, in this order.
pub fn punches_are_refused()
    ensures object { PunchWantsObject }
    ensures far { PunchIsFar }
    ensures number { PunchHasNoNumber }
{}

/// A snapshot is refused where it is there, at the limit of snapshots, at the last guid, and at the last number, in this order.
pub fn snapshots_are_refused()
    ensures there { SnapshotIsThere }
    ensures full { SnapshotsAreFull }
    ensures guids { GuidsAreOver }
    ensures number { SnapshotHasNoNumber }
{}

/// A read is refused where its name or its object is absent, where the block is redacted, and past index 2^43 - 1.
pub fn reads_are_refused()
    ensures absent { NameIsAbsent }
    ensures object { ReadWantsObject }
    ensures redacted { ReadIsRedacted }
    ensures far { ReadIsFar }
{}
