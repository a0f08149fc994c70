ghost use Rattle.zst_laws.specs.HoldingSessions.{SessionsHave, ClaimsCountAlone, LeastIsNamed, BusySessions, StepsAskNoSession};
ghost use Rattle.zst_laws.specs.HoldingSessions.{HeldDatasetStays, HeldSnapshotStays, HeldNewerStays, HeldTargetStays, FreeOnesGo};

/// Which session has a thing: the one with the least id of those that hold the snapshot, or hold a snapshot of the dataset or claim it.
pub fn least_session_is_named()
    ensures values { SessionsHave }
    ensures claims { ClaimsCountAlone }
    ensures least { LeastIsNamed }
{}

/// E5 names the session.
pub fn busy_sessions_are_named()
    ensures { BusySessions }
{}

/// No command depends on what sessions have but those that destroy a dataset or snapshots, or give up a partial state.
pub fn steps_ask_no_session()
    ensures { StepsAskNoSession }
{}

/// What a session has isn't destroyed: E5 names the one with the least id of those that hold the snapshot, hold a snapshot of
/// the dataset or claim it, or hold a snapshot that a rollback with -r is to destroy. What it receives isn't given up. Where none has
/// it, sessions change nothing.
pub fn sessions_hold_back()
    ensures dataset { HeldDatasetStays }
    ensures snapshot { HeldSnapshotStays }
    ensures newer { HeldNewerStays }
    ensures target { HeldTargetStays }
    ensures free { FreeOnesGo }
{}
