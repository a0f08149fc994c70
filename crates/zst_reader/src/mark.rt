use zst_model::StreamFault;

/// How far a reader is: it may find more, it met a fault, or it has handed out END.
#[derive(Clone, Copy)]
pub(crate) enum Mark {
    Open,
    Failed(StreamFault),
    Ended,
}
