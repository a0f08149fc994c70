use zst_model::List;
use zst_tree::ObjSet;

/// What is sent: the snapshot's objects, the number of the source, the source's list, that of the pairs to redact, and the
/// guid of the snapshot.
#[derive(Drop)]
pub(crate) struct Subject {
    pub set: ObjSet,
    pub source: Option<u64>,
    /// Its pairs are sent whenever they changed.
    pub listed: List,
    /// Its pairs are sent as redacted.
    pub redact: List,
    pub to: u64,
}
