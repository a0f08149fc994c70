use zst_names::{BookName, SnapName};

/// What an increment is asked to be sent from (`-i` of zfs-send(8)).
#[derive(Drop)]
pub enum FromName {
    Snap(SnapName),
    Book(BookName),
}

/// What a send is asked for (zfs-send(8)).
#[derive(Drop)]
pub struct SendAsk {
    /// The snapshot that is sent.
    pub snap: SnapName,
    /// What it is sent from: nothing, where it is sent whole.
    pub from: Option<FromName>,
    /// The redaction bookmark of `--redact`, where there is one.
    pub redact: Option<BookName>,
}
