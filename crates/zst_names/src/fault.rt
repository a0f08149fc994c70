/// E2: the text isn't a name of the kind that was asked for.
#[derive(Clone, Copy, Debug, PartialEq, Eq)]
pub struct NameFault {
    /// The index of the first byte at which no name can go on, or the length where the text ends
    /// early.
    pub place: u64,
}
