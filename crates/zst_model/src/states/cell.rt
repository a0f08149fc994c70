/// What stands at an index of an object, without its bytes.
#[derive(Clone, Copy, Debug, PartialEq, Eq)]
pub enum Cell {
    Hole,
    Redacted,
    Data,
}

/// Indices of one object that follow one another.
#[derive(Clone, Copy, Debug, PartialEq, Eq)]
pub struct Run {
    pub object: u64,
    /// The first index, in blocks.
    pub first: u64,
    /// How many they are.
    pub count: u64,
}
