/// A place where two sets differ.
#[derive(Clone, Copy, Debug, PartialEq, Eq)]
pub struct Difference {
    /// The object number.
    pub object: u64,
    /// The index of the object's block, or 2^43 where the number itself differs.
    pub block: u64,
}
