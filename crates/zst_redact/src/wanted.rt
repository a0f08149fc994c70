use zst_tree::ObjSet;

/// Which blocks of user data of a snapshot a list is to have.
#[derive(Clone, Copy)]
pub(crate) enum Wanted<'a> {
    /// Data that each of some sets dates after a number: what none of them has kept.
    Unkept {
        number: u64,
        redactions: &'a [ObjSet],
    },
    /// What is redacted.
    Redacted,
}
