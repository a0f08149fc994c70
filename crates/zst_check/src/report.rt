use zst_model::NameText;

/// What a check of a pool finds.
#[derive(Drop)]
pub enum Report {
    /// The pool is sound.
    Sound {
        /// How many different blocks the latest body reaches, by their first sectors.
        blocks: u64,
    },
    /// The pool isn't sound: the first part of soundness that fails, in the order 2, 3, 1, 4, does so at this place.
    /// A partial state is named by its dataset.
    Unsound {
        /// Where a date or a snapshot's number is too late, the name of the state; else the bookmark's, or that of the snapshot that
        /// stands before.
        earlier: NameText,
        /// That name again; else that of the bookmark's dataset, of the state that doesn't agree, or of the bookmark's snapshot.
        later: NameText,
        /// The object, or 0 where no object is meant.
        object: u64,
        /// The index, 2^43 where the number itself is meant, or 0 where no object is.
        block: u64,
    },
}
