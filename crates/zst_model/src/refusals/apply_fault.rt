ghost use Rattle.std.specs.Prelude.{◌≡◌, ◌≤◌, length};
ghost use Rattle.zst_model.specs.refusals.ApplyWords.{apply_word};

/// Why an item can't be applied (E21).
#[derive(Clone, Copy, Debug, PartialEq, Eq)]
pub enum ApplyFault {
    /// No object has the number.
    NoObject,
    /// The data of a block has another length than the object's blocks.
    SizeDiffers,
    /// An offset or a length is no multiple of the block size.
    Unaligned,
    /// An index over 0 where the block size is no power of two.
    OddBlock,
    /// A redaction of an object that isn't user data.
    NotUserData,
}

impl ApplyFault {
    /// Its words in the text of a refusal.
    pub fn word(&self) -> &'static str
        ensures word { result.now ≡ apply_word self.now }
        ensures short { length result.now ≤ 20 }
    {
        match self {
            ApplyFault::NoObject => "no object",
            ApplyFault::SizeDiffers => "size differs",
            ApplyFault::Unaligned => "unaligned",
            ApplyFault::OddBlock => "odd block",
            ApplyFault::NotUserData => "not user data",
        }
    }
}
