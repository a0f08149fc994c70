use zst_model::Refusal;

/// E16: the text is no token.
#[derive(Clone, Copy, Debug, PartialEq, Eq)]
pub struct TokenFault {
    /// The byte at which it stops being one, or its length where it ends early. Of fields that no
    /// token has it is the first digit's place, of a check that differs the check's.
    pub place: u64,
}

impl From<TokenFault> for Refusal {
    ghost use Rattle.std.specs.Prelude.{◌≡◌};
    ghost use Rattle.zst_model.specs.declared.refusals.refusal.Refusal.TheVariants.{BadToken};

    ghost from_gives = { λ fault refusal. refusal ≡ BadToken fault.place };

    fn from(fault: TokenFault) -> Refusal {
        Refusal::BadToken { place: fault.place }
    }
}
