ghost use Rattle.std.specs.Prelude.{◌≡◌};
ghost use Rattle.zst_redact.specs.Passes.{first_alone};

/// What lies ahead of an index of an object.
#[derive(Clone, Copy)]
pub(crate) enum Ahead {
    /// So many from it on are wanted.
    Here(u64),
    /// None before this one is.
    Later(u64),
    /// None from it on is.
    Never,
}

impl Ahead {
    /// The same, where the index alone is known to be wanted.
    pub(crate) fn first_alone(self) -> Ahead
        ensures { result ≡ first_alone self }
    {
        match self {
            Ahead::Here(_) => Ahead::Here(1),
            Ahead::Later(to) => Ahead::Later(to),
            Ahead::Never => Ahead::Never,
        }
    }
}
