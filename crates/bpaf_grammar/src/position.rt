//! On which side of `--` a word may stand.
ghost use Rattle.std.specs.Prelude.{◌≡◌};
ghost use Rattle.bpaf_grammar.specs.Positional.{accepts};

/// On which side of `--` a positional word may stand (bpaf's `Position`, in `params.rs`).
#[derive(Clone, Copy)]
pub enum Position {
    /// On either side.
    Unrestricted,
    /// On the right side.
    Strict,
    /// On the left side.
    NonStrict,
}

impl Position {
    /// Whether a word may stand there; `strict` is true for the right side of `--`.
    pub fn accepts(self, strict: bool) -> bool
        ensures { result ≡ accepts self strict }
    {
        match self {
            Position::Unrestricted => true,
            Position::Strict => strict,
            Position::NonStrict => !strict,
        }
    }
}
