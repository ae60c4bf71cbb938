//! Flags and arguments.
ghost use Rattle.std.specs.Prelude.{◌≡◌, IfOk, IsSomeAnd, MatchOption, None, false, true, List};
ghost use Rattle.bpaf_doc.specs.{declared.doc.Piece.Piece};
ghost use Rattle.bpaf_text.specs.Named.{with_help};

use crate::leaf_key::LeafKey;
use crate::named::NamedArg;
use bpaf_doc::{Help, Metavar};
use std::alloc::{AllocError, Global};
use std::marker::{Model, PhantomData};

/// A key without a value: `present` where it stands on the line, and `absent` where it does not
/// (bpaf's `ParseFlag`, in `params.rs`).
///
/// Made by [`NamedArg::switch`], [`NamedArg::flag`] and [`NamedArg::req_flag`].
pub struct ParseFlag<T> {
    /// The value where the key stands on the line.
    pub present: T,
    /// The value where it does not; `None` where the key must stand there.
    pub absent: Option<T>,
    /// The names of the key.
    pub named: LeafKey,
}

impl<T: Drop> Drop for ParseFlag<T> {
    fn drop(self) {
        let ParseFlag {
            present: _present,
            absent: _absent,
            named: _named,
        } = self;
    }
}

/// A key with a value of the type `T` (bpaf's `ParseArgument`, in `params.rs`).
///
/// Made by [`NamedArg::argument`].
pub struct ParseArgument<T> {
    /// The names of the key.
    pub named: LeafKey,
    /// The value's name on the help page and in usage.
    pub metavar: Metavar,
    /// Whether only a key with its value in its own word counts.
    pub adjacent: bool,
    /// Whether all its keys are taken at once, and the value of the last one counts.
    pub last: bool,
    /// The type of the value.
    pub of: PhantomData<T>,
}

impl<T> Drop for ParseArgument<T> {
    fn drop(self) {
        let ParseArgument {
            named: _named,
            metavar: _,
            adjacent: _,
            last: _,
            of: _,
        } = self;
    }
}

impl<T> Model for ParseArgument<T> {
    ghost use Rattle.bpaf_text.specs.Named.{KeyWithValue};

    ghost Value = { KeyWithValue };

    ghost view = { λ argument.
        record {
          named = argument.named;
          metavar = argument.metavar.0.now;
          adjacent = argument.adjacent;
          last = argument.last;
        } };
}

impl<T> ParseFlag<T> {
    /// The flag with this help, in place of the one that it has (bpaf's `ParseFlag::help`). It
    /// takes no memory.
    pub fn help<H: Into<Help>>(self, help: H) -> ParseFlag<T>
        ensures { (pieces : List Piece) × H.converts help pieces
            × (result ≡ record self { named = with_help self.named pieces }) }
    {
        let ParseFlag {
            present,
            absent,
            named,
        } = self;
        ParseFlag {
            present,
            absent,
            named: named.help(help),
        }
    }
}

impl<T: Clone + Drop> ParseFlag<T> {
    /// The same flag, with clones of its values; where clones equal their source it is an equal
    /// one. Refused only for want of memory.
    pub fn copy(&self) -> Result<ParseFlag<T>, AllocError>
        ensures named { IfOk result (λ flag. flag.named ≡ self.now.named) }
        ensures present { IfOk result (λ flag. T.is_clone self.now.present flag.present) }
        ensures absent { IfOk result (λ flag. MatchOption self.now.absent
            (flag.absent ≡ None)
            (λ kept. IsSomeAnd flag.absent (T.is_clone kept))) }
    {
        let absent = match &self.absent {
            Some(absent) => Some(absent.clone()?),
            None => None,
        };
        Ok(ParseFlag {
            present: self.present.clone()?,
            absent,
            named: self.named.copy()?,
        })
    }
}

impl<T> ParseArgument<T> {
    /// The argument with this help, in place of the one that it has (bpaf's `ParseArgument::help`).
    /// It takes no memory.
    pub fn help<H: Into<Help>>(self, help: H) -> ParseArgument<T>
        ensures { (pieces : List Piece) × H.converts help pieces
            × (result ≡ record self { named = with_help self.named pieces }) }
    {
        let ParseArgument {
            named,
            metavar,
            adjacent,
            last,
            of,
        } = self;
        ParseArgument {
            named: named.help(help),
            metavar,
            adjacent,
            last,
            of,
        }
    }

    /// The argument whose key counts only with its value in its own word (bpaf's
    /// `ParseArgument::adjacent`). It takes no memory.
    ///
    /// ```text
    /// short(alloc, 'n')?.argument::<u64>("NUM").adjacent()     reads `-n3` and `-n=3`, not `-n 3`
    /// ```
    pub fn adjacent(mut self) -> ParseArgument<T>
        ensures { result ≡ record self { adjacent = true } }
    {
        self.adjacent = true;
        self
    }

    /// The argument that takes all its keys at once, each with its value, and reads the last value
    /// alone; bpaf has no such call. It takes no memory.
    ///
    /// The earlier values needn't be readable. A key without a value is refused as for any
    /// argument.
    ///
    /// ```text
    /// short(alloc, 'n')?.argument::<u64>("NUM").take_last()     reads 4 off `-n 3 -n 4`
    /// ```
    pub fn take_last(mut self) -> ParseArgument<T>
        ensures { result ≡ record self { last = true } }
    {
        self.last = true;
        self
    }

    /// An equal argument; refused only for want of memory.
    pub fn copy(&self) -> Result<ParseArgument<T>, AllocError>
        ensures { IfOk result (λ argument. argument ≡ self.now) }
    {
        Ok(ParseArgument {
            named: self.named.copy()?,
            metavar: self.metavar,
            adjacent: self.adjacent,
            last: self.last,
            of: PhantomData,
        })
    }
}

/// A flag of these parts.
pub(crate) fn build_flag_parser<T>(present: T, absent: Option<T>, named: NamedArg) -> ParseFlag<T>
    ensures { result ≡ record { present = present; absent = absent; named = named } }
{
    ParseFlag {
        present,
        absent,
        named: LeafKey::from(named),
    }
}

/// An argument of these parts.
pub(crate) fn build_argument<T>(named: NamedArg, metavar: &'static str) -> ParseArgument<T>
    ensures { result ≡ record {
      named = named;
      metavar = metavar.now;
      adjacent = false;
      last = false;
    } }
{
    ParseArgument {
        named: LeafKey::from(named),
        metavar: Metavar(metavar),
        adjacent: false,
        last: false,
        of: PhantomData,
    }
}
