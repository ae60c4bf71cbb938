//! A word of the line, by its place and not by a name.
ghost use Rattle.bpaf_grammar.specs.{Positional.accepts, Positional.misplaced, Grammar.word};
ghost use Rattle.std.specs.Prelude.{◌≡◌, IfOk, Some, None, List};
ghost use Rattle.bpaf_doc.specs.declared.doc.Piece.{Piece};

use bpaf_core::{Parser, value_or_refusal};
use bpaf_doc::{Help, Item, Meta, Metavar, Text};
use bpaf_grammar::Position;
use bpaf_line::{Error, Message, State};
use bpaf_text::FromText;
use std::alloc::{AllocError, Global};
use std::marker::PhantomData;

/// A positional word: the first one that is no option (bpaf's `ParsePositional`, in `params.rs`).
pub struct ParsePositional<T> {
    /// The word's name on the help page and in usage.
    pub metavar: Metavar,
    /// On which side of `--` it may stand.
    pub position: Position,
    /// Its help, shown beside its metavar.
    pub help: Option<Help>,
    /// The type of the value.
    pub of: PhantomData<T>,
}

impl<T> Drop for ParsePositional<T> {
    fn drop(self) {
        let ParsePositional {
            metavar: _,
            position: _,
            help: _help,
            of: _,
        } = self;
    }
}

/// A word by itself, such as the name of a file (bpaf's `positional`).
///
/// ```text
/// positional::<String>("FILE")
/// ```
pub fn positional<T>(metavar: &'static str) -> ParsePositional<T>
    ensures metavar { result.metavar.0 ≡ metavar.entry }
    ensures position { result.position ≡ Position.Unrestricted }
    ensures help { result.help ≡ None }
{
    ParsePositional {
        metavar: Metavar(metavar),
        position: Position::Unrestricted,
        help: None,
        of: PhantomData,
    }
}

impl<T> ParsePositional<T> {
    /// The word with this help, in place of the one that it has (bpaf's `ParsePositional::help`).
    /// It takes no memory.
    ///
    /// ```text
    /// positional::<String>("FILE").help("File to process")
    /// ```
    pub fn help<H: Into<Help>>(mut self, help: H) -> ParsePositional<T>
        ensures { (pieces : List Piece) × H.converts help pieces
            × (result ≡ record self { help = Some pieces }) }
    {
        self.help = Some(help.into());
        self
    }

    /// An equal word; refused only for want of memory.
    pub fn copy(&self) -> Result<ParsePositional<T>, AllocError>
        ensures { IfOk result (λ word. word ≡ self.now) }
    {
        Ok(ParsePositional {
            metavar: self.metavar,
            position: self.position,
            help: Help::copy_of(&self.help)?,
            of: PhantomData,
        })
    }

    /// The word must stand on the right side of `--` (bpaf's `ParsePositional::strict`); one that
    /// does not is taken and refused.
    ///
    /// ```text
    /// positional::<String>("S").strict()      "a" off `-- a`; `a` is refused
    /// ```
    pub fn strict(mut self) -> ParsePositional<T>
        ensures { result ≡ record self { position = Position.Strict } }
    {
        self.position = Position::Strict;
        self
    }

    /// The word must stand on the left side of `--` (bpaf's `ParsePositional::non_strict`); one
    /// that does not is taken and refused.
    ///
    /// ```text
    /// positional::<String>("S").non_strict()      "a" off `a`; `-- a` is refused
    /// ```
    pub fn non_strict(mut self) -> ParsePositional<T>
        ensures { result ≡ record self { position = Position.NonStrict } }
    {
        self.position = Position::NonStrict;
        self
    }
}

/// That a word stands on the wrong side of `--`; refused only for want of memory.
fn misplaced(
    alloc: Global,
    strict: bool,
    place: usize,
    metavar: Metavar,
) -> Result<Error, AllocError>
    ensures { IfOk result (λ error. error.0 ≡ misplaced strict place metavar.0.now) }
{
    let metavar = Text::new(alloc, metavar.0)?;
    if strict {
        Ok(Error(Message::NonStrictPos(place, metavar)))
    } else {
        Ok(Error(Message::StrictPos(place, metavar)))
    }
}

/// What the first present word in scope means.
///
/// Refused with Missing where there is none, with StrictPos or NonStrictPos where it stands on the
/// wrong side of `--`, with ParseFailed where its text means no value (in these three the word is
/// taken); or for want of memory.
impl<T: FromText> Parser<T> for ParsePositional<T> {
    ghost can_eval = { λ p. Unit {0} };

    ghost grammar = { λ p. word T.means p.position p.metavar.0.now p.help };

    fn eval(&self, state: &mut State) -> Result<T, Error> {
        let (place, strict, text) = state.positional_word(self.metavar)?;
        if !self.position.accepts(strict) {
            state.take(place);
            return Err(misplaced(state.alloc(), strict, place, self.metavar)?);
        }
        let read = T::from_text(state.alloc(), text.as_str());
        state.take(place);
        value_or_refusal(state, read)
    }

    fn meta(&self, alloc: Global) -> Result<Meta, AllocError> {
        let metavar = Text::new(alloc, self.metavar.0)?;
        let help = Help::doc_of(alloc, &self.help)?;
        let item = Meta::Item(Item::Positional { metavar, help });
        match self.position {
            Position::Strict => Ok(Meta::Strict(Box::new(alloc, item)?)),
            Position::Unrestricted | Position::NonStrict => Ok(item),
        }
    }
}
