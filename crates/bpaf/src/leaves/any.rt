//! An item of any kind, as far as a check takes it.
ghost use Rattle.bpaf_grammar.specs.{Leaves.any_item, Grammar.own};
ghost use Rattle.std.specs.Prelude.{◌≡◌, ◌∷◌, [], IfOk, Some, None, true, false};
ghost use Rattle.bpaf_doc.specs.Print.{text_pieces, shown_as};
ghost use Rattle.bpaf_laws.specs.Leaves.{ChecksText};

use crate::leaves::look::{Look, any_item, take_match};
use bpaf_core::Parser;
use bpaf_doc::{Doc, Meta, Style};
use bpaf_line::{Error, State};
use bpaf_text::{FromText, TextFault};
use std::alloc::{AllocError, Global};
use std::marker::PhantomData;

/// What a check makes of an item (bpaf's `ParseAny`, in `params.rs`).
#[derive(Drop)]
pub struct ParseAny<I, T, F> {
    /// The item's name on the help page and in usage.
    pub metavar: Doc,
    /// Its help, shown beside its metavar.
    pub help: Option<Doc>,
    /// Gives `Some` value for an item that it accepts.
    pub check: F,
    /// Whether it looks at later items, where it doesn't accept the first one.
    pub anywhere: bool,
    /// The type as which the item's text is read.
    pub from: PhantomData<I>,
    /// The type of the value.
    pub of: PhantomData<T>,
}

/// An item that the check accepts, whatever it is: a word, a key, or the value behind one (bpaf's
/// `any`).
///
/// Its text, of a key its whole word, is read as an `I`, and given to the check; an item whose text
/// is no `I` isn't wanted. Refused only for want of memory, for the metavar.
///
/// ```text
/// any::<String, String, _>(alloc, "ARG", |text| if text.len() > 3 { Some(text) } else { None })?
/// ```
pub fn any<I: FromText, T, F: Fn(I) -> Option<T>>(
    alloc: Global,
    metavar: &str,
    check: F,
) -> Result<ParseAny<I, T, F>, AllocError>
where
    F: Drop,
    requires callable { F.IsAlwaysCallable check }
    ensures metavar { IfOk result (λ p. p.metavar ≡ shown_as Style.Metavar metavar.now ∷ []) }
    ensures help { IfOk result (λ p. p.help ≡ None) }
    ensures check { IfOk result (λ p. p.check ≡ check) }
    ensures anywhere { IfOk result (λ p. p.anywhere ≡ false) }
{
    Ok(ParseAny {
        metavar: Doc::from_pieces(alloc, &[(metavar, Style::Metavar)])?,
        help: None,
        check,
        anywhere: false,
        from: PhantomData,
        of: PhantomData,
    })
}

impl<I, T, F> ParseAny<I, T, F> {
    /// This parser with this help, in place of the one that it has (bpaf's `ParseAny::help`). It
    /// takes no memory.
    pub fn help(mut self, help: Doc) -> ParseAny<I, T, F>
        ensures { result ≡ record self { help = Some help } }
    {
        self.help = Some(help);
        self
    }

    /// This parser with this metavar, in place of the one that it has (bpaf's `ParseAny::metavar`).
    /// It takes no memory.
    pub fn metavar(mut self, metavar: Doc) -> ParseAny<I, T, F>
        ensures { result ≡ record self { metavar = metavar } }
    {
        self.metavar = metavar;
        self
    }

    /// This parser, but each present item is looked at, in order, until one is wanted (bpaf's
    /// `ParseAny::anywhere`).
    ///
    /// ```text
    /// let go = any::<String, String, _>(alloc, "ANY", |text| only_go(text))?.anywhere();
    /// construct!(go, word)      ("go", "x") off `x go`
    /// ```
    pub fn anywhere(mut self) -> ParseAny<I, T, F>
        ensures { result ≡ record self { anywhere = true } }
    {
        self.anywhere = true;
        self
    }
}

impl<I, T, F: Drop> ParseAny<I, T, F> {
    /// The same with a help of this text, as [`Doc::from_text`] makes it; refused only for want of
    /// memory, and then the parser is gone.
    pub fn help_str(self, alloc: Global, help: &str) -> Result<ParseAny<I, T, F>, AllocError>
        ensures { IfOk result (λ helped.
            helped ≡ record self { help = Some (text_pieces help.now) }) }
    {
        Ok(self.help(Doc::from_text(alloc, help)?))
    }
}

/// What the check answers on the text, read as an `I`; none where it is no `I`.
impl<I: FromText, T, F: Fn(I) -> Option<T>> Look<T> for ParseAny<I, T, F> {
    ghost can_look = { λ p. F.IsAlwaysCallable p.check };

    ghost looks = { λ p. ChecksText I.means (λ x v. F.post p.check x v) };

    fn look(&self, alloc: Global, text: &str) -> Result<Option<T>, AllocError> {
        match I::from_text(alloc, text) {
            Ok(value) => Ok((self.check)(value)),
            Err(TextFault::Fault(fault)) => {
                drop(fault);
                Ok(None)
            }
            Err(TextFault::Memory) => Err(AllocError),
        }
    }
}

/// The value of the first present item in scope, or under `anywhere` of the first that the check
/// accepts; it is taken, and with an attached key the value behind it.
///
/// Refused with Missing where no item that is looked at is accepted, or for want of memory; then
/// nothing is taken.
impl<I: FromText, T: Drop, F: Fn(I) -> Option<T>> Parser<T> for ParseAny<I, T, F> {
    ghost can_eval = { λ p. F.IsAlwaysCallable p.check };

    ghost grammar = { λ p. own (any_item (ChecksText I.means (λ x v. F.post p.check x v))
        p.metavar p.help p.anywhere) };

    fn eval(&self, state: &mut State) -> Result<T, Error> {
        if let Some(value) = take_match(self, self.anywhere, state)? {
            return Ok(value);
        }
        let item = any_item(&self.metavar, &self.help, self.anywhere)?;
        Err(state.missing(Some(item))?)
    }

    fn meta(&self, _alloc: Global) -> Result<Meta, AllocError> {
        Ok(Meta::Item(any_item(&self.metavar, &self.help, self.anywhere)?))
    }
}
