//! A word that stands on the line as it is.
ghost use Rattle.bpaf_grammar.specs.{Leaves.any_item, Grammar.own};
ghost use Rattle.std.specs.Prelude.{◌≡◌, ◌∷◌, [], IfOk, Some, None, true, false};
ghost use Rattle.bpaf_doc.specs.Print.{text_pieces, shown_as};
ghost use Rattle.bpaf_laws.specs.Leaves.{IsLiteral};

use crate::leaves::look::{Look, any_item, take_match};
use bpaf_core::Parser;
use bpaf_doc::{Doc, Meta, Style, Text};
use bpaf_line::{Error, State};
use std::alloc::{AllocError, Global};

/// An item of one text (bpaf's `ParseAny<()>` of `literal`).
#[derive(Drop)]
pub struct ParseLiteral {
    /// The text.
    pub text: Text,
    /// The item's name on the help page and in usage.
    pub metavar: Doc,
    /// Its help, shown beside its metavar.
    pub help: Option<Doc>,
    /// Whether later items are looked at, where the first one has another text.
    pub anywhere: bool,
}

/// An item of this text, whatever it is (bpaf's `literal`): a word, a key by its whole word, or the
/// value behind one. It is shown by its text.
///
/// Refused only for want of memory.
///
/// ```text
/// literal(alloc, "+verbose")?.anywhere()
/// ```
pub fn literal(alloc: Global, text: &str) -> Result<ParseLiteral, AllocError>
    ensures text { IfOk result (λ p. p.text ≡ text.now) }
    ensures metavar { IfOk result (λ p. p.metavar ≡ shown_as Style.Literal text.now ∷ []) }
    ensures help { IfOk result (λ p. p.help ≡ None) }
    ensures anywhere { IfOk result (λ p. p.anywhere ≡ false) }
{
    Ok(ParseLiteral {
        text: Text::new(alloc, text)?,
        metavar: Doc::from_pieces(alloc, &[(text, Style::Literal)])?,
        help: None,
        anywhere: false,
    })
}

impl ParseLiteral {
    /// This parser with this help, in place of the one that it has. It takes no memory.
    pub fn help(mut self, help: Doc) -> ParseLiteral
        ensures { result ≡ record self { help = Some help } }
    {
        self.help = Some(help);
        self
    }

    /// The same with a help of this text, as [`Doc::from_text`] makes it; refused only for want of
    /// memory, and then the parser is gone.
    pub fn help_str(self, alloc: Global, help: &str) -> Result<ParseLiteral, AllocError>
        ensures { IfOk result (λ helped.
            helped ≡ record self { help = Some (text_pieces help.now) }) }
    {
        Ok(self.help(Doc::from_text(alloc, help)?))
    }

    /// This parser with this metavar, in place of its text. It takes no memory.
    pub fn metavar(mut self, metavar: Doc) -> ParseLiteral
        ensures { result ≡ record self { metavar = metavar } }
    {
        self.metavar = metavar;
        self
    }

    /// This parser, but each present item is looked at, in order, until one has the text.
    ///
    /// ```text
    /// let go = literal(alloc, "go")?.anywhere();
    /// construct!(go, word)      ((), "x") off `x go`
    /// ```
    pub fn anywhere(mut self) -> ParseLiteral
        ensures { result ≡ record self { anywhere = true } }
    {
        self.anywhere = true;
        self
    }
}

/// Whether the text is this one.
impl Look<()> for ParseLiteral {
    ghost can_look = { λ p. Unit {0} };

    ghost looks = { λ p. IsLiteral p.text };

    fn look(&self, _alloc: Global, text: &str) -> Result<Option<()>, AllocError> {
        Ok((self.text.as_str() == text).then_some(()))
    }
}

/// Takes the first present item in scope, or under `anywhere` the first with the text; and with an
/// attached key the value behind it.
///
/// Refused with Missing where no item that is looked at has the text, or for want of memory; then
/// nothing is taken.
impl Parser<()> for ParseLiteral {
    ghost can_eval = { λ p. Unit {0} };

    ghost grammar = { λ p. own (any_item (IsLiteral p.text) p.metavar p.help p.anywhere) };

    fn eval(&self, state: &mut State) -> Result<(), Error> {
        if take_match(self, self.anywhere, state)?.is_some() {
            return Ok(());
        }
        let item = any_item(&self.metavar, &self.help, self.anywhere)?;
        Err(state.missing(Some(item))?)
    }

    fn meta(&self, _alloc: Global) -> Result<Meta, AllocError> {
        Ok(Meta::Item(any_item(&self.metavar, &self.help, self.anywhere)?))
    }
}
