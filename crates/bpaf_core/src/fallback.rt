//! A value that stands in where a parser gives none.
ghost use Rattle.bpaf_doc.specs.Shape.{shape_of};
ghost use Rattle.bpaf_laws.specs.Combinators.{DefaultDescribes, AttemptOutcome, GivesAnswer, ShowsAnswer};
ghost use Rattle.bpaf_grammar.specs.Grammar.{fallback, cloned, answered, outcome_of};
ghost use Rattle.std.specs.{Prelude.◌≡◌, Prelude.IfOk, Prelude.Ok, Fn.FnReturnsAt};
ghost use Rattle.bpaf_laws.specs.Combinators.{ShowsDefault, ShowsFormatted};

use crate::parser::Parser;
use bpaf_doc::{Doc, Meta, Text, debugged, displayed, formatted};
use bpaf_line::{Error, Message, State};
use std::alloc::{AllocError, Global};
use std::fmt::{Debug, Display};
use std::marker::PhantomData;

/// Some of the parser's value; None where the parser answers an error that can be caught. After all
/// but a value the state is as before.
fn attempt<T, P: Parser<T>>(parser: &P, state: &mut State) -> Result<Option<T>, Error>
    requires { P.can_eval parser.now }
    ensures { AttemptOutcome (outcome_of (P.grammar parser.now)) state.old result state.new }
{
    let mark = state.mark();
    match parser.eval(state) {
        Ok(value) => Ok(Some(value)),
        Err(error) => {
            state.undo(mark);
            if error.can_catch() {
                drop(error);
                Ok(None)
            } else {
                Err(error)
            }
        }
    }
}

/// What may be left out, with its default behind it, where one is shown; refused only for want of
/// memory.
fn default_meta(alloc: Global, meta: Meta, shown: &Option<Doc>) -> Result<Meta, AllocError>
    ensures { IfOk result (λ all.
        DefaultDescribes (λ shape. shape ≡ shape_of meta) shown.now (shape_of all)) }
{
    let optional = meta.optional(alloc)?;
    match shown {
        Some(shown) => Ok(Meta::Suffix(Box::new(alloc, optional)?, shown.copy()?)),
        None => Ok(optional),
    }
}

/// A kept value where the inner parser has none (bpaf's `ParseFallback`, in `structs.rs`).
#[derive(Drop)]
pub struct ParseFallback<P, T> {
    pub inner: P,
    pub value: T,
    /// The value as it is shown in the help page; none is at first.
    pub shown: Option<Doc>,
}

impl<T: Drop, P: Drop> ParseFallback<P, T> {
    /// Shows the value on the help page, as Display prints it (bpaf's `display_fallback`).
    /// Refused only for want of memory, and then the parser is gone.
    ///
    /// ```text
    /// num.fallback(7).display_fallback(alloc)?     shows `[default: 7]`
    /// ```
    pub fn display_fallback(mut self, alloc: Global) -> Result<ParseFallback<P, T>, AllocError>
    where
        T: Display,
        ensures rest { IfOk result (λ parser. parser ≡ record self { shown = parser.shown }) }
        ensures shown { IfOk result (λ parser.
            ShowsDefault (T.output self.value) parser.shown) }
    {
        self.shown = Some(displayed(alloc, &self.value)?);
        Ok(self)
    }

    /// Shows the value on the help page, as Debug prints it (bpaf's `debug_fallback`). Refused only
    /// for want of memory, and then the parser is gone.
    pub fn debug_fallback(mut self, alloc: Global) -> Result<ParseFallback<P, T>, AllocError>
    where
        T: Debug,
        ensures rest { IfOk result (λ parser. parser ≡ record self { shown = parser.shown }) }
        ensures shown { IfOk result (λ parser.
            ShowsDefault (T.debug_output self.value) parser.shown) }
    {
        self.shown = Some(debugged(alloc, &self.value)?);
        Ok(self)
    }

    /// Shows the value on the help page, as a closure writes it (bpaf's `format_fallback`, whose
    /// closure writes to a formatter). Refused only for want of memory, which the closure may want
    /// too, and then the parser is gone.
    ///
    /// ```text
    /// num.fallback(7).format_fallback(alloc, |n| String::from_str(alloc, "seven"))?
    /// ```
    pub fn format_fallback<F: Fn(&T) -> Result<String, AllocError>>(
        mut self,
        alloc: Global,
        format: F,
    ) -> Result<ParseFallback<P, T>, AllocError>
        requires callable { F.IsAlwaysCallable format }
        ensures rest { IfOk result (λ parser. parser ≡ record self { shown = parser.shown }) }
        ensures shown { IfOk result (λ parser.
            ShowsFormatted (FnReturnsAt F.Fn format) self.value parser.shown) }
    {
        self.shown = Some(formatted(alloc, &format, &self.value)?);
        Ok(self)
    }
}

/// The inner value; or a clone of the kept one where the inner parser answers an error that can be
/// caught. Every other error is refused; so is want of memory. After all but an inner value the
/// state is as before.
impl<T: Clone, P: Parser<T>> Parser<T> for ParseFallback<P, T> {
    ghost can_eval = { λ p. P.can_eval p.inner };

    ghost grammar = { λ p. fallback p.shown (cloned T.is_clone p.value) (P.grammar p.inner) };

    fn eval(&self, state: &mut State) -> Result<T, Error> {
        match attempt(&self.inner, state)? {
            Some(value) => Ok(value),
            None => Ok(self.value.clone()?),
        }
    }

    fn meta(&self, alloc: Global) -> Result<Meta, AllocError> {
        default_meta(alloc, self.inner.meta(alloc)?, &self.shown)
    }
}

/// A closure's value. Its fault is refused with PureFailed, in full, or with want of memory, where
/// its text wants it.
///
/// It is public for the crates of this repository, not for callers.
pub fn given_by<T, E: Display + Drop, F: Fn() -> Result<T, E>>(
    alloc: Global,
    f: &F,
) -> Result<T, Error>
    requires { F.IsAlwaysCallable f.now }
    ensures { GivesAnswer (λ r. F.post f.now r) E.output result }
{
    match f() {
        Ok(value) => Ok(value),
        Err(fault) => {
            let text = Text::from(fault.to_string(alloc)?);
            Err(Error(Message::PureFailed(text)))
        }
    }
}

/// A closure's value where the inner parser has none (bpaf's `ParseFallbackWith`, in `structs.rs`).
#[derive(Drop)]
pub struct ParseFallbackWith<T, P, F, E> {
    pub inner: P,
    pub fallback: F,
    /// The value as it is shown in the help page; none is at first.
    pub shown: Option<Doc>,
    pub inner_res: PhantomData<T>,
    pub err: PhantomData<E>,
}

impl<T: Drop, P: Drop, F: Fn() -> Result<T, E> + Drop, E: Drop> ParseFallbackWith<T, P, F, E> {
    /// Shows the closure's value on the help page, as Display prints it; the closure is called
    /// once, and where it has none what was shown stays (bpaf's `display_fallback`). Refused only
    /// for want of memory, and then the parser is gone.
    pub fn display_fallback(
        mut self,
        alloc: Global,
    ) -> Result<ParseFallbackWith<T, P, F, E>, AllocError>
    where
        T: Display,
        requires callable { F.IsAlwaysCallable self.fallback }
        ensures rest { IfOk result (λ parser. parser ≡ record self { shown = parser.shown }) }
        ensures shown { IfOk result (λ parser. ShowsAnswer (λ r. F.post self.fallback r)
            (λ v. ShowsDefault (T.output v)) self.shown parser.shown) }
    {
        let Some(value) = (self.fallback)().ok() else {
            return Ok(self);
        };
        self.shown = Some(displayed(alloc, &value)?);
        Ok(self)
    }

    /// Shows the closure's value on the help page, as Debug prints it; the closure is called
    /// once, and where it has none what was shown stays (bpaf's `debug_fallback`). Refused only for
    /// want of memory, and then the parser is gone.
    pub fn debug_fallback(
        mut self,
        alloc: Global,
    ) -> Result<ParseFallbackWith<T, P, F, E>, AllocError>
    where
        T: Debug,
        requires callable { F.IsAlwaysCallable self.fallback }
        ensures rest { IfOk result (λ parser. parser ≡ record self { shown = parser.shown }) }
        ensures shown { IfOk result (λ parser. ShowsAnswer (λ r. F.post self.fallback r)
            (λ v. ShowsDefault (T.debug_output v)) self.shown parser.shown) }
    {
        let Some(value) = (self.fallback)().ok() else {
            return Ok(self);
        };
        self.shown = Some(debugged(alloc, &value)?);
        Ok(self)
    }

    /// Shows the closure's value on the help page, as another closure writes it; the first one
    /// is called once, and where it has none what was shown stays (bpaf's `format_fallback`).
    /// Refused only for want of memory, and then the parser is gone.
    pub fn format_fallback<G: Fn(&T) -> Result<String, AllocError>>(
        mut self,
        alloc: Global,
        format: G,
    ) -> Result<ParseFallbackWith<T, P, F, E>, AllocError>
        requires callable { F.IsAlwaysCallable self.fallback }
        requires writes { G.IsAlwaysCallable format }
        ensures rest { IfOk result (λ parser. parser ≡ record self { shown = parser.shown }) }
        ensures shown { IfOk result (λ parser. ShowsAnswer (λ r. F.post self.fallback r)
            (ShowsFormatted (FnReturnsAt G.Fn format)) self.shown parser.shown) }
    {
        let Some(value) = (self.fallback)().ok() else {
            return Ok(self);
        };
        self.shown = Some(formatted(alloc, &format, &value)?);
        Ok(self)
    }
}

/// The inner value; or the closure's where the inner parser answers an error that can be caught.
/// The closure's fault is refused with PureFailed, every other error as it is; so is want of
/// memory. After all but an inner value the state is as before.
impl<T, E: Display + Drop, P: Parser<T>, F: Fn() -> Result<T, E>> Parser<T>
    for ParseFallbackWith<T, P, F, E> {
    ghost can_eval = { λ p. P.can_eval p.inner × F.IsAlwaysCallable p.fallback };

    ghost grammar = { λ p.
        fallback p.shown (answered (λ r. F.post p.fallback r) E.output) (P.grammar p.inner) };

    fn eval(&self, state: &mut State) -> Result<T, Error> {
        match attempt(&self.inner, state)? {
            Some(value) => Ok(value),
            None => given_by(state.alloc(), &self.fallback),
        }
    }

    fn meta(&self, alloc: Global) -> Result<Meta, AllocError> {
        default_meta(alloc, self.inner.meta(alloc)?, &self.shown)
    }
}
