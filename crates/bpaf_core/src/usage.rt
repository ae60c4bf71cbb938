//! Parsers that answer as the inner one does, and are shown otherwise.
ghost use Rattle.bpaf_grammar.specs.Grammar.{dressed, usage, section, titled};

use crate::parser::Parser;
use bpaf_doc::{Doc, Meta, MetaInfo};
use bpaf_line::{Error, State};
use std::alloc::{AllocError, Global};

/// A parser with a usage text of its own (bpaf's `ParseUsage`, in `structs.rs`).
#[derive(Drop)]
pub struct ParseUsage<P> {
    pub inner: P,
    /// The text; without one nothing stands in the usage.
    pub usage: Option<Doc>,
}

/// The inner answer, with the state that it left.
impl<T, P: Parser<T>> Parser<T> for ParseUsage<P> {
    ghost can_eval = { λ p. P.can_eval p.inner };

    ghost grammar = { λ p. dressed (usage p.usage) (P.grammar p.inner) };

    fn eval(&self, state: &mut State) -> Result<T, Error> {
        self.inner.eval(state)
    }

    fn meta(&self, alloc: Global) -> Result<Meta, AllocError> {
        let inner = Box::new(alloc, self.inner.meta(alloc)?)?;
        let usage = Doc::copy_of(&self.usage)?.unwrap_or(Doc::new(alloc));
        Ok(Meta::CustomUsage(inner, usage))
    }
}

/// A parser that is shown in a section of its own (bpaf's `ParseGroupHelp`, in `structs.rs`).
#[derive(Drop)]
pub struct ParseGroupHelp<P> {
    pub inner: P,
    /// The title of the section.
    pub message: Doc,
}

/// The inner answer, with the state that it left.
impl<T, P: Parser<T>> Parser<T> for ParseGroupHelp<P> {
    ghost can_eval = { λ p. P.can_eval p.inner };

    ghost grammar = { λ p. dressed (section p.message) (P.grammar p.inner) };

    fn eval(&self, state: &mut State) -> Result<T, Error> {
        self.inner.eval(state)
    }

    fn meta(&self, alloc: Global) -> Result<Meta, AllocError> {
        let inner = Box::new(alloc, self.inner.meta(alloc)?)?;
        Ok(Meta::Subsection(inner, self.message.copy()?))
    }
}

/// A parser that is shown in a section of its own, below what a closure answers on what is shown
/// inside (bpaf's `ParseWithGroupHelp`, in `structs.rs`).
#[derive(Drop)]
pub struct ParseWithGroupHelp<P, F> {
    pub inner: P,
    pub f: F,
}

/// The inner answer, with the state that it left.
impl<T, P: Parser<T>, F: Fn(MetaInfo<'_>) -> Result<Doc, AllocError>> Parser<T>
    for ParseWithGroupHelp<P, F> {
    ghost can_eval = { λ p. P.can_eval p.inner × F.IsAlwaysCallable p.f };

    ghost grammar = { λ p.
        dressed (titled (λ info title. F.post p.f info title)) (P.grammar p.inner) };

    fn eval(&self, state: &mut State) -> Result<T, Error> {
        self.inner.eval(state)
    }

    fn meta(&self, alloc: Global) -> Result<Meta, AllocError> {
        let inner = self.inner.meta(alloc)?;
        let title = (self.f)(MetaInfo::new(&inner))?;
        Ok(Meta::Subsection(Box::new(alloc, inner)?, title))
    }
}
