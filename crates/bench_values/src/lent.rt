//! A parser that is lent to another.
use bpaf_core::Parser;
use bpaf_doc::Meta;
use bpaf_line::{Error, State};
use std::alloc::{AllocError, Global};

/// A parser that is lent: it reads what the other one does.
#[derive(Drop)]
pub struct Lent<'p, P> {
    /// The parser.
    pub inner: &'p P,
}

impl<'p, T, P: Parser<T>> Parser<T> for Lent<'p, P> {
    ghost can_eval = { λ p. P.can_eval p.inner.now };

    ghost grammar = { λ p. P.grammar p.inner.now };

    fn eval(&self, state: &mut State) -> Result<T, Error> {
        self.inner.eval(state)
    }

    fn meta(&self, alloc: Global) -> Result<Meta, AllocError> {
        self.inner.meta(alloc)
    }
}
