//! Four fields of a product at once, for records of many fields.

use crate::product::{Both, Fields};
use bpaf_core::Parser;
use bpaf_doc::Meta;
use bpaf_line::{Error, State};
use std::alloc::{AllocError, Global};

/// Four fields, and the fields after them, as nested pairs.
pub type FourFields<A, B, C, D, R> = Both<A, Both<B, Both<C, Both<D, R>>>>;

/// The values of four fields, and of the fields after them.
pub type FourValues<S, T, U, V, W> = (S, (T, (U, (V, W))));

/// Four fields of a product, and the fields after them: they are what the same fields are one by
/// one.
///
/// `construct!` groups fields so while at least five are left. The type names each parser once, so
/// a program is checked sooner whose record has many fields.
pub struct Four<A, B, C, D, R> {
    /// The fields.
    pub fields: FourFields<A, B, C, D, R>,
}

impl<A: Drop, B: Drop, C: Drop, D: Drop, R: Drop> Drop for Four<A, B, C, D, R> {
    fn drop(self) {
        let Four { fields: _fields } = self;
    }
}

impl<
    S: Drop,
    T: Drop,
    U: Drop,
    V: Drop,
    W,
    A: Parser<S>,
    B: Parser<T>,
    C: Parser<U>,
    D: Parser<V>,
    R: Fields<W>,
> Fields<FourValues<S, T, U, V, W>> for Four<A, B, C, D, R> {
    ghost can_eval = { λ p.
        ⟦<FourFields<A, B, C, D, R> as Fields<FourValues<S, T, U, V, W>>>⟧.can_eval p.fields };

    ghost grammar = { λ p.
        ⟦<FourFields<A, B, C, D, R> as Fields<FourValues<S, T, U, V, W>>>⟧.grammar p.fields };

    fn eval_fields(&self, state: &mut State) -> Result<FourValues<S, T, U, V, W>, Error> {
        self.fields.eval_fields(state)
    }

    fn eval_without_value(&self, state: &mut State) -> Result<(), Error> {
        self.fields.eval_without_value(state)
    }

    fn push_metas(&self, alloc: Global, metas: &mut Vec<Meta>) -> Result<(), AllocError> {
        self.fields.push_metas(alloc, metas)
    }

    fn eval_fail_fast(&self, state: &mut State) -> Result<FourValues<S, T, U, V, W>, Error> {
        self.fields.eval_fail_fast(state)
    }
}
