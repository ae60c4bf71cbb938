//! A parser of any type, as one of the bench's values.
ghost use Rattle.bpaf_grammar.specs.{Grammar.outcome_of, Own.MadeOutcome};

use crate::value::{Told, Value};
use bpaf_core::Parser;
use bpaf_doc::Meta;
use bpaf_line::{Error, State};
use std::alloc::{AllocError, Global};
use std::marker::PhantomData;

/// A parser whose value is told as a [`Value`].
#[derive(Drop)]
pub struct AsValue<T, P> {
    /// The parser.
    pub inner: P,
    /// The type of its value.
    pub of: PhantomData<T>,
}

impl<T: Told + Drop, P: Parser<T>> Parser<Value> for AsValue<T, P> {
    ghost use Rattle.bpaf_grammar.specs.Grammar.{made};

    ghost can_eval = { λ p. P.can_eval p.inner };

    ghost grammar = { λ p. made T.told (P.grammar p.inner) };

    fn eval(&self, state: &mut State) -> Result<Value, Error> {
        let value = self.inner.eval(state)?;
        Ok(value.into_value(state.alloc())?)
    }

    fn meta(&self, alloc: Global) -> Result<Meta, AllocError> {
        self.inner.meta(alloc)
    }
}

/// The value of a parser, told as one of all parsers.
pub fn tell<T: Told + Drop, P: Parser<T> + Drop>(
    inner: P,
    state: &mut State,
) -> Result<Value, Error>
    requires { P.can_eval inner }
    ensures { MadeOutcome (outcome_of (P.grammar inner)) T.told state.old result state.new }
{
    let parser: AsValue<T, P> = AsValue {
        inner,
        of: PhantomData,
    };
    parser.eval(state)
}
