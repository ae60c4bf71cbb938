//! A described parser whose inner ones are of the level below.
ghost use Rattle.std.specs.Prelude.{All};
ghost use Rattle.bench_rows.specs.Levels.{level_grammar};
ghost use Rattle.bench_values.specs.Modifiers.{all_of};

use crate::groups::{group, group_meta};
use crate::several::{or_else, or_else_meta, product, product_meta};
use bench_values::{
    Described, Fault, Kind, Tokens, Value, called, called_meta, modified, modified_meta,
    read_combination, read_several,
};
use bpaf::parsers::ParseChoice;
use bpaf::{Error, Meta, Parser, State, choice};
use std::alloc::{AllocError, Global};

/// A parser over inner parsers of one type.
#[derive(Drop)]
pub struct Level<P> {
    /// What it makes of them.
    pub kind: Kind,
    /// The choice of them all.
    pub inner: ParseChoice<P>,
}

impl<P: Parser<Value> + Drop> Parser<Value> for Level<P> {
    ghost can_eval = { λ p. All P.can_eval p.inner.parsers.items };

    ghost grammar = { λ p. level_grammar P.grammar ⟦<Value as Clone>⟧.is_clone p.kind
        p.inner.parsers.items };

    fn eval(&self, state: &mut State) -> Result<Value, Error> {
        match &self.kind {
            Kind::Over(modifier) => modified(*modifier, &self.inner, state),
            Kind::Product => product(self.inner.parsers.as_slice(), state),
            Kind::Group => group(self.inner.parsers.as_slice(), state),
            Kind::OrElse => or_else(&self.inner, state),
            Kind::Command(names, adjacent) => called(names, *adjacent, &self.inner, state),
        }
    }

    fn meta(&self, alloc: Global) -> Result<Meta, AllocError> {
        match &self.kind {
            Kind::Over(modifier) => modified_meta(*modifier, &self.inner, alloc),
            Kind::Product => product_meta(self.inner.parsers.as_slice(), alloc),
            Kind::Group => group_meta(self.inner.parsers.as_slice(), alloc),
            Kind::OrElse => or_else_meta(&self.inner, alloc),
            Kind::Command(names, _) => called_meta(names, &self.inner, alloc),
        }
    }
}

impl<P: Described> Described for Level<P> {
    fn read(tokens: &mut Tokens<'_>) -> Result<Level<P>, Fault> {
        let opened = tokens.open();
        let (kind, count) = read_combination(tokens)?;
        let inner = choice(read_several(count, tokens)?);
        tokens.close(opened)?;
        Ok(Level { kind, inner })
    }

    ghost ready = { λ p. all_of P.ready p.inner.parsers.items };
}
