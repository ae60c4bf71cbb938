//! How many values a parser gives, and the last of them.
ghost use Rattle.bpaf_laws.specs.Combinators.{CountOutcome, LastOutcome, EndsIn, UntilFault};
ghost use Rattle.bpaf_grammar.specs.Grammar.{repeat, count, last, outcome_of};
ghost use Rattle.bpaf_laws.specs.Combinators.{UntilRest};
ghost use Rattle.std.specs.Prelude.{◌≡◌, IfErr, IfOk, List, length};

use crate::optional::parse_option;
use crate::parser::Parser;
use bpaf_doc::Meta;
use bpaf_line::{Error, State};
use std::alloc::{AllocError, Global};
use std::marker::PhantomData;

/// How many values there were, and the last of them.
#[derive(Drop)]
struct Counted<T> {
    count: usize,
    last: Option<T>,
}

/// The values until a turn stops, or one took nothing, which is counted too.
fn count_values<T: Drop, P: Parser<T>>(parser: &P, state: &mut State) -> Result<Counted<T>, Error>
    requires { P.can_eval parser.now }
    ensures ok { IfOk result (λ counted. (values : List T)
        × UntilRest (outcome_of (P.grammar parser.now)) state.old values state.new
        × (counted.count ≡ length values) × EndsIn values counted.last) }
    ensures err { IfErr result (λ e. UntilFault (outcome_of (P.grammar parser.now)) state.old e
        state.new) }
{
    let present_at_start = state.len();
    let mut left = present_at_start;
    let mut count = 0;
    let mut last = None;
    while let Some(value) = parse_option(parser, state, false, last.is_none())? {
        count += 1;
        last = Some(value);
        if state.len() == left {
            return Ok(Counted { count, last });
        }
        left = state.len();
    }
    Ok(Counted { count, last })
}

/// The last of these values; without one what the parser answers once more.
fn last_value<T: Drop, P: Parser<T>>(parser: &P, state: &mut State) -> Result<T, Error>
    requires { P.can_eval parser.now }
    ensures { LastOutcome (outcome_of (P.grammar parser.now)) state.old result state.new }
{
    match count_values(parser, state)?.last {
        Some(value) => Ok(value),
        None => parser.eval(state),
    }
}

/// How many inner values there are (bpaf's `ParseCount`, in `structs.rs`).
#[derive(Drop)]
pub struct ParseCount<P, T> {
    pub inner: P,
    pub inner_res: PhantomData<T>,
}

/// The number of inner values, until a turn stops or a value took nothing, which is counted. Every
/// error at which no turn stops is refused, with the state that it left; so is want of memory.
impl<T: Drop, P: Parser<T>> Parser<usize> for ParseCount<P, T> {
    ghost can_eval = { λ p. P.can_eval p.inner };

    ghost grammar = { λ p. repeat count (P.grammar p.inner) };

    fn eval(&self, state: &mut State) -> Result<usize, Error> {
        Ok(count_values(&self.inner, state)?.count)
    }

    fn meta(&self, alloc: Global) -> Result<Meta, AllocError> {
        self.inner.meta(alloc)?.many(alloc)
    }
}

/// The last inner value (bpaf's `ParseLast`, in `structs.rs`).
#[derive(Drop)]
pub struct ParseLast<P> {
    pub inner: P,
}

/// The last inner value before a turn stops, or one that took nothing. Without a value the inner
/// parser is evaluated once more, and what it answers is the answer. Every error at which no turn
/// stops is refused, with the state that it left; so is want of memory.
impl<T: Drop, P: Parser<T>> Parser<T> for ParseLast<P> {
    ghost can_eval = { λ p. P.can_eval p.inner };

    ghost grammar = { λ p. last (P.grammar p.inner) };

    fn eval(&self, state: &mut State) -> Result<T, Error> {
        last_value(&self.inner, state)
    }

    fn meta(&self, alloc: Global) -> Result<Meta, AllocError> {
        self.inner.meta(alloc)?.some(alloc)
    }
}
