//! A choice of two parsers.
ghost use Rattle.bpaf_grammar.specs.Grammar.{choice, outcome_of};
ghost use Rattle.bpaf_laws.specs.Choice.{ChoiceOutcome};
ghost use Rattle.bpaf_choice.specs.Branches.{HasAnswered, IsStart, start_of};

use crate::parser::Parser;
use bpaf_choice::{Branch, Start, is_memory_answer, or_meta, this_or_that};
use bpaf_doc::Meta;
use bpaf_line::{Error, State};
use std::alloc::{AllocError, Global};

/// The answer of a choice of which the first branch answered this, from a start that lies behind
/// the state, and whose second one is a parser; [`this_or_that`] decides whose answer counts. Want
/// of memory in either is refused at once, with the state as at the start.
///
/// It is public for choices in the crates of this repository, not for callers.
pub fn or_parser<T: Drop, P: Parser<T>>(
    state: &mut State,
    start: Start,
    first: Result<T, Error>,
    parser: &P,
) -> Result<T, Error>
    requires parser { P.can_eval parser.now }
    requires start { IsStart start state.old }
    ensures { ChoiceOutcome (HasAnswered (start_of start state.old) first state.old)
        (outcome_of (P.grammar parser.now)) (start_of start state.old) result state.new }
{
    if is_memory_answer(&first) {
        state.undo(start.mark);
        return first;
    }
    let this = match Branch::leave(state, start) {
        Ok(this) => this,
        Err(error) => {
            drop(first);
            return Err(Error::from(error));
        }
    };
    let second = parser.eval(state);
    if is_memory_answer(&second) {
        drop(first);
        state.undo(start.mark);
        return second;
    }
    this_or_that(state, start, first, this, second)
}

/// One of two parsers (bpaf's `ParseOrElse`, in `structs.rs`).
#[derive(Drop)]
pub struct ParseOrElse<A, B> {
    pub this: A,
    pub that: B,
}

/// Both are evaluated, each from the same situation, the first one first ([`or_parser`]).
impl<T: Drop, A: Parser<T>, B: Parser<T>> Parser<T> for ParseOrElse<A, B> {
    ghost can_eval = { λ p. A.can_eval p.this × B.can_eval p.that };

    ghost grammar = { λ p. choice (A.grammar p.this) (B.grammar p.that) };

    fn eval(&self, state: &mut State) -> Result<T, Error> {
        let start = Start::of(state);
        let first = self.this.eval(state);
        or_parser(state, start, first, &self.that)
    }

    fn meta(&self, alloc: Global) -> Result<Meta, AllocError> {
        let first = self.this.meta(alloc)?;
        let second = self.that.meta(alloc)?;
        or_meta(alloc, first, second)
    }
}
