//! A value that may be missing.
ghost use Rattle.bpaf_grammar.specs.Grammar.{optional, outcome_of};
ghost use Rattle.std.specs.Prelude.{◌≡◌, true};
ghost use Rattle.bpaf_laws.specs.Combinators.{TurnOutcome, stops_step};

use crate::parser::Parser;
use bpaf_doc::Meta;
use bpaf_line::{Error, Message, State};
use std::alloc::{AllocError, Global};

/// Whether a step stops at an error; `untouched` tells that as many items are present as before it.
/// It takes no memory.
fn stops_step(catches: bool, message: &Message, untouched: bool) -> bool
    ensures { result ≡ stops_step catches message.now untouched }
{
    if message.is_memory() {
        return false;
    }
    match message {
        Message::Missing(_) => catches || untouched,
        other => (catches && !other.wrong_input()) || other.can_catch(),
    }
}

/// One turn of an optional value or a repeat (bpaf's `parse_option`, in `structs.rs`): Some of a
/// value, or None where it stops.
///
/// With `catches` it stops at every error but those of wrong input and want of memory; `first` is
/// true where no value came before it.
pub(crate) fn parse_option<T: Drop, P: Parser<T>>(
    parser: &P,
    state: &mut State,
    catches: bool,
    first: bool,
) -> Result<Option<T>, Error>
    requires { P.can_eval parser.now }
    ensures { TurnOutcome (outcome_of (P.grammar parser.now)) catches first state.old result
        state.new }
{
    let mark = state.mark();
    let left = state.len();
    match parser.eval(state) {
        Ok(value) => {
            if first || state.len() < left {
                Ok(Some(value))
            } else {
                Ok(None)
            }
        }
        Err(error) => {
            let untouched = state.len() == left;
            if stops_step(catches, &error.0, untouched) {
                state.undo(mark);
                Ok(None)
            } else {
                Err(error)
            }
        }
    }
}

/// Some of the inner value, or None (bpaf's `ParseOptional`, in `structs.rs`).
#[derive(Drop)]
pub struct ParseOptional<P> {
    pub inner: P,
    pub catch: bool,
}

impl<P> ParseOptional<P> {
    /// This parser, but each error other than wrong input and want of memory gives None (bpaf's
    /// `ParseOptional::catch`). What can't be read stays on the line.
    ///
    /// ```text
    /// let num = positional::<u64>("N").optional().catch();
    /// construct!(num, words)      (None, ["x"]) off `x`, where `words` reads all words
    /// ```
    pub fn catch(mut self) -> ParseOptional<P>
        ensures { result ≡ record self { catch = true } }
    {
        self.catch = true;
        self
    }
}

/// None where the inner parser answers Missing and took nothing, or another error that can be
/// caught, or with `catch` any that isn't of wrong input; all is then as before. Every other error
/// is refused, with the state that it left; so is want of memory.
impl<T: Drop, P: Parser<T>> Parser<Option<T>> for ParseOptional<P> {
    ghost can_eval = { λ p. P.can_eval p.inner };

    ghost grammar = { λ p. optional p.catch (P.grammar p.inner) };

    fn eval(&self, state: &mut State) -> Result<Option<T>, Error> {
        parse_option(&self.inner, state, self.catch, true)
    }

    fn meta(&self, alloc: Global) -> Result<Meta, AllocError> {
        self.inner.meta(alloc)?.optional(alloc)
    }
}
