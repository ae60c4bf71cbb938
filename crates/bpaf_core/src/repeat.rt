//! All values of a parser, in a list.
ghost use Rattle.bpaf_grammar.specs.Grammar.{repeat, many, some, outcome_of};
ghost use Rattle.std.specs.Prelude.{◌≡◌, ◌++◌, ◌∷◌, [], OnOk, true};
ghost use Rattle.std.specs.Global.{Vec};
ghost use Rattle.bpaf_laws.specs.Combinators.{ManyOutcome, SomeOutcome};

use crate::optional::parse_option;
use crate::parser::Parser;
use bpaf_doc::{Meta, Text};
use bpaf_line::{Error, Message, State};
use std::alloc::{AllocError, Global};

/// Appends a value to a list; refused only for want of memory, and then the value is dropped.
fn push_value<T: Drop>(values: &mut Vec<T>, value: T) -> Result<(), AllocError>
    ensures { OnOk result (values.new.items ≡ values.old.items ++ value ∷ []) }
{
    values.push(value)?;
    Ok(())
}

/// The values of turns, until one stops; an error of a turn is the answer.
pub(crate) fn values_until_stop<T: Drop, P: Parser<T>>(
    parser: &P,
    state: &mut State,
    catches: bool,
) -> Result<Vec<T>, Error>
    requires { P.can_eval parser.now }
    ensures { ManyOutcome (outcome_of (P.grammar parser.now)) catches state.old result state.new }
{
    let mut values = Vec::new(state.alloc());
    while let Some(value) = parse_option(parser, state, catches, values.is_empty())? {
        push_value(&mut values, value)?;
    }
    Ok(values)
}

/// All inner values (bpaf's `ParseMany`, in `structs.rs`).
pub struct ParseMany<P> {
    pub inner: P,
    pub catch: bool,
}

impl<P: Drop> Drop for ParseMany<P> {
    fn drop(self) {
        let ParseMany {
            inner: _inner,
            catch: _,
        } = self;
    }
}

impl<P> ParseMany<P> {
    /// This repeat, but each error other than wrong input and want of memory ends the list (bpaf's
    /// `ParseMany::catch`). What can't be read stays on the line.
    ///
    /// ```text
    /// let nums = positional::<u64>("N").many().catch();
    /// construct!(nums, words)      ([1, 2], ["x", "3"]) off `1 2 x 3`
    /// ```
    pub fn catch(mut self) -> ParseMany<P>
        ensures { result ≡ record self { catch = true } }
    {
        self.catch = true;
        self
    }
}

/// The inner values in order, until a turn stops: where the inner parser answers Missing and took
/// nothing, or another error that can be caught, or a value after the first that took nothing.
/// Every other error is refused, with the state that it left; so is want of memory.
impl<T: Drop, P: Parser<T>> Parser<Vec<T>> for ParseMany<P> {
    ghost can_eval = { λ p. P.can_eval p.inner };

    ghost grammar = { λ p. repeat (many p.catch) (P.grammar p.inner) };

    fn eval(&self, state: &mut State) -> Result<Vec<T>, Error> {
        values_until_stop(&self.inner, state, self.catch)
    }

    fn meta(&self, alloc: Global) -> Result<Meta, AllocError> {
        self.inner.meta(alloc)?.many(alloc)
    }
}

/// The values of turns, until one stops; without a value it refuses with ParseSome and the message.
fn some_values<T: Drop, P: Parser<T>>(
    parser: &P,
    state: &mut State,
    catches: bool,
    message: &str,
) -> Result<Vec<T>, Error>
    requires { P.can_eval parser.now }
    ensures { SomeOutcome (outcome_of (P.grammar parser.now)) catches message.now state.old result
        state.new }
{
    let values = values_until_stop(parser, state, catches)?;
    if values.is_empty() {
        let message = Text::new(state.alloc(), message)?;
        return Err(Error(Message::ParseSome(message)));
    }
    Ok(values)
}

/// All inner values, of which there has to be one (bpaf's `ParseSome`, in `structs.rs`).
#[derive(Drop)]
pub struct ParseSome<'m, P> {
    pub inner: P,
    pub message: &'m str,
    pub catch: bool,
}

impl<'m, P> ParseSome<'m, P> {
    /// This repeat, but each error other than wrong input and want of memory ends the list (bpaf's
    /// `ParseSome::catch`). What can't be read stays on the line.
    ///
    /// ```text
    /// let nums = positional::<u64>("N").some("need one").catch();
    /// construct!(nums, words)      ([1], ["x", "3"]) off `1 x 3`
    /// ```
    pub fn catch(mut self) -> ParseSome<'m, P>
        ensures { result ≡ record self.entry { catch = true } }
    {
        self.catch = true;
        self
    }
}

/// As `many`; without a value it refuses with ParseSome and the message.
impl<'m, T: Drop, P: Parser<T>> Parser<Vec<T>> for ParseSome<'m, P> {
    ghost can_eval = { λ p. P.can_eval p.inner };

    ghost grammar = { λ p. repeat (some p.catch p.message.now) (P.grammar p.inner) };

    fn eval(&self, state: &mut State) -> Result<Vec<T>, Error> {
        some_values(&self.inner, state, self.catch, self.message)
    }

    fn meta(&self, alloc: Global) -> Result<Meta, AllocError> {
        self.inner.meta(alloc)?.some(alloc)
    }
}
