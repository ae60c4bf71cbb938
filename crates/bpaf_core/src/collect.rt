//! All values of a parser, in a collection of the caller's choice.
ghost use Rattle.bpaf_grammar.specs.Grammar.{repeat, collect};
ghost use Rattle.std.specs.Prelude.{◌≡◌, true};

use crate::parser::Parser;
use crate::repeat::values_until_stop;
use bpaf_doc::Meta;
use bpaf_line::{Error, State};
use bpaf_text::FromList;
use std::alloc::{AllocError, Global};
use std::marker::PhantomData;

/// All inner values in a collection (bpaf's `ParseCollect`, in `structs.rs`).
#[derive(Drop)]
pub struct ParseCollect<P, C, T> {
    pub inner: P,
    pub catch: bool,
    pub collection: PhantomData<C>,
    pub inner_res: PhantomData<T>,
}

impl<P, C, T> ParseCollect<P, C, T> {
    /// This repeat, but each error other than wrong input and want of memory ends the list (bpaf's
    /// `ParseCollect::catch`). What can't be read stays on the line.
    ///
    /// ```text
    /// let nums = positional::<u64>("N").collect::<VecDeque<u64>>().catch();
    /// construct!(nums, words)      ([3, 1], ["x"]) off `3 1 x`
    /// ```
    pub fn catch(mut self) -> ParseCollect<P, C, T>
        ensures { result ≡ record self { catch = true } }
    {
        self.catch = true;
        self
    }
}

/// As `many`, with what is filled from the list in its place; refused also where the collection
/// wants memory.
impl<T: Drop, C: FromList<T> + Drop, P: Parser<T>> Parser<C> for ParseCollect<P, C, T> {
    ghost can_eval = { λ p. P.can_eval p.inner };

    ghost grammar = { λ p. repeat (collect p.catch C.fills) (P.grammar p.inner) };

    fn eval(&self, state: &mut State) -> Result<C, Error> {
        let values = values_until_stop(&self.inner, state, self.catch)?;
        Ok(C::from_list(values)?)
    }

    fn meta(&self, alloc: Global) -> Result<Meta, AllocError> {
        self.inner.meta(alloc)?.many(alloc)
    }
}
