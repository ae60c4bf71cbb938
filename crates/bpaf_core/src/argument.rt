//! Arguments.
ghost use Rattle.bpaf_grammar.specs.Grammar.{argument};

use crate::parser::Parser;
use bpaf_doc::Meta;
use bpaf_keys::{read_text, take_argument};
use bpaf_line::{Error, State};
use bpaf_text::{FromText, ParseArgument};
use std::alloc::{AllocError, Global};

/// What the text behind the first key with one of the names means, or, where there is no such key,
/// that of the first of its names in the environment that is set (bpaf's `ParseArgument`, in
/// `params.rs`). With `take_last` all such keys are taken, each with the text behind it, and the
/// last text counts.
///
/// Refused with Missing where there is neither, or NoEnv where it has names in the environment
/// alone; with NoArgument where no text stands behind a key, those before it taken; with
/// ParseFailed, its places taken, where the text that counts means no value; or for want of memory.
/// A text of the environment leaves no place current.
impl<T: FromText> Parser<T> for ParseArgument<T> {
    ghost can_eval = { λ p. Unit {0} };

    ghost grammar = { λ p. argument T.means p };

    fn eval(&self, state: &mut State) -> Result<T, Error> {
        let text = take_argument(self, state)?;
        read_text(state, text.as_str())
    }

    fn meta(&self, alloc: Global) -> Result<Meta, AllocError> {
        match self.named.argument_item(alloc, self.metavar)? {
            Some(item) => Ok(Meta::Item(item)),
            None => Ok(Meta::Skip),
        }
    }
}
