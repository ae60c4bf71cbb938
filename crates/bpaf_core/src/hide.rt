//! Hidden parsers.
ghost use Rattle.bpaf_grammar.specs.Grammar.{dressed, hide};
ghost use Rattle.bpaf_doc.specs.Shape.{Skip};
ghost use Rattle.bpaf_laws.specs.Combinators.{hidden};
ghost use Rattle.std.specs.Prelude.{◌≡◌};

use crate::parser::Parser;
use bpaf_doc::Meta;
use bpaf_line::{Error, Message, MissingItems, State};
use std::alloc::{AllocError, Global};

/// The refusal, in which no missing item is named. It takes no memory.
fn hide(alloc: Global, message: Message) -> Message
    ensures { result ≡ hidden message }
{
    if matches!(message, Message::Missing(..)) {
        drop(message);
        return Message::Missing(MissingItems::none(alloc));
    }
    message
}

/// A hidden parser (bpaf's `ParseHide`, in `structs.rs`).
#[derive(Drop)]
pub struct ParseHide<P> {
    pub inner: P,
}

/// The inner answer, with the state that it left; but a refusal with Missing names no item.
impl<T, P: Parser<T>> Parser<T> for ParseHide<P> {
    ghost can_eval = { λ p. P.can_eval p.inner };

    ghost grammar = { λ p. dressed hide (P.grammar p.inner) };

    fn eval(&self, state: &mut State) -> Result<T, Error> {
        match self.inner.eval(state) {
            Ok(value) => Ok(value),
            Err(error) => Err(Error(hide(state.alloc(), error.0))),
        }
    }

    fn meta(&self, _alloc: Global) -> Result<Meta, AllocError> {
        Ok(Meta::Skip)
    }
}
