//! The name under which a program runs.
ghost use Rattle.bpaf_grammar.specs.{Leaves.program_name, Grammar.own};
ghost use Rattle.bpaf_doc.specs.Shape.{Skip};

use bpaf_core::Parser;
use bpaf_doc::Meta;
use bpaf_line::{Error, State};
use std::alloc::{AllocError, Global};

/// The name by which the program is called (bpaf's `ParseAppname`, in `lib.rs`).
#[derive(Clone, Copy)]
pub struct ParseAppname;

/// A parser that looks at no item and answers the name by which the program is called (bpaf's
/// `appname`): the one that `Args::set_name` set; else, inside a command, the name of the outermost
/// command; else `app`.
///
/// ```text
/// let name = appname();
/// construct!(Options { name, verbose })
/// ```
pub fn appname() -> ParseAppname {
    ParseAppname
}

/// A copy of the first entry of the path, else of `app`; refused only for want of memory. Nothing
/// changes, the current place neither.
impl Parser<String> for ParseAppname {
    ghost can_eval = { λ p. Unit {0} };

    ghost grammar = { λ p. own program_name };

    fn eval(&self, state: &mut State) -> Result<String, Error> {
        match state.path().first() {
            Some(entry) => Ok(entry.clone()?),
            None => Ok(String::from_str(state.alloc(), "app")?),
        }
    }

    fn meta(&self, _alloc: Global) -> Result<Meta, AllocError> {
        Ok(Meta::Skip)
    }
}
