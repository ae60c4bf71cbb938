//! Flags.
ghost use Rattle.bpaf_grammar.specs.Grammar.{flag};

use crate::parser::Parser;
use bpaf_doc::Meta;
use bpaf_keys::{absence, is_flag_present};
use bpaf_line::{Error, State};
use bpaf_text::ParseFlag;
use std::alloc::{AllocError, Global};

/// Present where a key with one of the names is taken, or else where one of its names in the
/// environment is set; else absent (bpaf's `ParseFlag`, in `params.rs`).
///
/// A required flag, which has no absent value, answers Missing where it is absent, or NoEnv where
/// it has names in the environment alone. The value is a clone of the kept one, which may be
/// refused for want of memory.
impl<T: Clone> Parser<T> for ParseFlag<T> {
    ghost can_eval = { λ p. Unit {0} };

    ghost grammar = { λ p. flag T.is_clone p.named p.present p.absent };

    fn eval(&self, state: &mut State) -> Result<T, Error> {
        if is_flag_present(self, state) {
            return Ok(self.present.clone()?);
        }
        match &self.absent {
            Some(absent) => Ok(absent.clone()?),
            None => {
                let item = self.named.flag_item(state.alloc())?;
                Err(absence(state, item, self.named.envs())?)
            }
        }
    }

    fn meta(&self, alloc: Global) -> Result<Meta, AllocError> {
        let Some(item) = self.named.flag_item(alloc)? else {
            return Ok(Meta::Skip);
        };
        match &self.absent {
            Some(_) => Ok(Meta::Optional(Box::new(alloc, Meta::Item(item))?)),
            None => Ok(Meta::Item(item)),
        }
    }
}
