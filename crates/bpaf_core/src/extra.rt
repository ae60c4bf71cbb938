//! What a run may be asked for beside its value, as a parser.
ghost use Rattle.bpaf_core.specs.Extra.{extra_own};
ghost use Rattle.bpaf_grammar.specs.Grammar.{own};

use crate::parser::Parser;
use bpaf_doc::Meta;
use bpaf_keys::{ExtraParams, Info};
use bpaf_line::{Error, State};
use std::alloc::{AllocError, Global};

/// What the run is asked for beside its value, as [`Info::look`] tells it (bpaf's `Info`, in
/// `info.rs`).
///
/// Refused with ParseFail, where neither help nor the version is asked for; and for want of memory.
impl Parser<ExtraParams> for Info {
    ghost can_eval = { λ info. Unit {0} };

    ghost grammar = { λ info. own (extra_own info) };

    fn eval(&self, state: &mut State) -> Result<ExtraParams, Error> {
        self.look(state)
    }

    fn meta(&self, alloc: Global) -> Result<Meta, AllocError> {
        self.keys_meta(alloc)
    }
}
