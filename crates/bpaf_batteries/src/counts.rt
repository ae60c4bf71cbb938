//! How often the keys for more and for less are given.
ghost use Rattle.bpaf_batteries.specs.Verbosity.{counts_grammar, AreVerboseAndQuiet};
ghost use Rattle.bpaf_grammar.specs.Grammar.{outcome_of};
ghost use Rattle.bpaf_batteries.specs.{Verbosity.KeysAreCounted, Keys.counted_key};
ghost use Rattle.std.specs.Prelude.{◌≡◌, ◌≤◌, length, IfOk, None};

use crate::pair::KeyCounts;
use bpaf::parsers::{ParseCount, ParseFlag};
use bpaf::{Both, Error, Fields, Last, Meta, Parser, State, key};
use std::alloc::{AllocError, Global};

/// How often a key of these names and this help stands on the line.
fn counted(
    alloc: Global,
    letter: char,
    name: &str,
    help: &'static str,
) -> ParseCount<ParseFlag<()>, ()>
    requires { length name.now ≤ 23 }
    ensures { result.inner ≡ counted_key letter name.now help.now }
{
    key(alloc, letter, name).req_flag(()).help(help).count()
}

/// The keys `-v`, `--verbose` and `-q`, `--quiet`. They take no memory.
pub(crate) fn verbose_and_quiet(alloc: Global) -> KeyCounts
    ensures { AreVerboseAndQuiet result }
{
    let help = "Increase output verbosity, can be used several times";
    let first = counted(alloc, 'v', "verbose", help);
    let help = "Decrease output verbosity, can be used several times";
    let last = counted(alloc, 'q', "quiet", help);
    KeyCounts {
        fields: Both {
            first,
            rest: Last { last },
        },
    }
}

/// Both counts; then no word is current.
impl Parser<(usize, usize)> for KeyCounts {
    ghost can_eval = { λ p. Unit {0} };

    ghost grammar = { λ p. counts_grammar ⟦<() as Clone>⟧.is_clone p };

    fn eval(&self, state: &mut State) -> Result<(usize, usize), Error>
        ensures outcome { outcome_of (counts_grammar ⟦<() as Clone>⟧.is_clone self.now)
            state.old result state.new }
        ensures keys_are_counted { IfOk result (KeysAreCounted self.now state.old state.new) }
    {
        let counts = self.fields.eval_fields(state);
        state.set_current(None);
        counts
    }

    fn meta(&self, alloc: Global) -> Result<Meta, AllocError> {
        let mut metas = Vec::new(alloc);
        self.fields.push_metas(alloc, &mut metas)?;
        Ok(Meta::And(metas))
    }
}
