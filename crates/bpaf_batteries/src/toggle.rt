//! Two flags of which the last one given counts.
ghost use Rattle.bpaf_grammar.specs.Grammar.{outcome_of};
ghost use Rattle.bpaf_batteries.specs.Toggle.{toggle_grammar, LastToggleWins};
ghost use Rattle.std.specs.Prelude.{◌≡◌, None, false, IfOk};
ghost use Rattle.bpaf_laws.specs.Combinators.{EndsIn};

use bpaf::parsers::{ParseFlag, ParseMany, ParseOrElse};
use bpaf::{Error, Meta, NamedArg, Parser, State};
use std::alloc::{AllocError, Global};

/// Two keys, of which the last one on the line counts (bpaf's `toggle_flag` answers an
/// `impl Parser`).
#[derive(Drop)]
pub struct ToggleFlag<T> {
    /// The two keys, of which one may stand any number of times.
    pub toggles: ParseMany<ParseOrElse<ParseFlag<T>, ParseFlag<T>>>,
}

/// The value of the last of two keys on the line, None where the line has neither (bpaf's
/// `toggle_flag`, in `batteries.rs`): the last value of a repeat over a choice of two required
/// flags.
///
/// It takes no memory. bpaf wants values that are `Copy`; here they are cloned when they are given
/// out.
///
/// ```text
/// toggle_flag(long(alloc, "color")?, true, long(alloc, "no-color")?, false)
/// ```
pub fn toggle_flag<T: Clone + Drop>(a: NamedArg, val_a: T, b: NamedArg, val_b: T) -> ToggleFlag<T>
    ensures a { result.toggles.inner.this
        ≡ record { present = val_a; absent = None; named = a } }
    ensures b { result.toggles.inner.that
        ≡ record { present = val_b; absent = None; named = b } }
    ensures no_catch { result.toggles.catch ≡ false }
{
    ToggleFlag {
        toggles: a.req_flag(val_a).or_else(b.req_flag(val_b)).many(),
    }
}

/// The last of the values of the two keys in the order of the line. Every refusal of the repeat is
/// passed on; want of memory is refused.
impl<T: Clone + Drop> Parser<Option<T>> for ToggleFlag<T> {
    ghost can_eval = { λ p. Unit {0} };

    ghost grammar = { λ p. toggle_grammar T.is_clone p.toggles.inner.this
        p.toggles.inner.that p.toggles.catch };

    fn eval(&self, state: &mut State) -> Result<Option<T>, Error>
        ensures outcome { outcome_of (toggle_grammar T.is_clone self.now.toggles.inner.this
            self.now.toggles.inner.that self.now.toggles.catch) state.old result state.new }
        ensures last_toggle_wins { IfOk result (LastToggleWins T.is_clone
            self.now.toggles.inner.this self.now.toggles.inner.that state.old) }
    {
        match self.toggles.eval(state) {
            Ok(values) => Ok(last_of(values)),
            Err(error) => Err(error),
        }
    }

    fn meta(&self, alloc: Global) -> Result<Meta, AllocError> {
        self.toggles.meta(alloc)
    }
}

/// The last of some values.
fn last_of<T: Drop>(mut values: Vec<T>) -> Option<T>
    ensures { EndsIn values.items result }
{
    values.pop()
}
