//! A parser of one's own.
use bpaf::{Args, Error, Meta, NamedArg, ParseFailure, Parser, State, long_key};
use std::alloc::{AllocError, Global};

/// Two keys, such as `--color` and `--no-color`: Some(true) for the one, Some(false) for the other,
/// None where neither is there.
#[derive(Drop)]
pub struct Toggle {
    /// The key that turns it on.
    pub on: NamedArg,
    /// The key that turns it off.
    pub off: NamedArg,
}

/// The first key that turns it on counts, else the first that turns it off. It refuses nothing and
/// shows nothing, so its keys have long names alone: short ones of joined words are known by what
/// is shown.
impl Parser<Option<bool>> for Toggle {
    ghost use Rattle.bpaf.specs.Grammar.{own};
    ghost use Rattle.example_guide.specs.Toggle.{toggle};

    ghost can_eval = { λ p. Unit {0} };

    ghost grammar = { λ p. own (toggle p.on.names p.off.names) };

    fn eval(&self, state: &mut State) -> Result<Option<bool>, Error> {
        if state.take_flag(self.on.shorts(), self.on.longs()) {
            return Ok(Some(true));
        }
        if state.take_flag(self.off.shorts(), self.off.longs()) {
            return Ok(Some(false));
        }
        Ok(None)
    }

    fn meta(&self, _alloc: Global) -> Result<Meta, AllocError> {
        Ok(Meta::Skip)
    }
}

/// Whether the words turn the colour on or off, by `--color` and `--no-color`.
pub fn read_color(alloc: Global, words: &[&str]) -> Result<Option<bool>, ParseFailure> {
    let color = Toggle {
        on: long_key(alloc, "color"),
        off: long_key(alloc, "no-color"),
    };
    color.run_once(alloc, Args::from(words).set_name("color"))
}
