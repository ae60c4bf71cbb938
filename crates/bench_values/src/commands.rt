//! A described command, made anew for each evaluation.
ghost use Rattle.bpaf_grammar.specs.Grammar.{outcome_of, describes_of};
ghost use Rattle.std.specs.Prelude.{IfOk, None};
ghost use Rattle.bpaf_doc.specs.Shape.{shape_of};
ghost use Rattle.bpaf_laws.specs.Command.{CommandDescribes};
ghost use Rattle.bench_values.specs.Modifiers.{called_grammar};

use crate::lent::Lent;
use crate::value::Value;
use bpaf_core::{CommandNames, Info, ParseCommand, Parser};
use bpaf_doc::Meta;
use bpaf_line::{Error, State};
use std::alloc::{AllocError, Global};
use std::marker::PhantomData;

/// The value of a parser that runs behind a command of these names.
pub fn called<P: Parser<Value>>(
    names: &CommandNames,
    adjacent: bool,
    inner: &P,
    state: &mut State,
) -> Result<Value, Error>
    requires { P.can_eval inner.now }
    ensures { outcome_of (called_grammar adjacent names.now (P.grammar inner.now))
        state.old result state.new }
{
    let names = names.copy()?;
    let parser: ParseCommand<Value, Lent<'_, P>> = ParseCommand {
        names,
        help: None,
        inner: Lent { inner },
        info: Info::new(),
        alloc: state.alloc(),
        adjacent,
        of: PhantomData,
    };
    parser.eval(state)
}

/// What such a command shows.
pub fn called_meta<P: Parser<Value>>(
    names: &CommandNames,
    inner: &P,
    alloc: Global,
) -> Result<Meta, AllocError>
    requires { P.can_eval inner.now }
    ensures { IfOk result (λ meta.
        CommandDescribes names.now None (describes_of (P.grammar inner.now)) (shape_of meta)) }
{
    let names = names.copy()?;
    let parser: ParseCommand<Value, Lent<'_, P>> = ParseCommand {
        names,
        help: None,
        inner: Lent { inner },
        info: Info::new(),
        alloc,
        adjacent: false,
        of: PhantomData,
    };
    <ParseCommand<Value, Lent<'_, P>> as Parser<Value>>::meta(&parser, alloc)
}
