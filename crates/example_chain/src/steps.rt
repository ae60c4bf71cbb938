//! The steps of a chain, as adjacent commands.
ghost use Rattle.std.specs.Prelude.{◌≡◌, ◌≤◌, length, IfOk, None, map, string_bytes, true};
ghost use Rattle.std.specs.Result.{IfErr};
ghost use Rattle.bpaf_program.specs.OfCommands.{IfShown, IsKnownParser, named_only};
ghost use Rattle.example_chain.specs.Running.{AreDealtSteps, described, IsHelpAsked};
ghost use Rattle.example_chain.specs.Running.{go_parser, repeat_parser, turn_parser};

use bpaf::params::{ParseFlag, ParsePositional};
use bpaf::parsers::ParseCommand;
use bpaf::{Args, ParseFailure, ParseTuple2, Parser, construct, long_key, positional};
use std::alloc::{AllocError, Global};

/// One step.
#[derive(Drop)]
pub enum Step {
    /// So far to the right, and so far up.
    Move { dx: i64, dy: i64 },
    /// A turn by so many degrees, to the left or to the right.
    Turn { left: bool, degrees: u64 },
    /// All that is before it, so many times.
    Repeat { times: u64 },
}

type Integer = ParsePositional<i64>;

type Number = ParsePositional<u64>;

type Go = ParseCommand<(i64, i64), ParseTuple2<i64, i64, Integer, Integer>>;

type Turn = ParseCommand<(bool, u64), ParseTuple2<bool, u64, ParseFlag<bool>, Number>>;

type Repeat = ParseCommand<u64, Number>;

/// `move DX DY`; refused only for want of memory.
fn go(alloc: Global) -> Result<Go, AllocError>
    ensures { IfOk result (λ command. IsKnownParser go_parser
        (⟦<Go as Parser<(i64, i64)>>⟧.grammar command)) }
{
    let dx = positional::<i64>("DX").help("How far to the right");
    let dy = positional::<i64>("DY").help("How far up");
    let command = chained(alloc, "move", "Moves by so far", construct!(dx, dy))?;
    Ok(command)
}

/// `turn [--left] DEGREES`; refused only for want of memory.
fn turn(alloc: Global) -> Result<Turn, AllocError>
    ensures { IfOk result (λ command. IsKnownParser turn_parser
        (⟦<Turn as Parser<(bool, u64)>>⟧.grammar command)) }
{
    let left = long_key(alloc, "left").switch().help("To the left");
    let degrees = positional::<u64>("DEGREES").help("How far to turn");
    let parser = construct!(left, degrees);
    let command = chained(alloc, "turn", "Turns where it stands", parser)?;
    Ok(command)
}

/// `repeat N`; refused only for want of memory.
fn repeat(alloc: Global) -> Result<Repeat, AllocError>
    ensures { IfOk result (λ command. IsKnownParser repeat_parser
        (⟦<Repeat as Parser<u64>>⟧.grammar command)) }
{
    let times = positional::<u64>("N").help("How many times");
    let command = chained(alloc, "repeat", "Repeats all before it", times)?;
    Ok(command)
}

/// The steps that the words ask for, in order; refused where they ask for none, or for want of
/// memory. Help is answered as a refusal that shows it, and only where the words ask for it.
pub fn read_steps(alloc: Global, words: &[String]) -> Result<Vec<Step>, ParseFailure>
    ensures dealt { IfOk result (λ steps. AreDealtSteps (map string_bytes words.now) steps) }
    ensures asked { IfErr result (IfShown (IsHelpAsked (map string_bytes words.now))) }
{
    let go = go(alloc)?;
    let turn = turn(alloc)?;
    let repeat = repeat(alloc)?;
    let go = go.map(|(dx, dy)| Step::Move { dx, dy });
    let turn = turn.map(|(left, degrees)| Step::Turn { left, degrees });
    let repeat = repeat.map(|times| Step::Repeat { times });
    let steps = construct!([go, turn, repeat]).many().into_options(alloc);
    steps.run_once(Args::from(words).set_name("chain"))
}

/// The adjacent command of this name and description over a parser; refused only for want of
/// memory.
fn chained<T: Drop, P: Parser<T> + Drop>(
    alloc: Global,
    name: &str,
    descr: &str,
    parser: P,
) -> Result<ParseCommand<T, P>, AllocError>
    requires { length name.now ≤ 23 }
    ensures inner { IfOk result (λ command. command.inner ≡ parser) }
    ensures names { IfOk result (λ command. command.names ≡ named_only name.now) }
    ensures adjacent { IfOk result (λ command. command.adjacent ≡ true) }
    ensures help { IfOk result (λ command. command.help ≡ None) }
    ensures info { IfOk result (λ command. command.info ≡ described descr.now) }
{
    let options = parser.into_options(alloc).descr_str(descr)?;
    Ok(options.into_command(name).adjacent())
}
