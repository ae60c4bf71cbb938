//! What is so of every parser, by its grammar: contracts of functions that add nothing.
ghost use Rattle.std.specs.{Prelude.IfOk, Result.IfErr};
ghost use Rattle.bpaf_laws.specs.Laws.{CountFalls, Keeps, Reads};
ghost use Rattle.bpaf_grammar.specs.Grammar.{outcome_of, reads_of};
ghost use Rattle.bpaf_grammar.specs.Promises.{CommandLeavesNothing, CommandNamesItsOwn};
ghost use Rattle.bpaf_grammar.specs.Promises.{DefaultsTakeNothing, KeyIsFirst, LeftmostIsAnswered};
ghost use Rattle.bpaf_grammar.specs.Promises.{MemoryIsNeverCaught, RepeatIsBounded};
ghost use Rattle.bpaf_grammar.specs.Promises.{TakesOneStretch};

use bpaf_core::Parser;
use bpaf_line::{Error, State};

/// Evaluates a parser, whatever its type: this is [`Parser::eval`], with all that is so of an
/// answer.
///
/// Beside the outcome that its grammar allows, a value is read off the places that were newly taken
/// (clause `reads`), a refusal keeps what was taken, the scope and the marks (`keeps`), and want of
/// memory is caught nowhere and told as nothing else (`memory_is_never_caught`), but inside a
/// parser of a caller's own whose `spared` says less. By the kind of the
/// parser more is so: a repeat is bounded (`repeat_is_bounded`), a default and None take nothing
/// (`default_takes_nothing`), of two values of a choice the leftmost wins (`leftmost_wins`), a key
/// comes before its variables (`key_before_environment`), a command leaves nothing in its scope
/// (`command_leaves_nothing`) and hands on failures of its own run alone (`named_inside`), and an
/// adjacent command or group takes one stretch (`takes_one_stretch`).
pub fn evaluate<T, P: Parser<T>>(parser: &P, state: &mut State) -> Result<T, Error>
    requires { P.can_eval parser.now }
    ensures outcome { outcome_of (P.grammar parser.now) state.old result state.new }
    ensures reads { IfOk result (λ v.
        Reads T (reads_of (P.grammar parser.now)) state.old v state.new) }
    ensures keeps { IfErr result (λ error. Keeps state.old state.new) }
    ensures memory_is_never_caught { MemoryIsNeverCaught (P.grammar parser.now)
        state.old result state.new }
    ensures repeat_is_bounded { RepeatIsBounded (P.grammar parser.now) state.old result state.new }
    ensures default_takes_nothing { DefaultsTakeNothing (P.grammar parser.now)
        state.old result state.new }
    ensures leftmost_wins { LeftmostIsAnswered (P.grammar parser.now) state.old result state.new }
    ensures key_before_environment { KeyIsFirst (P.grammar parser.now) state.old result state.new }
    ensures command_leaves_nothing { CommandLeavesNothing (P.grammar parser.now)
        state.old result state.new }
    ensures takes_one_stretch { TakesOneStretch (P.grammar parser.now)
        state.old result state.new }
    ensures named_inside { CommandNamesItsOwn (P.grammar parser.now) state.old result state.new }
{
    parser.eval(state)
}

/// Whatever a parser's type: after an Ok the count of present items has fallen by the number of
/// newly taken places.
pub fn count_falls<T, P: Parser<T>>(parser: &P)
    ensures { CountFalls (outcome_of (P.grammar parser.now)) }
{
    let _ = parser;
}
