//! The usage text of a parser, without a run.
ghost use Rattle.std.specs.Prelude.{IfOk, option_map, string_bytes};
ghost use Rattle.bpaf_grammar.specs.Words.{Answers};
ghost use Rattle.bpaf_batteries.specs.Usage.{TellsText, TellsUsage, help_asked};

use bpaf::{Args, OptionParser, ParseFailure, Parser};
use std::alloc::AllocError;

/// The text that a parser shows where help is asked for by `--help`, None where that gives a value
/// or a message (bpaf's `get_usage`, in `batteries.rs`, which panics in place of None).
///
/// Refused only for want of memory.
///
/// ```text
/// get_usage(num.to_options(alloc)?)?
/// ```
pub fn get_usage<T: Drop, P: Parser<T> + Drop>(
    options: OptionParser<T, P>,
) -> Result<Option<String>, AllocError>
    requires { P.can_eval options.inner }
    ensures { TellsUsage (Answers (P.grammar options.inner) options.info help_asked) result }
{
    let words = ["--help"];
    match options.run_once(Args::from(&words)) {
        Ok(value) => {
            drop(value);
            Ok(None)
        }
        Err(failure) => text_of(failure),
    }
}

/// The text that a run without a value shows on standard output, None where that is a message;
/// refused only for want of memory.
fn text_of(failure: ParseFailure) -> Result<Option<String>, AllocError>
    ensures { IfOk result (λ text. TellsText failure (option_map string_bytes text)) }
{
    match failure {
        ParseFailure::Memory => Err(AllocError),
        other => other.unwrap_stdout(),
    }
}
