//! Parsers that hold a closure, each made and run in one body.
use bpaf::{Args, ParseFailure, Parser, construct, pure, short_key};
use std::alloc::Global;

/// A switch, a small number and a constant, where the words give them.
pub fn limited(alloc: Global, words: &[String]) -> Result<(bool, u64, char), ParseFailure> {
    let verbose = short_key(alloc, 'v').switch();
    let num = short_key(alloc, 'n').argument::<u64>("NUM");
    let num = num.guard(|n| *n < 10, "below 10");
    let mark = pure('+');
    construct!(verbose, num, mark).run_once(alloc, Args::from(words))
}

/// A number that is checked in a closure, and has a default.
pub fn checked(alloc: Global, words: &[String]) -> Result<u64, ParseFailure> {
    let num = short_key(alloc, 'n').argument::<u64>("NUM");
    let num = num.parse(|n| if n < 10 { Ok(n) } else { Err("too big") });
    num.fallback(7).run_once(alloc, Args::from(words))
}

/// What any parser reads of the words.
pub fn value_of<T: Drop, P: Parser<T> + Drop>(
    alloc: Global,
    parser: P,
    words: &[&str],
) -> Result<T, ParseFailure>
    requires { P.can_eval parser }
{
    parser.run_once(alloc, Args::from(words))
}
