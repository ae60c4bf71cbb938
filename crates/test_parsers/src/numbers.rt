//! Negative numbers as words, by the setting of the parser that runs.
use bpaf::params::ParseArgument;
use bpaf::{Args, OptionParser, Parser, positional, short};
use std::alloc::{AllocError, Global};
use std::test::Fail;
use test_support::prints;

/// The value of options by which negative numbers are words; none where the words are refused.
fn by_numbers<T: Drop, P: Parser<T> + Drop>(
    options: OptionParser<T, P>,
    words: &[&str],
) -> Result<Option<T>, AllocError>
    requires { P.can_eval options.inner }
{
    Ok(options.numbers_as_words().run_once(Args::from(words)).ok())
}

/// Any number of signed numbers.
fn integers(alloc: Global, words: &[&str]) -> Result<Option<Vec<i64>>, AllocError> {
    by_numbers(positional::<i64>("X").many().to_options(alloc)?, words)
}

#[test]
fn negative_numbers_are_words(rt: HostRuntime) -> Result<(), Fail> {
    let a = rt.alloc();
    // negative_numbers_are_words
    prints(a, integers(a, &["-1", "-22", "3"]), "Some([-1, -22, 3])")?;
    // negative numbers behind the marker, and words that are none
    prints(a, integers(a, &["-1", "--", "-22"]), "Some([-1, -22])")?;
    prints(a, integers(a, &["-1="]), "None")?;
    prints(a, integers(a, &["-1a"]), "None")
}

/// A signed number behind `-n`.
fn integer(alloc: Global) -> Result<ParseArgument<i64>, AllocError> {
    Ok(short(alloc, 'n')?.argument("NUM"))
}

/// The command `a` over that, by whose own setting negative numbers are words.
fn by_inner(alloc: Global, words: &[&str]) -> Result<Option<i64>, AllocError> {
    let inner = integer(alloc)?.to_options(alloc)?.numbers_as_words();
    let command = inner.command("a")?;
    Ok(command.run_once(alloc, Args::from(words)).ok())
}

/// The same command without a setting of its own, in a parser with it.
fn by_outer(alloc: Global, words: &[&str]) -> Result<Option<i64>, AllocError> {
    let inner = integer(alloc)?.to_options(alloc)?;
    by_numbers(inner.command("a")?.to_options(alloc)?, words)
}

#[test]
fn setting_of_the_outermost_parser_counts(rt: HostRuntime) -> Result<(), Fail> {
    let a = rt.alloc();
    // setting_of_a_command_has_no_effect
    prints(a, by_inner(a, &["a", "-n", "-5"]), "None")?;
    // other settings and spellings
    prints(a, by_inner(a, &["a", "-n=-5"]), "Some(-5)")?;
    prints(a, by_outer(a, &["a", "-n", "-5"]), "Some(-5)")
}
