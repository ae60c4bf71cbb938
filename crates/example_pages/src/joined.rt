//! Records and choices, each made and run in one body.
use crate::first::{number, verbose};
use bpaf::params::ParseFlag;
use bpaf::parsers::ParseChoice;
use bpaf::{Args, ParseFailure, Parser, choice, construct, long_key};
use std::alloc::{AllocError, Global};

/// A record of two fields.
#[derive(Debug, Drop)]
pub struct Options {
    pub verbose: bool,
    pub num: u64,
}

/// The same with numbered fields.
#[derive(Debug, Drop)]
pub struct Numbered(pub bool, pub u64);

/// A record without fields.
#[derive(Clone, Debug, Drop)]
pub struct Nothing {}

/// A tuple.
pub fn tuple(alloc: Global, words: &[&str]) -> Result<(bool, u64), ParseFailure> {
    let (verbose, num) = (verbose(alloc), number(alloc));
    let pair = construct!(verbose, num);
    pair.run_once(alloc, Args::from(words))
}

/// A struct.
pub fn record(alloc: Global, words: &[&str]) -> Result<Options, ParseFailure> {
    let (verbose, num) = (verbose(alloc), number(alloc));
    let options = construct!(Options { verbose, num });
    options.run_once(alloc, Args::from(words))
}

/// A struct with numbered fields.
pub fn by_number(alloc: Global, words: &[&str]) -> Result<Numbered, ParseFailure> {
    let (verbose, num) = (verbose(alloc), number(alloc));
    let options = construct!(Numbered(verbose, num));
    options.run_once(alloc, Args::from(words))
}

/// A struct with a field that an expression makes.
pub fn made(alloc: Global, words: &[&str]) -> Result<Options, ParseFailure> {
    let num = number(alloc);
    let options = construct!(Options { verbose(verbose(alloc)), num });
    options.run_once(alloc, Args::from(words))
}

/// A parser by itself.
pub fn alone(alloc: Global, words: &[&str]) -> Result<bool, ParseFailure> {
    let verbose = verbose(alloc);
    let same = construct!(verbose);
    same.run_once(alloc, Args::from(words))
}

/// A struct without fields.
pub fn without_fields(alloc: Global, words: &[&str]) -> Result<Nothing, ParseFailure> {
    let nothing = construct!(Nothing {});
    nothing.run_once(alloc, Args::from(words))
}

/// One of two lengths.
pub fn length(alloc: Global, words: &[&str]) -> Result<u64, ParseFailure> {
    let meters = long_key(alloc, "meters").argument::<u64>("NUM");
    let length = construct!([meters, miles(number(alloc))]);
    length.run_once(alloc, Args::from(words))
}

/// One of any number of colours.
pub fn colour(alloc: Global, words: &[&str]) -> Result<char, ParseFailure> {
    either(alloc)?.run_once(alloc, Args::from(words))
}

/// `--red` or `--blue`.
fn either(alloc: Global) -> Result<ParseChoice<ParseFlag<char>>, AllocError> {
    let red = long_key(alloc, "red").req_flag('r');
    let blue = long_key(alloc, "blue").req_flag('b');
    Ok(choice(vec![in alloc; red, blue]?))
}
