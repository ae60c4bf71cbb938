//! A first record, and a run of it over two writers.
use bpaf::params::{ParseArgument, ParseFlag};
use bpaf::{Args, OptionParser, ParseFailure, Parser, construct, key, positional, short_key};
use bpaf_program::{Program, Sink};
use std::alloc::Global;

/// A switch, a number and words.
#[derive(Debug, Drop)]
pub struct Options {
    pub verbose: bool,
    pub num: u64,
    pub files: Vec<String>,
}

/// The record that the words tell.
pub fn read_options(alloc: Global, words: &[&str]) -> Result<Options, ParseFailure> {
    let verbose = key(alloc, 'v', "verbose").switch();
    let num = key(alloc, 'n', "num").argument::<u64>("NUM");
    let files = positional::<String>("FILE").many();
    construct!(Options {
        verbose,
        num,
        files
    })
    .run_once(alloc, Args::from(words))
}

/// The same with a text of the help page, which is set of the options.
pub fn read_described(alloc: Global, words: &[&str]) -> Result<bool, ParseFailure> {
    let record = verbose(alloc);
    record
        .into_options(alloc)
        .descr_str("Tells more")?
        .run_once(Args::from(words))
}

/// What any options give of words, over two writers; or the status with which the program is to
/// end.
pub fn run_over<T: Drop, P: Parser<T>, S: Sink, E: Sink>(
    options: &OptionParser<T, P>,
    words: &[&str],
    out: &mut S,
    err: &mut E,
) -> Result<T, u8>
    requires { P.can_eval options.now.inner }
{
    let options = options.run(Args::from(words), out, err)?;
    Ok(options)
}

/// `-v`: true or false.
pub fn verbose(alloc: Global) -> ParseFlag<bool> {
    short_key(alloc, 'v').switch()
}

/// `-n 3`.
pub fn number(alloc: Global) -> ParseArgument<u64> {
    short_key(alloc, 'n').argument::<u64>("NUM")
}
