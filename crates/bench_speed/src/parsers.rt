//! The parsers whose cost is counted.
use bpaf::{Args, ParseFailure, Parser, construct, key, positional, short_key};
use std::alloc::Global;

/// A record of options, as most programs have one.
#[derive(Drop)]
pub struct Options {
    pub verbose: bool,
    pub num: u64,
    pub files: Vec<String>,
}

/// The number of a record of options and how many files it has.
pub fn record(alloc: Global, line: &[String]) -> Result<u64, ParseFailure> {
    let verbose = key(alloc, 'v', "verbose").switch();
    let num = key(alloc, 'n', "num").argument::<u64>("NUM");
    let files = positional::<String>("FILE").help("Files to read").many();
    let options = construct!(Options {
        verbose,
        num,
        files
    });
    let made = options.run_once(alloc, Args::from(line).set_name("bpaf_demo"))?;
    Ok(made.num.wrapping_add(made.files.len() as u64))
}

/// How many of two flags there are.
pub fn flags(alloc: Global, line: &[String]) -> Result<u64, ParseFailure> {
    let a = short_key(alloc, 'a').req_flag(1u8);
    let b = short_key(alloc, 'b').req_flag(2u8);
    let flags = construct!([a, b]).many();
    Ok(flags.run_once(alloc, Args::from(line))?.len() as u64)
}

/// How many switches there are.
pub fn switches(alloc: Global, line: &[String]) -> Result<u64, ParseFailure> {
    let switches = short_key(alloc, 'v').switch().many();
    Ok(switches.run_once(alloc, Args::from(line))?.len() as u64)
}

/// How many numbers there are.
pub fn numbers(alloc: Global, line: &[String]) -> Result<u64, ParseFailure> {
    let number = short_key(alloc, 'n').argument::<u64>("NUM");
    Ok(number.many().run_once(alloc, Args::from(line))?.len() as u64)
}

/// The last of all numbers.
pub fn last_number(alloc: Global, line: &[String]) -> Result<u64, ParseFailure> {
    let number = short_key(alloc, 'n').argument::<u64>("NUM");
    number.take_last().run_once(alloc, Args::from(line))
}
