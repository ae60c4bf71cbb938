//! A first program: a switch, a number and words, of which it prints how many there are.
#![tactic(auto)]

use bpaf::{Args, ParseFailure, Parser, construct, key, positional};
use bpaf_program::{print, words};
use bpaf_record::CommandLine;
use std::alloc::Global;
use std::process::ExitCode;

/// The options.
#[derive(Drop)]
struct Options {
    verbose: bool,
    num: u64,
    files: Vec<String>,
}

/// Reads the options off the words; refused with a text that was asked for, or a message.
fn read_options(alloc: Global, words: &[String]) -> Result<Options, ParseFailure> {
    let verbose = key(alloc, 'v', "verbose").switch().help("Tell more");
    let num = key(alloc, 'n', "num")
        .argument::<u64>("NUM")
        .help("A number");
    let files = positional::<String>("FILE").help("Files to count").many();
    let options = construct!(Options {
        verbose,
        num,
        files
    });
    let options = options.into_options(alloc);
    options.run_program(Args::from(words).set_name("hello"))
}

/// The line that the program prints; refused as [`read_options`].
fn text_of(alloc: Global, words: &[String]) -> Result<String, ParseFailure> {
    let it = read_options(alloc, words)?;
    Ok(format!(in alloc; "{}, {}, {} files\n", it.verbose, it.num, it.files.len())?)
}

fn main(rt: HostRuntime) -> ExitCode {
    let text = words(&rt).and_then(|words| text_of(rt.alloc(), words.as_slice()));
    ExitCode::from(print(text, &mut rt.stdout(), &mut rt.stderr()))
}

#[cfg(test)]
mod tests;
