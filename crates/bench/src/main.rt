//! A bench of command lines: parsers described as data, and lines with what they are to answer.
//!
//! ```text
//! bench [--all] [--beginnings=N] [FILE]...
//! ```
//!
//! It runs files of descriptions, variables of the environment and rows by `bench_rows`. With
//! `--beginnings` it also runs the first N beginnings of each row's words. Its own options are read
//! by `bpaf`.
//!
//! A described parser is a lawful one, so what the bench answers is dealt out of the words as for
//! any parser.
#![tactic(auto)]

mod options;

use bench_rows::{Options, SixLevels, run_bench};
use bpaf::ParseFailure;
use bpaf_program::{end, words};
use options::read_options;
use std::process::ExitCode;

fn main(rt: HostRuntime) -> ExitCode {
    let mut out = rt.stdout();
    let mut err = rt.stderr();
    match end(asked(&rt), &mut out, &mut err) {
        Ok(options) => ExitCode::from(status_of(&rt, &options)),
        Err(0) => ExitCode::SUCCESS,
        Err(_) => ExitCode::from(2),
    }
}

/// The status of a run over the files; 2, and why on standard error, where it could not go on.
fn status_of(rt: &HostRuntime, options: &Options) -> u8 {
    match run_bench::<SixLevels>(rt, options) {
        Ok(status) => status,
        Err(error) => {
            drop(eprintln!(rt; "Error: {error}"));
            2
        }
    }
}

/// The options that the process is called with.
fn asked(rt: &HostRuntime) -> Result<Options, ParseFailure> {
    let words = words(rt)?;
    read_options(rt.alloc(), words.as_slice())
}
