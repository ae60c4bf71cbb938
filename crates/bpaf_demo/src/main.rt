//! A program over a record of options: a switch, a number, of which the last one counts, and any
//! number of files.
//!
//! It stands on `example_demo`, whose `run` is all of it over two writers, and `bpaf_program`:
//! `main` hands that the words, standard output and standard error, and ends with its status.
//!
//! ```text
//! bpaf_demo -v -n 3      verbose: true, num: 3, a line each, status 0
//! bpaf_demo --num=3      verbose: false, num: 3
//! bpaf_demo -n 3 -n 4    verbose: false, num: 4
//! bpaf_demo -n 3 a b     verbose: false, num: 3, file: a, file: b
//! bpaf_demo --help       the help page, status 0
//! bpaf_demo -n           Error: `-n` requires an argument `NUM`, on standard error, status 1
//! ```
#![tactic(auto)]

use bpaf_program::{end, words};
use example_demo::run;
use std::process::ExitCode;

fn main(rt: HostRuntime) -> ExitCode {
    let mut out = rt.stdout();
    let mut err = rt.stderr();
    let status = match end(words(&rt), &mut out, &mut err) {
        Ok(words) => run(rt.alloc(), words.as_slice(), &mut out, &mut err),
        Err(status) => status,
    };
    ExitCode::from(status)
}
