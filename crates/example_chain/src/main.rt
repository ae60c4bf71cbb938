//! A program of chained commands: moves, turns and repeats, in the order in which they are typed.
//!
//! It stands on `bpaf` and `bpaf_program`, and has no contract above: it is the top. `run` is the
//! whole program over two writers; `main` hands it the words, standard output and standard error,
//! and ends with its status. It moves nothing: it prints each step.
//!
//! ```text
//! chain [move DX DY | turn [--left] DEGREES | repeat N]...
//!
//! chain move 1 2 turn --left 90 repeat 3    move 1 2, turn left 90, repeat 3, a line each
//! chain turn 90 --left                      turn left 90
//! chain                                     nothing, status 0
//! chain --help, chain move --help           the help page, of the program or of a command
//! chain move 1                              Error: expected `DY`, pass `--help` for usage
//!                                           information, on standard error, status 1
//! chain move -1 2                           a refusal as well: `-1` is a key
//! ```
//!
//! Each command is adjacent: it reads the words behind its name without a gap, and leaves what
//! follows to the next one.
//!
//! What is proved of it: where the writers tell their bytes, status 0 comes only where exactly the
//! lines of steps were written that are dealt out of the words, each step read off one stretch of
//! them (specs/Running.antt); or where exactly a help page was written that the
//! words ask for: that of the program, or that of a command, the key of help behind the command's
//! name (specs/Running.antt). Where the status is 1, a write failed, the last
//! one, and a beginning of such a text was written, not all, and nothing on standard error; or
//! nothing was, and there the line of a message, whole unless a write failed.
#![tactic(auto)]

mod print;
mod run;
mod steps;

use bpaf_program::{end, words};
use run::run;
use std::process::ExitCode;

fn main(rt: HostRuntime) -> ExitCode {
    let mut out = rt.stdout();
    let mut err = rt.stderr();
    let status = match end(words(&rt), &mut out, &mut err) {
        Ok(words) => run(rt.alloc(), words.as_slice(), &mut out, &mut err),
        Err(status) => status,
    };
    ExitCode::from(status)
}
