//! A launcher: options of its own, the name of a program, and words that are passed on unread.
//!
//! It stands on `bpaf`, `bpaf_record` and `bpaf_program`, and has no contract for a layer above: it
//! is the top. `run` is the whole program over two writers; `main` hands it the words, standard
//! output and standard error, and ends with its status. It starts nothing: it prints what it would
//! start, with which words.
//!
//! ```text
//! launch [-v|--verbose] [--dry-run] NAME [-- WORD...]
//!
//! launch -v ls -- -l -- x    verbose: true, dry run: false, name: ls, word: -l, word: --, word: x,
//!                            a line each, status 0
//! launch ls --dry-run        verbose: false, dry run: true, name: ls
//! launch --help              the help page, status 0
//! launch ls -l               Error: `-l` is not expected in this context, on standard error,
//!                            status 1
//! launch ls x                Error: expected `WORD` to be on the right side of `--`, likewise
//! ```
//!
//! What is proved of it: where the writers tell their bytes, status 0 comes only where the launch
//! that was printed is dealt out of the words, its name stands before the first `--`, and its words
//! are all words behind that, in order, byte for byte (specs/Running.antt); or where the words ask
//! for help and its page was printed (specs/Running.antt). Where the status is 1, a write failed,
//! the last one, and a beginning of the lines of such a launch or of that page was printed, not
//! all, and nothing on standard error; or nothing was, and there the line of a message, whole
//! unless a write failed. It runs as a program with words on one side of `--`, exactly: where the
//! words have a launch (specs/Running.antt), its lines are printed, or a part of them where a write
//! failed, or nothing but that memory was wanted; and all launches that the same words have print
//! the same lines.
#![tactic(auto)]

mod options;
mod print;
mod run;

use bpaf_program::{end, words};
use run::run;
use std::process::ExitCode;

fn main(rt: HostRuntime) -> ExitCode {
    let mut out = rt.stdout();
    let mut err = rt.stderr();
    let status = match end(words(&rt), &mut out, &mut err) {
        Ok(words) => run(rt.alloc(), words.as_slice(), &mut out, &mut err),
        Err(status) => status,
    };
    ExitCode::from(status)
}
