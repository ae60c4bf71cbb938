//! A program with commands: a switch and an argument that stand anywhere, and three commands, one
//! of which has two of its own.
//!
//! It stands on `bpaf` and `bpaf_program`, and has no contract for a layer above: it
//! is the top. `run` is the whole program over two writers; `main` hands it the words, standard
//! output and standard error, and ends with its status. It keeps no notes: it prints what it would
//! do.
//!
//! ```text
//! notes [-v] [-d=DIR] COMMAND ...
//!
//! notes add -t home buy    verbose: false, add, tag: home, text: buy, a line each, status 0
//! notes list -v -d old     verbose: true, dir: old, list: 10
//! notes tag remove home    verbose: false, tag remove: home
//! notes --help             the help page, status 0; notes list --help that of the command
//! notes tag                Error: expected `COMMAND ...`, pass `--help` for usage information, on
//!                          standard error, status 1
//! ```
//!
//! What is proved of it, from the words to the bytes, where the writers tell these:
//!
//! - Its values on words are told by the program alone (`IsNotesOf`, specs/Notes.antt): the switch
//!   and the argument have the pieces of the words' line that begin with their names, wherever they
//!   stand; the first thing left opens a command, and what is left behind it is read by that.
//! - An answer to words is exact (`AnswersNotes`): notes come only where they are a value of the
//!   program on the words, and where it has one there, one is answered, or want of memory.
//! - Status 0 comes only with nothing written on the error writer, and on the other exactly the
//!   lines of such a value (specs/Notes.antt) or a help page; status 1 only where a write failed,
//!   the last one, with part of such a text, or with the line of a message on the error writer,
//!   whole unless a write failed.
//! - Where the program has a value on the words, its lines are written and the status is 0; or a
//!   write failed, and a beginning of them stands there, not all; or memory was wanted, nothing
//!   stands there, and on the error writer `Error: out of memory`, whole unless a write failed
//!   (`run`, clause `exact`). All values on the same words have the same lines. No other message
//!   is told there, and no page is shown.
#![tactic(auto)]

mod options;
mod print;
mod run;

use bpaf_program::{end, words};
use run::run;
use std::process::ExitCode;

fn main(rt: HostRuntime) -> ExitCode {
    let mut out = rt.stdout();
    let mut err = rt.stderr();
    let status = match end(words(&rt), &mut out, &mut err) {
        Ok(words) => run(rt.alloc(), words.as_slice(), &mut out, &mut err),
        Err(status) => status,
    };
    ExitCode::from(status)
}
