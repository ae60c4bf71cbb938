//! What the program `bpaf_demo` does: it reads options off its words and prints them.
//!
//! It stands on `bpaf`, `bpaf_record` and `bpaf_program`. `run` is the whole program over two
//! writers, for its `main` and for tests.
//!
//! What is proved of it, from the words to the bytes, where the writers tell these:
//!
//! - The record's value on words is told by the record alone (`IsOptionsOf`, specs/Running.antt):
//!   the words' line is cut into pieces, the switch and the number have those that begin with their
//!   names, and the files have the words. All values on the same words print the same lines.
//! - An answer to words is exact (`AnswersOptionsExactly`): options come only where they are the
//!   record's value on the words, and where it has one there, one is answered, or want of memory.
//! - Status 0 comes only with nothing written on the error writer, and on the other exactly the
//!   lines of the record's value on the words, or where it has none exactly the help page that the
//!   words ask for (`Answers`).
//! - Where the record has a value on the words, its lines are written and the status is 0; or a
//!   write failed, the last one, and a beginning of them stands there, not all; or memory was
//!   wanted, nothing stands there, and on the error writer `Error: out of memory`, whole unless a
//!   write failed (`PrintsExactly`). No other message is told there.
//! - The value that is printed is dealt out of the words, each place of their line used once
//!   (specs/Running.antt).
#![tactic(auto)]

mod options;
mod print;
mod running;

pub use options::{Options, read_options};
pub use running::run;
