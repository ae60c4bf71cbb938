//! The end of a program: the value that the words give, or the text that is printed in its place,
//! and the status with which the program ends.
//!
//! It stands on all crates below. For the programs above:
//!
//! - [`Program::run`] runs options over words and ends a run that gives no value: what was asked
//!   for stands on one writer, with status 0, or the line of a message on the other, with status 1
//!   (`TellsFailure`, specs/Ending.antt). A value comes with nothing written. [`run_record`] is the
//!   same for a flat record, whose answer is exact, and [`run_program`] for a program with
//!   commands.
//! - [`end`] does so with the answer of any run, and [`print`] prints the text of an answer and
//!   gives the status (`IsPrinted`). [`write_text`] writes a text of which, where a write fails, a
//!   beginning stands there and nothing behind it.
//! - Each takes a [`Sink`], of whose writes a contract can say that the last one failed (`Failed`,
//!   specs/Ending.antt). Any `Write` is one, of which nothing is known but its bytes.
//! - [`push_line`] appends a line to a text, and [`push_lines`] one for each of some texts.
//! - [`plain_command`] is a command over a parser, without a help.
//! - [`KnownOptions`] runs a parser exactly for what the program says that it is made of
//!   ([`KnownProgram`]).
//! - [`words`] are the words of the process.
//! - [`see_texts`] tells a contract that lent words are texts, as a run that is exact asks.
//!
//! ```text
//! fn main(rt: HostRuntime) -> ExitCode {
//!     let mut out = rt.stdout();
//!     let mut err = rt.stderr();
//!     match start(&rt, &mut out, &mut err) {
//!         Ok(()) => ExitCode::SUCCESS,
//!         Err(status) => ExitCode::from(status),
//!     }
//! }
//! ```
//!
//! bpaf's `OptionParser::run` prints and ends the process by itself.
#![tactic(auto)]

mod ending;
mod known_options;
mod lent;
mod lines;
mod making;
mod options;
mod process;
mod sink;
mod writing;

pub use ending::{end, print};
pub use known_options::{KnownOptions, KnownProgram};
pub use lent::see_texts;
pub use lines::{push_line, push_lines};
pub use making::plain_command;
pub use options::{Program, run_program, run_record};
pub use process::words;
pub use sink::Sink;
pub use writing::write_text;
