//! What tests need: comparisons, answers of parsers, runs of a program, and a writer that can be
//! made to fail.
//!
//! It stands on `bpaf_core` and what is below, and no library or program stands on it but for
//! tests. It has no contract but that each call returns: what it tells is compared by tests.
//!
//! - [`reads`] compares a text with the wanted one, and [`prints`] what Rust's Debug prints.
//! - [`answers`] tells what a parser answers to lines of words, and [`value`] the value of one. The
//!   parsers here, switches and numbers, are those that most rows are of.
//! - [`walk`] runs a parser on the rows of a table, and on each beginning of their words.
//! - A program gives its `run` by [`Tried`]; then [`ran`] tells what stands on its two writers, and
//!   [`ran_failing`] what does where one of their calls fails.
//! - A [`Narrow`] takes little at a time, and fails where it is told to.
//!
//! ```text
//! struct Program;
//!
//! impl Tried for Program {
//!     fn run<W: Write, E: Write>(
//!         &self,
//!         alloc: Global,
//!         words: &[String],
//!         out: &mut W,
//!         err: &mut E,
//!     ) -> u8 {
//!         run(alloc, words, out, err)
//!     }
//! }
//!
//! ran(alloc, &Program, "-v -n 3")?.is_text("verbose: true\nnum: 3\n")
//! ```
#![tactic(auto)]

mod compared;
mod narrow;
mod outcome;
mod parsers;
mod table;

pub use compared::{prints, reads};
pub use narrow::Narrow;
pub use outcome::{Tried, Written, ran, ran_failing};
pub use parsers::{answers, answers_of, num, number, switch, value, verbose};
pub use table::{Row, cut, fits, rows_of, walk, walk_of};
