//! A bench of command lines: parsers described as data, and rows of words with what they are to
//! answer.
//!
//! It stands on `bpaf` and `bench_values`, and hands on tokens and values of the latter: a
//! description is a list of tokens ([`Description`]); docs/BENCH.md says how it and rows are
//! written. [`read_parser`] makes a parser of it, and [`read_options`] the run of one.
//!
//! Parsers:
//!
//! - A [`Leaf`] is one option, one word or a constant. It answers as the parser of `bpaf` does that
//!   its token names; [`OneText`] looks for one text among the items (specs/Levels.antt).
//! - A [`Level`] is a parser that is made of others, known only as [`Described`]. It holds these
//!   once, beside a [`Kind`], and makes the parser of that kind over lent ones at each evaluation.
//!   So a level more costs a proof nothing. Its outcome is the one of the `bpaf` parser that its
//!   kind names (specs/Levels.antt, and those of `bench_values`).
//! - [`SixLevels`], levels over levels over a leaf, are enough for the combinations of this
//!   repository's rows.
//!
//! Rows: [`run_bench`] reads files, runs the words of each row on the parser of the description
//! above it, prints each row whose answer isn't the wanted one, and answers a status. It knows of
//! no parser but that it is [`Described`], and holds the description that stands and one line.
//!
//! For the layer above: [`Leaf`] and [`Level`] are lawful parsers, each from its inner parsers'
//! laws alone, and meet the tables of the combinators that they name, but for what the checks of
//! `guard` and `parse` answer and for the texts of faults, of which nothing is said. So is any type
//! that is [`Described`], which may always be evaluated: what it answers is dealt out of the words
//! as for any parser. That the rows of a file are run as they stand there is tested, by the files
//! of `bench`.
#![tactic(auto)]

mod answer;
mod bench;
mod groups;
mod leaf;
mod level;
mod names;
mod one_text;
mod options;
mod reading;
mod run;
mod several;
mod words;

pub use bench_values::{
    AsValue, Described, Description, Fault, Kind, Modifier, Place, Problem, Refused, Token, Tokens,
    Told, Value, read_options, read_parser,
};
pub use leaf::{Answer, Leaf};
pub use level::Level;
pub use one_text::OneText;
pub use options::Options;
pub use run::run_bench;

/// A described parser: six combinations may stand in one another over a leaf.
pub type SixLevels = Level<Level<Level<Level<Level<Level<Leaf>>>>>>;
