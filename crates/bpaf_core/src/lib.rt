//! Parsers: what reads a value off a line, and a run over a whole line.
//!
//! It stands on `bpaf_grammar`, on `bpaf_keys`, whose [`Info`] and [`CommandNames`] it hands on, and
//! on the crates below these. The trait's methods make the combinators and the options, so one crate
//! has all of them. For the layers above:
//!
//! - [`Parser`] is the trait of every parser. An implementation says of what it is made, by its
//!   ghost member `grammar`, and its `eval` and `meta` answer and show what that tells. All else
//!   follows from the grammar: which values may be read off which places of a line, that the newly
//!   taken places with the value are a reading, which short names are shown (`bpaf_grammar`).
//! - [`bpaf_text::ParseFlag`] and [`bpaf_text::ParseArgument`] are the first parsers. Where their
//!   key isn't on the line, the first of their names in the environment that is set counts.
//!   [`read_text`] is the value of a taken text.
//! - [`ParseMap`], [`ParseWith`] and [`ParseGuard`] change or check a value; [`ParseOptional`],
//!   [`ParseFallback`] and [`ParseFallbackWith`] stand in for one that isn't there, and a value
//!   that stands in takes no item.
//! - [`ParseMany`], [`ParseSome`], [`ParseCollect`], [`ParseCount`] and [`ParseLast`] take turns of
//!   one parser until one stops; [`bpaf_text::FromList`] is what a list of values fills. Each turn
//!   but the first takes an item, so there are no more values than items present at the start and
//!   one.
//! - [`ParseOrElse`] is one of two parsers, both evaluated from the same state: the table of
//!   [`bpaf_choice::this_or_that`] decides whose answer counts. [`or_parser`], [`Start`] and
//!   [`or_meta`] are for the crates of this repository, not for callers. The branch that took the
//!   leftmost place taken by only one of them wins.
//! - [`ParseHide`] names no missing item in its refusals; [`ParseUsage`], [`ParseGroupHelp`] and
//!   [`ParseWithGroupHelp`] change only what is shown: they answer and read what the parser inside
//!   does.
//! - [`ParseCommand`], which [`command`] and [`OptionParser::command`] make, is a word that opens a
//!   run of its own over the items behind it. It answers a value only where that run leaves nothing
//!   in the scope that the command was given. What the run refuses has its name in that run, and a
//!   page is one of its parser.
//! - [`OptionParser::run_inner`] runs a parser over words. It answers a value only where that is
//!   dealt out of the words: read off all items of their line but the first `--`, each used once,
//!   whatever the parser's type.
//!
//! No parser catches want of memory. That, and the others of these promises, are theorems on
//! grammars (proofs/Promises.antt of `bpaf_grammar`), and clauses of `evaluate` of `bpaf`.
//!
//! The source of the design is bpaf's `lib.rs`, `params.rs`, `structs.rs` and `info.rs`.
#![tactic(auto)]

mod adjacent;
mod argument;
mod choice;
mod collect;
mod commands;
mod count;
mod extra;
mod fallback;
mod flag;
mod hide;
mod optional;
mod options;
mod parser;
mod repeat;
mod run;
mod transform;
mod usage;

pub use bpaf_choice::{Start, or_meta};
pub use bpaf_keys::{CommandNames, ExtraParams, Info, read_text, value_or_refusal};
pub use bpaf_messages::{earlier_key, leftover, render};
pub use bpaf_pages::{HelpTexts, render_help, usage_of};
pub use choice::{ParseOrElse, or_parser};
pub use collect::ParseCollect;
pub use commands::{ParseCommand, command};
pub use count::{ParseCount, ParseLast};
pub use fallback::{ParseFallback, ParseFallbackWith, given_by};
pub use hide::ParseHide;
pub use optional::ParseOptional;
pub use options::OptionParser;
pub use parser::Parser;
pub use repeat::{ParseMany, ParseSome};
pub use transform::{ParseGuard, ParseMap, ParseWith};
pub use usage::{ParseGroupHelp, ParseUsage, ParseWithGroupHelp};
