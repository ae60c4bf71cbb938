//! Command line parsers from small ones: the crate that a program uses, version 0.1.0.
//!
//! It stands on the crates below it and hands on what a program needs of them: a program lists
//! `bpaf` alone. Of its own it has positional words ([`positional`]), items by their text
//! ([`literal`], [`any`]), leaves that look at no item ([`pure`], [`pure_with`], [`fail`],
//! [`appname`]) and products: [`ParseCon`] over [`Both`], [`Four`] and [`Last`] evaluates fields in
//! order and gives their values to a constructor; the macro [`construct!`] writes one down, or a
//! choice. [`choice`] is one of any number of parsers of one type. [`cargo_helper`] is the product
//! of a word that may stand in front and a parser.
//!
//! For the layers above: each type here says of what it is made (`grammar` of [`Parser`] and of
//! [`Fields`]), and answers and shows what that tells. [`evaluate`] has all that is so of an answer
//! of any parser as its clauses, and [`count_falls`] states that what is newly taken was there;
//! [`spellings_are_unique`] and [`lines_are_unique`] state that words are read in one way alone.
//!
//! The modules [`parsers`], [`params`] and [`doc`] hand on the parser types, the leaves, and what
//! texts are made of, as bpaf's modules of these names do.
//!
//! The source of the design is bpaf's `lib.rs` and `structs.rs`.
#![tactic(auto)]

mod adjacent;
mod cargo;
mod choices;
mod construct;
pub mod doc;
mod four;
mod laws;
mod leaves;
pub mod params;
pub mod parsers;
mod product;

pub use adjacent::{AdjacentError, ParseAdjacent};
pub use bpaf_core::{
    CommandNames, ExtraParams, HelpTexts, Info, OptionParser, Parser, command, earlier_key,
    leftover, read_text, render, render_help, usage_of, value_or_refusal,
};
pub use bpaf_doc::{Doc, Help, Item, Meta, MetaInfo, Metavar, Piece, ShortLong, Style, Text};
pub use bpaf_grammar::Position;
pub use bpaf_line::{
    ArgsIter, Error, Mark, Message, MissingItem, MissingItems, ParseFailure, State, Steps,
};
pub use bpaf_text::{
    FromList, FromText, NamedArg, TextFault, copy_texts, env, key, long, long_key, short, short_key,
};
pub use bpaf_words::{
    Arg, Args, Front, LentWord, Line, LineFault, SplitFault, Words, line_of, lines_are_unique,
    spellings_are_unique, split_word,
};
pub use cargo::{CargoHelper, cargo_helper};
pub use choices::{ParseChoice, choice};
pub use four::{Four, FourFields, FourValues};
pub use laws::{count_falls, evaluate};
pub use leaves::any::{ParseAny, any};
pub use leaves::appname::appname;
pub use leaves::literal::{ParseLiteral, literal};
pub use leaves::positional::{ParsePositional, positional};
pub use leaves::pure::{fail, pure, pure_with};
pub use product::{
    Both, ByClosure, Constructor, Fields, Fields1, Fields2, Fields3, Fields4, Last, ParseCon,
    ParseTuple2, ParseTuple3, ParseTuple4, Tuple2, Tuple3, Tuple4,
};
