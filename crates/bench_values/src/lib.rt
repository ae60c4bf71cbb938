//! The tokens and values of described parsers, and what is made of one parser whose value is such a
//! one.
//!
//! It stands on `bpaf_core`. A [`Description`] is a list of tokens, gathered line by line, each
//! with its [`Place`]; [`Tokens`] walks over them; a [`Fault`] tells which token stands at which
//! place, and why it can't. docs/BENCH.md says how a description is written.
//!
//! A [`Value`] is what any described parser gives, and
//! [`Told`] says which value one of another type is; [`AsValue`] is a parser of any type whose
//! value is told so, and [`Lent`] one that is lent to another. [`modified`] evaluates what a
//! [`Modifier`] makes of a lent parser, and [`called`] a command over it. [`Described`] is what
//! tokens describe: [`read_parser`] reads one off a description, and [`read_options`] the run of
//! one, with what stands at its head.
//!
//! For the layers above: what a modifier makes of a parser answers by the table of the combinator
//! that it names, and so does a command (specs/Modifiers.antt), but for what the checks of `guard`
//! and `parse` answer and for the texts of faults, of which nothing is said;
//! each is lawful where its parser is. What is [`Described`] may always be evaluated.
#![tactic(auto)]

mod as_value;
mod closures;
mod combinations;
mod commands;
mod described;
mod heads;
mod keys;
mod kind;
mod lent;
mod modifiers;
mod names;
mod refused;
mod tokens;
mod value;

pub use as_value::{AsValue, tell};
pub use closures::give;
pub use combinations::{read_combination, read_several};
pub use commands::{called, called_meta};
pub use described::{Described, read_parser};
pub use heads::read_options;
pub use keys::read_key;
pub use kind::{Kind, Modifier};
pub use lent::Lent;
pub use modifiers::{modified, modified_meta};
pub use names::{Keyed, is_combination, is_numbered, is_texted, kind_of_key};
pub use refused::Refused;
pub use tokens::{Description, Fault, Place, Problem, Token, Tokens};
pub use value::{Told, Value};
