//! Documents and shapes: what a parser shows of itself, and what is printed.
//!
//! It stands on `bpaf_base`, whose [`Text`] it hands on, and knows nothing of lines, values or
//! runs.
//!
//! - [`Doc`] is a list of pieces, each a text with a [`Style`]. Its contract for the layers above:
//!   a `Doc` is the list of the pieces that its calls appended, and `monochrome` is their text;
//!   specs/Print.antt has it, and what a text gives with its line breaks folded.
//! - [`Help`] is what a program gives to be shown, a text of its own, which takes no memory, or a
//!   `Doc`.
//! - [`displayed`], [`debugged`] and [`formatted`] write a default (specs/Default.antt).
//! - [`Item`] is one flag, argument, word or command as it is shown, and [`Meta`] the tree of them
//!   that a parser shows; [`MetaInfo`] lends one. Contracts see both through `part_of` and
//!   `shape_of` (specs/Shape.antt), data without addresses and capacities. Messages and
//!   usage write an item as its `part_text`. The walks over a tree, and over one that is lent,
//!   gather short names, find the first item, and check that words stand behind keys (all in
//!   specs/Shape.antt).
//!
//! What a whole tree is printed as, its usage text and its help page, stands beside this crate, in
//! `bpaf_pages`.
//!
//! The source of the design is bpaf's `buffer.rs`, `item.rs` and `meta.rs`.
#![tactic(auto)]

mod copies;
mod defaults;
mod doc;
mod fold;
mod help;
mod item;
mod meta;
mod order;
mod walks;
mod written;

pub use bpaf_base::Text;
pub use defaults::{debugged, displayed, formatted};
pub use doc::{Doc, Piece, Style};
pub use help::Help;
pub use item::{Item, Metavar, ShortLong};
pub use meta::{Meta, MetaInfo};
