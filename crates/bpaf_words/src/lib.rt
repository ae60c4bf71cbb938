//! Words and the items that they spell.
//!
//! It stands on `bpaf_base`, whose [`Arg`] and tests on one it hands on. It knows nothing of
//! documents, of parsers or of what is taken. For the layers above:
//!
//! - [`Args`] lends the words, the name and the environment of a run (specs/Arguments.antt).
//! - [`split_word`] answers the items of one word. Contracts say which by `Spells`
//!   (specs/Line.antt), by the ways in which a word falls into parts and not by a walk over it;
//!   what a spelling depends on is one record, `Known`: the known short names, and whether a
//!   negative number such as `-5` is a word. Each word but `--` has exactly one spelling.
//! - [`line_of`] answers the [`Line`] of all words and the place of their first `--`. A line is
//!   refused exactly where a word is ambiguous (`IsLine` and `HasNoLine`, specs/Line.antt), and for
//!   want of memory. Words have one line or a first ambiguous word, never both.
//! - [`Front`] is the beginning of a line that is the same whatever short names are known. So a
//!   line without joined words such as `-vn3` is read before anything is known, and of any other
//!   the rest is read when the names are there.
//!
//! The source of the design is bpaf's `arg.rs` and `args.rs`.
#![tactic(auto)]

mod args;
mod laws;
mod line;
mod split;

pub use args::{Args, LentWord, Words};
pub use bpaf_base::{
    Arg, is_argument_key, is_attached, is_command_word, is_key, is_key_of, is_positional,
    item_text, value_text,
};
pub use laws::{lines_are_unique, spellings_are_unique};
pub use line::{Front, Line, LineFault, line_of};
pub use split::{SplitFault, split_word};
