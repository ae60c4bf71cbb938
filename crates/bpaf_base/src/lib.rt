//! What all layers hold: texts, the names of a key, and the items of a line.
//!
//! The lowest layer. It stands on std alone, and knows nothing of words, of lines or of what is
//! taken. For the layers above:
//!
//! - [`Text`] is a text that contracts see as its bytes, so that values that hold texts compare by
//!   what they say and not by the room that they take. One of at most 23 bytes takes no memory.
//! - The names of a key are data of contracts alone: its short names and its long ones
//!   (specs/Names.antt).
//! - [`Arg`] is one item of a line: a key, the value in a key's own word, or a word.
//! - How many numbers of a set lie below one (specs/Count.antt) counts places and values.
//! - What a test on an item computes, such as [`is_key_of`], stands in specs/Items.antt.
//!
//! Which items a word spells stands above, in `bpaf_words`, which hands on items and their tests.
//!
//! The source of the items' design is bpaf's `arg.rs`.
#![tactic(auto)]

mod arg;
mod short;
mod text;

pub use arg::{
    Arg, is_argument_key, is_attached, is_command_word, is_key, is_key_of, is_positional,
    is_text_among, item_text, value_text,
};
pub use text::Text;
