//! Values from text, what a list of values fills, and the names of keys.
//!
//! The layer that says what a word of the command line means as a value, and by which names a key
//! is found and shown. It stands on `bpaf_doc` alone, and knows nothing of lines or runs.
//!
//! - [`FromText`] is the trait of the types that are read from one word. Its contract for the
//!   layers above: `from_text` gives a value that the text means, and a [`TextFault::Fault`] only
//!   where the text means none. Which values a text means is the ghost relation `means` of the
//!   implementation, with the words for it in specs/Meaning.antt. Implementations stand for the
//!   whole numbers, `bool`, `char` and `String`, and a caller writes more for types of its own.
//! - [`FromList`] is the trait of what a list of values fills, from front to back: by its ghost
//!   relation `fills` an implementation says what it holds then. Implementations stand for `Vec`,
//!   `VecDeque` and `BTreeSet` (specs/Meaning.antt), and a caller writes more.
//! - [`NamedArg`] is a key with its names, built by [`short()`], [`long()`] and [`env()`],
//!   or by [`key()`], [`short_key()`] and [`long_key()`], which take no memory.
//!   Contracts see it as the lists of its names in the order in which they were given, those in the
//!   environment among them, and its help (specs/Named.antt), so each builder is one equation: it
//!   appends one name, or sets the help, and keeps the rest.
//! - [`ParseFlag`] and [`ParseArgument`] are what a key becomes: its names, and what it gives.
//!   They keep the key as a [`LeafKey`], whose help may be a text of the program; contracts see it
//!   as the key with that help (`helped`, specs/Named.antt). Their fields are public, since the
//!   layers above look for the key on a line by them. Contracts see an argument as one record
//!   (`KeyWithValue`, specs/Named.antt).
//! - `flag_item` and `argument_item` say what a key shows, as a part of specs/Shape.antt in
//!   `bpaf_doc`: the first short and the first long name, all short names, and no item where the
//!   key has no name.
//!
//! Each refusal that is not a fault is for want of memory. How a key is sought on a line, and how a
//! flag or an argument is evaluated, stands in the crates above.
//!
//! The source of the design is bpaf's `params.rs` and `from_os_str.rs`.
#![tactic(auto)]

mod fault;
mod few;
mod from_list;
mod from_text;
mod leaf_key;
mod named;
mod params;

pub use fault::TextFault;
pub use from_list::FromList;
pub use from_text::FromText;
pub use leaf_key::LeafKey;
pub use named::{NamedArg, copy_texts, env, key, long, long_key, short, short_key};
pub use params::{ParseArgument, ParseFlag};
