//! The state of a parse: which items of a line are taken, and why a parser gives no value.
//!
//! It stands on `bpaf_doc`, on `bpaf_words`, whose lines it holds, and on `bpaf_index`, by which it
//! finds places. For the layers above:
//!
//! - [`State::construct`] begins a parse at the line of the words (specs/Taking.antt), and
//!   [`State::construct_numbers`] does so where negative numbers are words.
//! - [`State`] is a parse in progress. Contracts see it as a `Situation` (specs/Situation.antt),
//!   and the layers above speak of one only through its accessors (`item_at`, `is_taken`,
//!   `conflict_at`, `in_scope`, `is_open`, `open_count`, and the steps `take_place`, `with_scope`,
//!   `with_path`, `with_current`, `beginning`): how what is taken is kept is this crate's own
//!   affair. What the steps change of it is in proofs/Places.antt. The marker, which is the first
//!   `--`, is taken from the start and is the item of no place.
//! - The take calls meet their relation of specs/Taking.antt for every answer, over the whole
//!   state. [`State::items_iter`] walks the `open_items` (specs/Taking.antt).
//! - Of two branches that went on from one mark [`State::pick_winner`] says which took the
//!   leftmost place that only one took; [`State::save_conflicts`] notes what the other took, and
//!   [`State::conflict`] answers such a note (specs/Taking.antt; `conflict_at` is the accessor).
//!   What is noted is present.
//! - [`State::undo`] goes back to a [`Mark`], and [`State::redo`] does the [`Steps`] since one
//!   again (specs/Marks.antt). Each call that changes a state leaves what its earlier marks go back
//!   to (`KeepsMarks`).
//! - [`Message`], [`Error`] and [`ParseFailure`] say why a parser, or a whole run, gives no value.
//!   A [`Message`] is want of memory (`is_memory`), one past which an optional parser goes on
//!   (`can_catch`), one for which the words are at fault (`is_wrong_input`; specs/Messages.antt),
//!   or none of these. Of two there is one by `Combines`. `bpaf_messages` makes its text.
//!
//! The source of the design is bpaf's `args.rs` and `error.rs`.
#![tactic(auto)]

mod adjacent;
mod aside;
mod conflict;
mod construct;
mod error;
mod failure;
mod find;
mod iter;
mod mark;
mod missing;
mod state;
mod take;
mod taken;
mod whole_line;

pub use bpaf_words::{Arg, Args};
pub use error::{Error, Message};
pub use failure::ParseFailure;
pub use iter::ArgsIter;
pub use mark::{Mark, Steps};
pub use missing::{MissingItem, MissingItems};
pub use state::State;
