//! The texts of messages, and the message for items that are left over.
//!
//! It stands on `bpaf_line`, whose states and messages it reads. For the layers above:
//!
//! - [`render`] makes the text of a [`Message`](bpaf_line::Message) in the state that the refusing
//!   parser left, of what the line shows and of the items that were looked for furthest on
//!   (`message_text`; specs/Rendering.antt).
//! - [`leftover`] is the message of the first item that is left (specs/Leftover.antt): what
//!   excludes it; else the last earlier key of its kind and name, which [`earlier_key`] finds
//!   (specs/Leftover.antt); else that it isn't expected.
//! - [`tell_fault`] makes the message for words that have no line (specs/Leftover.antt).
//!
//! The source of the design is bpaf's `error.rs`.
#![tactic(auto)]

mod ambiguity;
mod earlier;
mod faults;
mod leftovers;
mod missing;
mod phrases;
mod rendering;
mod shown;

pub use earlier::earlier_key;
pub use faults::tell_fault;
pub use leftovers::leftover;
pub use rendering::render;
