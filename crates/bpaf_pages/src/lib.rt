//! Usage texts and help pages: what a whole tree of items is printed as.
//!
//! It stands on `bpaf_doc`, beside the crates that read lines. For the layers above:
//!
//! - [`usage_of`] writes the usage text of a tree (specs/Help.antt), and [`render_help`] its help
//!   page (specs/Help.antt), for which a program gives [`HelpTexts`]. Both have two prints, with
//!   the detail and without it; a text is left out where its full print is empty (specs/Help.antt).
//! - The lines of a page are those of the items that a tree shows, in order, each with the place
//!   where it stands (specs/Help.antt).
//!
//! The source of the design is bpaf's `buffer.rs` and `meta.rs`.
#![tactic(auto)]

mod help;
mod joined;
mod lines;
mod rows;
mod usage;

pub use help::{HelpTexts, render_help};
pub use usage::usage_of;
