//! Branches that begin at one place, and which of two answers stands.
//!
//! It stands on the definitions of `bpaf_laws` and on what these speak of, and calls no parser. For
//! the layers of parsers above:
//!
//! - [`Start`] and [`Branch`] are where branches begin and where one led to (specs/Branches.antt);
//!   [`resume`] does a branch's steps again.
//! - The table of [`this_or_that`] says which of two answers of a choice stands, and [`or_meta`]
//!   what a choice shows; [`is_memory_answer`] tells an answer for which no branch is asked.
//! - [`first_failure`] is the failure that stands where a second attempt failed too.
//!
//! The source of the design is bpaf's `structs.rs`.
#![tactic(auto)]

mod branch;
mod table;

pub use branch::{Branch, Start, first_failure, resume};
pub use table::{is_memory_answer, or_meta, this_or_that};
