//! Batteries: parsers and a call that are made of public calls of `bpaf` alone.
//!
//! It stands on `bpaf`. It has a level of verbosity by two counted keys, as a number
//! ([`verbose_and_quiet_by_number`]) or as the item of an array ([`verbose_by_slice`]), two keys
//! of which the last one counts ([`toggle_flag`]), and the text of a program's help
//! ([`get_usage`]). It hands on [`cargo_helper`] of `bpaf`.
//!
//! For the layers above: the outcome, the readings and what is shown of each type are those of
//! its construction (specs/Verbosity.antt, specs/Toggle.antt), and each keeps to the laws of
//! `Parser`. Where a type is known its `eval` says more, by named clauses: a level is that of the
//! keys that were newly taken (`verbosity_counts`), and a toggle gives the value of the rightmost
//! of its keys that is present in scope (`last_toggle_wins`). [`get_usage`] answers the help page
//! of a run (specs/Usage.antt).
//!
//! The source of the design is bpaf's `batteries.rs`.
#![tactic(auto)]

mod counts;
mod pair;
mod toggle;
mod usage;
mod verbosity;

pub use bpaf::{CargoHelper, cargo_helper};
pub use pair::KeyCounts;
pub use toggle::{ToggleFlag, toggle_flag};
pub use usage::get_usage;
pub use verbosity::{VerboseQuiet, VerboseSlice, verbose_and_quiet_by_number, verbose_by_slice};
