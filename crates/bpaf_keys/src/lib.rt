//! Keys: how one is taken off the line or the environment, and what a run knows beside its parser.
//!
//! It stands on the definitions of `bpaf_laws`, on the pages of `bpaf_pages` and on what these
//! speak of. It calls no parser. For the layer of parsers above, which hands on what programs need
//! of it:
//!
//! - [`Info`] is what a run knows beside its parser: the keys that ask for help and for the
//!   version, which [`Info::look`] looks for, and the texts of the help page (src/info.rt,
//!   specs/Info.antt).
//! - [`CommandNames`] are the names of a command; [`CommandNames::open`] takes its word.
//! - [`is_flag_present`] is the test for flags, and [`is_present`] that for the keys of a run;
//!   [`take_argument`] takes the text of an argument, and
//!   [`read_text`] reads its value; [`first_set`] and [`absence`] are for names
//!   in the environment.
//!
//! The source of the design is bpaf's `info.rs` and `params.rs`.
#![tactic(auto)]

mod environment;
mod info;
mod names;
mod value;

pub use environment::{absence, first_set, is_flag_present, is_present, take_argument};
pub use info::{ExtraParams, Info, version_page};
pub use names::CommandNames;
pub use value::{read_text, value_or_refusal};
