//! Where to look on a line: sets of its places, and its places chained by name.
//!
//! It stands on `bpaf_base`, whose items it reads, and knows nothing of what a
//! parse takes. For `bpaf_line`, whose state keeps both, and for no other layer:
//!
//! - [`bits`] is a set of places, as bits in words of 64; contracts see one by `has_bit`
//!   (specs/Bits.antt).
//! - [`Chains`](chains::Chains) links each place of a long line to the next one that may have the
//!   same name, so that a key is found without a look at every item (`AreBehind`,
//!   specs/Chained.antt). What stands before the beginning of a chain is in a set of places, which
//!   the caller tells: a walk from there meets all other items of the name.
//!
//! How many numbers below one are in a set, and whether a place is in a list, is said in
//! specs/Bits.antt, which the layers above cite too.
#![tactic(auto)]

pub mod bits;
pub mod chains;
mod classes;
