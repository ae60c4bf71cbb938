//! The two keys of a level.
ghost use Rattle.bpaf_batteries.specs.Keys.{AreKeysApart};

use bpaf::parsers::{ParseCount, ParseFlag};
use bpaf::{Both, Last};

/// Two keys that may each stand any number of times, counted.
#[derive(Drop)]
pub struct KeyCounts {
    /// The counts of the two keys.
    pub fields: Both<ParseCount<ParseFlag<()>, ()>, Last<ParseCount<ParseFlag<()>, ()>>>,
    pub ghost apart: { AreKeysApart fields.first.inner fields.rest.last.inner },
}
