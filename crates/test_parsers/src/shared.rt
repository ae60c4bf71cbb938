//! What the tests share: a word.
use bpaf::params::ParsePositional;
use bpaf::positional;

/// A word.
pub(crate) fn file() -> ParsePositional<String> {
    positional("FILE")
}
