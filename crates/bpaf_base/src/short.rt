//! A text of few bytes, kept without memory of its own.
ghost use Rattle.std.specs.Prelude.{◌≡◌, ◌≤◌, length};

use std::marker::Model;
use std::str;

/// The most bytes that such a text has.
pub(crate) const ROOM: usize = 23;

/// A text of at most [`ROOM`] bytes: how many, and these in front.
#[derive(Drop)]
pub(crate) struct ShortText {
    len: u8,
    bytes: [u8; ROOM],
}

impl Model for ShortText {
    ghost use Rattle.std.specs.Prelude.{List, ℕ};

    ghost Value = { List ℕ };

    ghost use Rattle.bpaf_base.specs.InsideText.{front_of, IsShortText};

    ghost view = { front_of };

    ghost invariant = { IsShortText };
}

impl ShortText {
    /// A copy of a text of so few bytes.
    pub(crate) fn new(text: &str) -> ShortText
        requires { length text.now ≤ 23 }
        ensures { result ≡ text.now }
    {
        let mut bytes = [0; ROOM];
        bytes[..text.len()].copy_from_slice(text.as_bytes());
        ShortText {
            len: text.len() as u8,
            bytes,
        }
    }

    /// An equal text.
    pub(crate) fn copy(&self) -> ShortText
        ensures { result ≡ self.now }
    {
        ShortText {
            len: self.len,
            bytes: self.bytes,
        }
    }

    /// The text itself.
    pub(crate) fn as_str(&self) -> &str
        ensures { result.now ≡ self.now }
    {
        // The bytes in front are those of characters, as the invariant says.
        unsafe { str::from_utf8_unchecked(&self.bytes[..usize::from(self.len)]) }
    }
}
