//! Texts, of which short ones take no memory.
ghost use Rattle.std.specs.Prelude.{◌≡◌, ◌≤◌, length, IfOk};

use crate::short::{ROOM, ShortText};
use std::alloc::{AllocError, Global};
use std::fmt;
use std::marker::Model;

/// A text that contracts see as its bytes; one of at most 23 bytes takes no memory.
///
/// A `String` holds its capacity too, so two of them that say the same may differ in contracts.
pub struct Text {
    kept: Kept,
}

/// What the bytes of a text are kept in.
#[derive(Drop)]
enum Kept {
    Short(ShortText),
    Long(String),
}

impl Model for Text {
    ghost use Rattle.std.specs.Prelude.{List, ℕ};

    ghost Value = { List ℕ };

    ghost use Rattle.bpaf_base.specs.InsideText.{bytes_of};

    ghost view = { λ t. bytes_of t.kept };
}

/// One call, so that a function that drops many texts isn't checked for each way to keep one.
impl Drop for Text {
    fn drop(self) {
        let Text { kept } = self;
        drop(kept);
    }
}

impl Text {
    /// A copy of a text; refused only for want of memory.
    pub fn new(alloc: Global, text: &str) -> Result<Text, AllocError>
        ensures { IfOk result (λ t. t ≡ text.now) }
    {
        if text.len() <= ROOM {
            return Ok(Text::short(text));
        }
        let kept = Kept::Long(String::from_str(alloc, text)?);
        Ok(Text { kept })
    }

    /// A copy of a text of at most 23 bytes. It takes no memory.
    pub fn short(text: &str) -> Text
        requires { length text.now ≤ 23 }
        ensures { result ≡ text.now }
    {
        Text {
            kept: Kept::Short(ShortText::new(text)),
        }
    }

    /// The text itself.
    pub fn as_str(&self) -> &str
        ensures { result.now ≡ self.now }
    {
        match &self.kept {
            Kept::Short(text) => text.as_str(),
            Kept::Long(text) => text.as_str(),
        }
    }

    /// An equal text; refused only for want of memory.
    pub fn copy(&self) -> Result<Text, AllocError>
        ensures { IfOk result (λ t. t ≡ self.now) }
    {
        let kept = match &self.kept {
            Kept::Short(text) => Kept::Short(text.copy()),
            Kept::Long(text) => Kept::Long(text.clone()?),
        };
        Ok(Text { kept })
    }

    /// An equal text, where there is one; refused only for want of memory.
    pub fn copy_of(text: &Option<Text>) -> Result<Option<Text>, AllocError>
        ensures { IfOk result (λ copy. copy ≡ text.now) }
    {
        match text {
            Some(text) => Ok(Some(text.copy()?)),
            None => Ok(None),
        }
    }
}

impl From<String> for Text {
    ghost use Rattle.std.specs.Prelude.{◌≡◌, string_bytes};

    ghost from_gives = { λ inner text. text ≡ string_bytes inner };

    fn from(inner: String) -> Text {
        Text {
            kept: Kept::Long(inner),
        }
    }
}

impl fmt::Debug for Text {
    fn fmt<W: fmt::Write>(&self, f: &mut fmt::Formatter<W>) -> fmt::Result {
        fmt::Debug::fmt(self.as_str(), f)
    }
}

impl fmt::Display for Text {
    ghost use Rattle.std.specs.Prelude.{Some};

    ghost output = { λ t. Some t };

    fn fmt<W: fmt::Write>(&self, f: &mut fmt::Formatter<W>) -> fmt::Result {
        f.write_str(self.as_str())
    }
}
