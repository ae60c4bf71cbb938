//! Texts that a program gives to be shown.
ghost use Rattle.std.specs.Prelude.{◌≡◌, IfOk};

use crate::doc::Doc;
use std::alloc::{AllocError, Global};
use std::marker::Model;

/// A text that a program gives to be shown, such as a help or a description: a text of the
/// program's own, or a document. Contracts see it as the pieces that are shown.
///
/// A text of the program's own takes no memory before it is shown, and is then what
/// [`Doc::from_text`] makes of it.
#[derive(Debug)]
pub struct Help {
    kept: Kept,
}

/// What a help is kept as.
#[derive(Debug, Drop)]
enum Kept {
    Text(&'static str),
    Doc(Doc),
}

impl Model for Help {
    ghost use Rattle.std.specs.Prelude.{List};
    ghost use Rattle.bpaf_doc.specs.declared.doc.Piece.{Piece};

    ghost Value = { List Piece };

    ghost use Rattle.bpaf_doc.specs.KeptHelp.{shown_of};

    ghost view = { λ help. shown_of help.kept };
}

/// One call, so that a function that drops many of them isn't checked for each way to keep one.
impl Drop for Help {
    fn drop(self) {
        let Help { kept } = self;
        drop(kept);
    }
}

impl From<&'static str> for Help {
    ghost use Rattle.std.specs.Prelude.{◌≡◌};
    ghost use Rattle.bpaf_doc.specs.Print.{text_pieces};

    ghost from_gives = { λ text help. help ≡ text_pieces text.now };

    fn from(text: &'static str) -> Help {
        Help {
            kept: Kept::Text(text),
        }
    }
}

impl From<Doc> for Help {
    ghost use Rattle.std.specs.Prelude.{◌≡◌};

    ghost from_gives = { λ doc help. help ≡ doc };

    fn from(doc: Doc) -> Help {
        Help {
            kept: Kept::Doc(doc),
        }
    }
}

impl Help {
    /// The document that is shown; refused only for want of memory.
    pub fn doc(&self, alloc: Global) -> Result<Doc, AllocError>
        ensures { IfOk result (λ doc. doc ≡ self.now) }
    {
        match &self.kept {
            Kept::Text(text) => Doc::from_text(alloc, text),
            Kept::Doc(doc) => doc.copy(),
        }
    }

    /// That document, where there is a help; refused only for want of memory.
    pub fn doc_of(alloc: Global, help: &Option<Help>) -> Result<Option<Doc>, AllocError>
        ensures { IfOk result (λ doc. doc ≡ help.now) }
    {
        match help {
            Some(help) => Ok(Some(help.doc(alloc)?)),
            None => Ok(None),
        }
    }

    /// An equal help; refused only for want of memory.
    pub fn copy(&self) -> Result<Help, AllocError>
        ensures { IfOk result (λ help. help ≡ self.now) }
    {
        let kept = match &self.kept {
            Kept::Text(text) => Kept::Text(text),
            Kept::Doc(doc) => Kept::Doc(doc.copy()?),
        };
        Ok(Help { kept })
    }

    /// An equal help, where there is one; refused only for want of memory.
    pub fn copy_of(help: &Option<Help>) -> Result<Option<Help>, AllocError>
        ensures { IfOk result (λ copy. copy ≡ help.now) }
    {
        match help {
            Some(help) => Ok(Some(help.copy()?)),
            None => Ok(None),
        }
    }
}
