//! How an item is written inside messages and usage.
ghost use Rattle.std.specs.Prelude.{◌≡◌, ◌++◌, Bool, IfOk, OnOk, OnErr, string_bytes};
ghost use Rattle.bpaf_doc.specs.Print.{printed};
ghost use Rattle.bpaf_doc.specs.Shape.{part_of, name_of, part_text, name_text};

use crate::doc::{Doc, Style};
use crate::item::{Item, ShortLong};
use std::alloc::{AllocError, Global};

impl ShortLong {
    /// `--long`, or `-s` where there is no long name; refused only for want of memory.
    fn text(&self, alloc: Global) -> Result<String, AllocError>
        ensures { IfOk result (λ text. string_bytes text ≡ name_text (name_of self.now)) }
    {
        match self {
            ShortLong::Short(short) => format!(in alloc; "-{short}"),
            ShortLong::Long(long) | ShortLong::Both(_, long) => format!(in alloc; "--{long}"),
        }
    }
}

impl Item {
    /// Its text in messages and usage, by itself.
    fn text(&self, alloc: Global) -> Result<Doc, AllocError>
        ensures { IfOk result (λ doc. (full : Bool) →
            printed full doc ≡ part_text (part_of self.now)) }
    {
        let mut doc = Doc::new(alloc);
        match self {
            Item::Any { metavar, .. } => {
                doc.write(Style::Metavar, metavar.monochrome(true)?.as_str())?;
            }
            Item::Positional { metavar, .. } => doc.write(Style::Metavar, metavar.as_str())?,
            Item::Command { .. } => doc.write(Style::Metavar, "COMMAND ...")?,
            Item::Flag { name, .. } => doc.write(Style::Literal, name.text(alloc)?.as_str())?,
            Item::Argument { name, metavar, .. } => {
                doc.write(Style::Literal, name.text(alloc)?.as_str())?;
                doc.write(Style::Text, "=")?;
                doc.write(Style::Metavar, metavar.as_str())?;
            }
        }
        Ok(doc)
    }

    /// Appends its text in messages and usage; refused only for want of memory.
    ///
    /// A flag is `--long`, or `-s` where it has no long name; an argument the same with `=METAVAR`;
    /// a word its metavar; a command `COMMAND ...`; an item with a text of its own that text, which
    /// stands whole in each print (bpaf's `Doc::write_item`, in `buffer.rs`).
    pub fn push_text(&self, doc: &mut Doc) -> Result<(), AllocError>
        ensures ok { OnOk result ((full : Bool) →
            printed full doc.new ≡ printed full doc.old ++ part_text (part_of self.now)) }
        ensures err { OnErr result (doc.new ≡ doc.old) }
    {
        let text = self.text(doc.alloc())?;
        doc.doc(&text)
    }
}
