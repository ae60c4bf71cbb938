//! Documents that are joined.
ghost use Rattle.std.specs.Prelude.{◌≡◌, IfOk, OnOk};
ghost use Rattle.bpaf_doc.specs.Print.{prints, Prints};
ghost use Rattle.bpaf_pages.specs.Help.{glued, around};

use bpaf_doc::{Doc, Style};
use std::alloc::{AllocError, Global};

/// Appends a document, behind a text between the two where neither is empty.
pub(crate) fn glue(doc: &mut Doc, between: &str, more: &Doc) -> Result<(), AllocError>
    ensures { OnOk result (Prints (glued between.now (prints doc.old) (prints more.now)) doc.new) }
{
    if !doc.is_empty() && !more.is_empty() {
        doc.write(Style::Text, between)?;
    }
    doc.doc(more)
}

/// The document with a text before it and one behind it; an empty one where it is empty.
pub(crate) fn around(
    alloc: Global,
    before: &str,
    inner: &Doc,
    after: &str,
) -> Result<Doc, AllocError>
    ensures { IfOk result (Prints (around before.now after.now (prints inner.now))) }
{
    let mut doc = Doc::new(alloc);
    if !inner.is_empty() {
        doc.write(Style::Text, before)?;
        doc.doc(inner)?;
        doc.write(Style::Text, after)?;
    }
    Ok(doc)
}
