//! The usage text of what a parser shows.
ghost use Rattle.std.specs.Prelude.{◌≡◌, ◌++◌, IfOk, codes};
ghost use Rattle.bpaf_doc.specs.{Shape.shape_of, Shape.member_shapes, Print.Prints, Print.prints};
ghost use Rattle.bpaf_pages.specs.Help.{joined, usage_text, usage_texts, how_many};

use crate::joined::{around, glue};
use bpaf_doc::{Doc, Meta, Style};
use std::alloc::{AllocError, Global};

/// The usage texts of all members, those that aren't empty joined, and how many these are.
#[cycle(usage)]
fn usage_of_all(alloc: Global, between: &str, all: &[Meta]) -> Result<(Doc, usize), AllocError>
    ensures prints { IfOk result (λ (doc, shown).
        Prints (joined between.now (usage_texts (member_shapes all.now))) doc) }
    ensures count { IfOk result (λ (doc, shown).
        shown ≡ how_many (usage_texts (member_shapes all.now))) }
{
    let mut doc = Doc::new(alloc);
    let mut shown = 0;
    for member in all {
        let text = usage_of(alloc, member)?;
        if !text.is_empty() {
            shown += 1;
        }
        glue(&mut doc, between, &text)?;
    }
    Ok((doc, shown))
}

/// The usage text of what stands behind `--`.
fn behind_marker(alloc: Global, inner: &Doc) -> Result<Doc, AllocError>
    ensures { IfOk result (Prints (λ full. codes "-- " ++ prints inner.now full)) }
{
    let mut doc = Doc::new(alloc);
    doc.write(Style::Literal, "-- ")?;
    doc.doc(inner)?;
    Ok(doc)
}

/// How what the tree shows may be written on a line, without the path before it (bpaf's
/// `Doc::write_meta`); refused only for want of memory.
///
/// Members that are all wanted stand in order, members to choose from as `(a | b)`; what may
/// be left out stands in square brackets, and what may be repeated before `...`. What shows
/// nothing is left out.
///
/// ```text
/// [--verbose] --num=NUM [FILE]...
/// ```
#[cycle(usage)]
pub fn usage_of(alloc: Global, meta: &Meta) -> Result<Doc, AllocError>
    ensures { IfOk result (Prints (usage_text (shape_of meta.now))) }
{
    match meta {
        Meta::And(all) => {
            let (doc, _) = usage_of_all(alloc, " ", all)?;
            Ok(doc)
        }
        Meta::Or(all) => {
            let (doc, shown) = usage_of_all(alloc, " | ", all)?;
            if shown > 1 {
                around(alloc, "(", &doc, ")")
            } else {
                Ok(doc)
            }
        }
        Meta::Optional(inner) => {
            let doc = usage_of(alloc, inner)?;
            around(alloc, "[", &doc, "]")
        }
        Meta::Required(inner)
        | Meta::Adjacent(inner)
        | Meta::Subsection(inner, _)
        | Meta::Suffix(inner, _) => usage_of(alloc, inner),
        Meta::Many(inner) => {
            let doc = usage_of(alloc, inner)?;
            around(alloc, "", &doc, "...")
        }
        Meta::Strict(inner) => {
            let doc = usage_of(alloc, inner)?;
            behind_marker(alloc, &doc)
        }
        Meta::CustomUsage(_, text) => text.copy(),
        Meta::Item(item) => {
            let mut doc = Doc::new(alloc);
            item.push_text(&mut doc)?;
            Ok(doc)
        }
        Meta::Skip => Ok(Doc::new(alloc)),
    }
}
