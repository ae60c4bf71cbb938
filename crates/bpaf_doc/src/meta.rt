//! The tree of what a parser shows.
ghost use Rattle.std.specs.Prelude.{◌≡◌, IfOk, map};
ghost use Rattle.bpaf_doc.specs.Shape.{Many, Optional, Required, alternatives, shape_of};

use crate::doc::Doc;
use crate::item::Item;
use std::alloc::{AllocError, Global};

/// What a parser shows of itself: a tree of items (bpaf's `Meta`).
#[cycle(meta)]
pub enum Meta {
    /// All members, in order.
    And(Vec<Meta>),
    /// One of the members.
    Or(Vec<Meta>),
    /// The inner one, which may be left out.
    Optional(Box<Meta>),
    /// The inner one, which must not be left out.
    Required(Box<Meta>),
    /// The inner one, whose items stand side by side.
    Adjacent(Box<Meta>),
    /// The inner one, which may stand more than once.
    Many(Box<Meta>),
    /// The inner one, which stands behind `--`.
    Strict(Box<Meta>),
    /// The inner one, in a section of its own below a title.
    Subsection(Box<Meta>, Doc),
    /// The inner one, with a text behind it.
    Suffix(Box<Meta>, Doc),
    /// The inner one, with a usage text of its own.
    CustomUsage(Box<Meta>, Doc),
    /// One item.
    Item(Item),
    /// Nothing is shown.
    Skip,
}

impl Meta {
    /// This one, which may be left out; refused only for want of memory.
    pub fn optional(self, alloc: Global) -> Result<Meta, AllocError>
        ensures { IfOk result (λ all. shape_of all ≡ Optional (shape_of self)) }
    {
        Ok(Meta::Optional(Box::new(alloc, self)?))
    }

    /// This one, any number of times; refused only for want of memory.
    pub fn many(self, alloc: Global) -> Result<Meta, AllocError>
        ensures { IfOk result (λ all. shape_of all ≡ Many (Optional (shape_of self))) }
    {
        let optional = Meta::Optional(Box::new(alloc, self)?);
        Ok(Meta::Many(Box::new(alloc, optional)?))
    }

    /// This one, once or more; refused only for want of memory.
    pub fn some(self, alloc: Global) -> Result<Meta, AllocError>
        ensures { IfOk result (λ all. shape_of all ≡ Many (Required (shape_of self))) }
    {
        let required = Meta::Required(Box::new(alloc, self)?);
        Ok(Meta::Many(Box::new(alloc, required)?))
    }

    /// What it adds to a choice: the members of an `Or`, and else itself (bpaf's `Meta::or`, in
    /// `meta.rs`). Refused only for want of memory.
    #[tactic(auto, using(crate::proofs::Folding::or_adds))]
    pub fn alternatives(self, alloc: Global) -> Result<Vec<Meta>, AllocError>
        ensures { IfOk result (λ all. map shape_of all.items ≡ alternatives (shape_of self)) }
    {
        match self {
            Meta::Or(all) => Ok(all),
            other => Ok(vec![in alloc; other]?),
        }
    }
}

/// One call, so that a function that drops a tree isn't checked for each kind of it.
impl Drop for Meta {
    #[cycle(meta)]
    fn drop(self) {
        match self {
            Meta::And(_all) | Meta::Or(_all) => {}
            Meta::Optional(_inner)
            | Meta::Required(_inner)
            | Meta::Adjacent(_inner)
            | Meta::Many(_inner)
            | Meta::Strict(_inner) => {}
            Meta::Subsection(_inner, _text)
            | Meta::Suffix(_inner, _text)
            | Meta::CustomUsage(_inner, _text) => {}
            Meta::Item(_item) => {}
            Meta::Skip => {}
        }
    }
}

/// What a parser shows of itself, lent to a closure that writes of it (bpaf's `MetaInfo`, in
/// `buffer.rs`).
#[derive(Clone, Copy)]
pub struct MetaInfo<'a>(&'a Meta);

impl<'a> MetaInfo<'a> {
    /// Lends a tree.
    pub fn new(meta: &'a Meta) -> MetaInfo<'a>
        ensures { result.0 ≡ meta.entry }
    {
        MetaInfo(meta)
    }

    /// The tree itself.
    pub fn meta(self) -> &'a Meta
        ensures { result ≡ self.entry.0 }
    {
        self.0
    }
}
