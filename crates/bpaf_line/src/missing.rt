//! What was looked for in vain, and where.
ghost use Rattle.std.specs.Prelude.{◌≡◌, IfOk, [], ◌∷◌, ◌++◌, map};
ghost use Rattle.bpaf_line.specs.Missing.{missed_of};

use bpaf_doc::Item;
use std::alloc::{AllocError, Global};
use std::marker::Model;
use std::ops::Range;

/// An item that a parser looked for in vain, the place from which it looked, and the scope in which
/// it looked (bpaf's `MissingItem`).
pub struct MissingItem {
    pub item: Item,
    pub position: usize,
    pub scope: Range<usize>,
}

/// One call, as for the list of them and for a message.
impl Drop for MissingItem {
    fn drop(self) {
        let MissingItem {
            item: _item,
            position: _,
            scope: _scope,
        } = self;
    }
}

/// The items that parsers looked for in vain, in order.
///
/// bpaf has a `Vec` in its place; contracts see this list without its room, and compare it by what
/// its items are seen as (`missed_of`, specs/Missing.antt).
pub struct MissingItems {
    items: Vec<MissingItem>,
}

/// One call, so that a function that drops a refusal isn't checked for what is inside.
impl Drop for MissingItems {
    fn drop(self) {
        let MissingItems { items: _items } = self;
    }
}

impl Model for MissingItems {
    ghost use Rattle.std.specs.{Prelude.List, Coded.codes};
    ghost use Rattle.bpaf_line.specs.declared.missing.MissingItem.{MissingItem};
    ghost use Rattle.bpaf_doc.specs.contracts.item.Item as item;

    ghost Value = { List MissingItem };

    ghost coded = { Prim.hlevel (codes, item.the_row.coded) };

    ghost view = { λ m. m.items.items };
}

impl MissingItem {
    /// One that says the same (bpaf's `Clone`); refused only for want of memory.
    pub fn copy(&self) -> Result<MissingItem, AllocError>
        ensures { IfOk result (λ new. missed_of new ≡ missed_of self.now) }
    {
        Ok(MissingItem {
            item: self.item.copy()?,
            position: self.position,
            scope: self.scope.start..self.scope.end,
        })
    }
}

impl MissingItems {
    /// No items. It takes no memory.
    pub fn none(alloc: Global) -> MissingItems
        ensures { result ≡ [] }
    {
        MissingItems {
            items: Vec::new(alloc),
        }
    }

    /// One item alone; refused only for want of memory.
    pub fn one(alloc: Global, item: MissingItem) -> Result<MissingItems, AllocError>
        ensures { IfOk result (λ items. items ≡ item ∷ []) }
    {
        let mut items = Vec::with_capacity(alloc, 1)?;
        items.push(item)?;
        Ok(MissingItems { items })
    }

    /// The items, to be looked at. It takes no memory.
    pub fn as_slice(&self) -> &[MissingItem]
        ensures { result.now ≡ self.now }
    {
        self.items.as_slice()
    }

    /// A list that says the same; refused only for want of memory.
    pub fn copy(&self) -> Result<MissingItems, AllocError>
        ensures { IfOk result (λ new. map missed_of new ≡ map missed_of self.now) }
    {
        let mut items = Vec::new(*self.items.allocator());
        for missed in &self.items {
            items.push(missed.copy()?)?;
        }
        Ok(MissingItems { items })
    }

    /// The items of both, its own before the others; refused only for want of memory.
    pub fn join(self, other: MissingItems) -> Result<MissingItems, AllocError>
        ensures { IfOk result (λ items. items ≡ self ++ other) }
    {
        let MissingItems { mut items } = self;
        let MissingItems { items: mut others } = other;
        items.append(&mut others)?;
        Ok(MissingItems { items })
    }
}
