//! Adjacent groups: products whose items stand next to one another.
ghost use Rattle.bpaf_grammar.specs.Grammar.{own, stretch, describes_of};
ghost use Rattle.bpaf_grammar.specs.Fast.{fast_product};
ghost use Rattle.std.specs.Prelude.{◌≡◌, ◌+◌, None, Some, Ok, Err, IfOk, IfErr};
ghost use Rattle.bpaf_doc.specs.Shape.{part_of, shape_of};
ghost use Rattle.bpaf_laws.specs.{Product.ProductDescribes, Adjacent.GroupDescribes};
ghost use Rattle.bpaf.specs.declared.adjacent.AdjacentError.TheVariants.{Memory};
ghost use Rattle.bpaf.specs.Remembering.{IsFirstOf, IsRefused};

mod attempts;
mod failures;
mod search;

use crate::product::{Constructor, Fields, ParseCon};
use bpaf_core::Parser;
use bpaf_doc::{Item, Meta};
use bpaf_line::{Error, State};
use std::alloc::{AllocError, Global};

/// Why a product makes no adjacent group; in bpaf such a group is never found.
#[derive(Drop)]
pub enum AdjacentError {
    /// The product's first field shows no item by which a group begins, as `pure` and a choice.
    NoFirstItem,
    /// Memory was wanted and refused.
    Memory,
}

impl From<AllocError> for AdjacentError {
    ghost from_gives = { λ _ error. error ≡ Memory };

    fn from(_error: AllocError) -> AdjacentError {
        AdjacentError::Memory
    }
}

/// A product that is lent, of which a failing first field is the end.
#[derive(Drop)]
struct FailFast<'p, P> {
    product: &'p P,
}

impl<'p, V, T, P: Fields<V>, M: Constructor<V, T>> Parser<T> for FailFast<'p, ParseCon<V, P, M>> {
    ghost can_eval = { λ p. P.can_eval p.product.now.fields
        × M.can_make p.product.now.make };

    ghost grammar = { λ p.
        own (fast_product (M.makes p.product.now.make) (P.grammar p.product.now.fields)) };

    fn eval(&self, state: &mut State) -> Result<T, Error> {
        let values = self.product.fields.eval_fail_fast(state);
        state.set_current(None);
        Ok(self.product.make.make(values?))
    }

    fn meta(&self, alloc: Global) -> Result<Meta, AllocError> {
        self.product.meta(alloc)
    }
}

/// What a parser shows, as items that stand side by side; refused only for want of memory.
fn adjacent_meta<T, P: Parser<T>>(parser: &P, alloc: Global) -> Result<Meta, AllocError>
    requires { P.can_eval parser.now }
    ensures { IfOk result (λ meta. GroupDescribes (describes_of (P.grammar parser.now))
        (shape_of meta)) }
{
    Ok(Meta::Adjacent(Box::new(alloc, parser.meta(alloc)?)?))
}

/// A product whose items stand next to one another (bpaf's `ParseAdjacent`, in `structs.rs`).
#[derive(Drop)]
pub struct ParseAdjacent<P> {
    /// The product.
    pub inner: P,
    /// The item by which the group begins.
    pub first: Item,
}

impl<V, P, M> ParseCon<V, P, M> {
    /// The adjacent group of this product: its items stand next to one another, as those of
    /// `--point 1 2` (bpaf's `ParseCon::adjacent`).
    ///
    /// The group begins with the first item that the product shows, which is copied; a product that
    /// shows none is refused with NoFirstItem. Refused also for want of memory; the product is then
    /// gone.
    ///
    /// ```text
    /// let point = construct!(Point { key, x, y }).adjacent(alloc)?;
    /// let points = point.many();
    /// ```
    pub fn adjacent<T>(self, alloc: Global) -> Result<ParseAdjacent<Self>, AdjacentError>
    where
        T: Drop,
        P: Fields<V> + Drop,
        M: Constructor<V, T> + Drop,
        requires fields { P.can_eval self.fields }
        requires callable { M.can_make self.make }
        ensures inner { IfOk result (λ group. group.inner ≡ self) }
        ensures first { IfOk result (λ group.
            IsFirstOf (ProductDescribes (describes_of (P.grammar self.fields))) group.first) }
        ensures none { IfErr result (λ error.
            IsRefused (ProductDescribes (describes_of (P.grammar self.fields))) error) }
    {
        let meta = self.meta(alloc)?;
        let Some(first) = meta.first_item() else {
            return Err(AdjacentError::NoFirstItem);
        };
        Ok(ParseAdjacent {
            first: first.copy()?,
            inner: self,
        })
    }
}

/// The value of the product, read off one stretch of places.
///
/// For each present place of the scope, from left to right, the product is evaluated over the
/// places of its first item alone; where it takes one of them, over the unbroken stretch of present
/// places from there. A failing first field ends it at once. Where it answers a value and leaves
/// places of its stretch present, it is evaluated anew over the stretch up to the first of them;
/// where it leaves none the value is the answer, and the scope is as before.
///
/// Without a value the answer is the failure that took most places, the earlier one of equals, with
/// the state that it left; where none took a place the first item is missing. Want of memory is
/// refused at once.
impl<V, T: Drop, P: Fields<V>, M: Constructor<V, T>> Parser<T>
    for ParseAdjacent<ParseCon<V, P, M>> {
    ghost can_eval = { λ p. P.can_eval p.inner.fields × M.can_make p.inner.make };

    ghost grammar = { λ p. stretch (part_of p.first)
        (own (fast_product (M.makes p.inner.make) (P.grammar p.inner.fields))) };

    fn eval(&self, state: &mut State) -> Result<T, Error> {
        let product = FailFast {
            product: &self.inner,
        };
        search::search(&product, &self.first, state)
    }

    fn meta(&self, alloc: Global) -> Result<Meta, AllocError> {
        adjacent_meta(&self.inner, alloc)
    }
}
