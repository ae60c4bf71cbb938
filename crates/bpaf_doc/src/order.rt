//! Whether a key stands behind a word in what is shown.
ghost use Rattle.std.specs.Prelude.{◌≡◌, ◌||◌, false};
ghost use Rattle.bpaf_doc.specs.Shape.{shape_of, part_of, member_shapes, Shown, in_order};
ghost use Rattle.bpaf_doc.specs.Shape.{all_in_order, each_in_order, has_word, any_has_word};
ghost use Rattle.bpaf_doc.specs.Shape.{takes_word};

use crate::item::Item;
use crate::meta::{Meta, MetaInfo};

/// Whether all members of an And are in order; `seen` is whether a word was asked for before
/// them, and then whether one was in them too.
#[cycle(order)]
fn all_in_order(all: &[Meta], seen: &mut bool) -> bool
    ensures order { result ≡ all_in_order (member_shapes all.now) seen.old }
    ensures seen { seen.new ≡ (seen.old || any_has_word (member_shapes all.now)) }
{
    let mut good = true;
    for member in all {
        let here = member.in_order(seen);
        good = good && here;
    }
    good
}

/// Whether each member of an Or is in order, and whether a word was asked for before them or in
/// one.
#[cycle(order)]
fn each_in_order(all: &[Meta], seen: bool) -> (bool, bool)
    ensures order { result.0 ≡ each_in_order (member_shapes all.now) seen }
    ensures seen { result.1 ≡ (seen || any_has_word (member_shapes all.now)) }
{
    let mut good = true;
    let mut seen_in_any = seen;
    for member in all {
        let mut seen_here = seen;
        let here = member.in_order(&mut seen_here);
        good = good && here;
        seen_in_any = seen_in_any || seen_here;
    }
    (good, seen_in_any)
}

impl Item {
    /// Whether it is in order behind what stands before it; `seen` as in `all_in_order`.
    #[cycle(order)]
    fn in_order(&self, seen: &mut bool) -> bool
        ensures order { result ≡ in_order (Shown (part_of self.now)) seen.old }
        ensures seen { seen.new ≡ (seen.old || takes_word (part_of self.now)) }
    {
        match self {
            Item::Any { anywhere, .. } => {
                if *anywhere {
                    !*seen
                } else {
                    *seen = true;
                    true
                }
            }
            Item::Positional { .. } => {
                *seen = true;
                true
            }
            Item::Command { meta, .. } => {
                *seen = true;
                let mut inside = false;
                meta.in_order(&mut inside)
            }
            Item::Flag { .. } | Item::Argument { .. } => !*seen,
        }
    }
}

impl Meta {
    /// Whether it is in order behind what stands before it; `seen` as in `all_in_order`.
    #[cycle(order)]
    fn in_order(&self, seen: &mut bool) -> bool
        ensures order { result ≡ in_order (shape_of self.now) seen.old }
        ensures seen { seen.new ≡ (seen.old || has_word (shape_of self.now)) }
    {
        match self {
            Meta::And(all) => all_in_order(all, seen),
            Meta::Or(all) => {
                let (good, seen_in_any) = each_in_order(all, *seen);
                *seen = seen_in_any;
                good
            }
            Meta::Optional(inner)
            | Meta::Required(inner)
            | Meta::Many(inner)
            | Meta::Strict(inner)
            | Meta::Subsection(inner, _)
            | Meta::Suffix(inner, _)
            | Meta::CustomUsage(inner, _) => inner.in_order(seen),
            Meta::Adjacent(inner) => {
                let mut inside = false;
                inner.in_order(&mut inside)
            }
            Meta::Item(item) => item.in_order(seen),
            Meta::Skip => true,
        }
    }

    /// Whether no key stands behind a word or a command (bpaf's `positional_invariant_check`, which
    /// panics in place of the answer `false`).
    ///
    /// A word that may stand anywhere counts as a key. Each member of an Or is looked at by itself;
    /// the inside of a command and of adjacent items is apart from what stands before it.
    pub fn positional_order(&self) -> bool
        ensures { result ≡ in_order (shape_of self.now) false }
    {
        let mut seen = false;
        self.in_order(&mut seen)
    }
}

impl<'a> MetaInfo<'a> {
    /// Whether no key stands behind a word or a command in the tree, as [`Meta::positional_order`].
    pub fn positional_order(self) -> bool
        ensures { result ≡ in_order (shape_of self.entry.0.now) false }
    {
        self.meta().positional_order()
    }
}
