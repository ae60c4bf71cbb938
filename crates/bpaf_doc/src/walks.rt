//! Walks over what is shown: its first item, and its short names.
ghost use Rattle.std.specs.Prelude.{◌≡◌, ◌++◌, OnOk, MatchOption, Some, None};
ghost use Rattle.bpaf_doc.specs.Shape.{shape_of, part_of, member_shapes, And, Shown, flag_shorts};
ghost use Rattle.bpaf_doc.specs.Shape.{argument_shorts, first_part};

use crate::item::Item;
use crate::meta::{Meta, MetaInfo};
use std::alloc::AllocError;

/// Appends the names of all members, as `Meta::collect_shorts` those of one.
#[cycle(collect)]
fn collect_all(
    all: &[Meta],
    flags: &mut Vec<char>,
    arguments: &mut Vec<char>,
) -> Result<(), AllocError>
    ensures flags { OnOk result (flags.new.items
        ≡ flags.old.items ++ flag_shorts (And (member_shapes all.now))) }
    ensures arguments { OnOk result (arguments.new.items
        ≡ arguments.old.items ++ argument_shorts (And (member_shapes all.now))) }
{
    for member in all {
        member.collect_shorts(flags, arguments)?;
    }
    Ok(())
}

impl Item {
    /// Appends its short names, those of a flag to the one list and those of an argument to the
    /// other; of a command the names of what it shows.
    #[cycle(collect)]
    fn collect_shorts(
        &self,
        flags: &mut Vec<char>,
        arguments: &mut Vec<char>,
    ) -> Result<(), AllocError>
        ensures flags { OnOk result (flags.new.items
            ≡ flags.old.items ++ flag_shorts (Shown (part_of self.now))) }
        ensures arguments { OnOk result (arguments.new.items
            ≡ arguments.old.items ++ argument_shorts (Shown (part_of self.now))) }
    {
        match self {
            Item::Flag { shorts, .. } => flags.extend_from_slice(shorts),
            Item::Argument { shorts, .. } => arguments.extend_from_slice(shorts),
            Item::Command { meta, .. } => meta.collect_shorts(flags, arguments),
            Item::Any { .. } | Item::Positional { .. } => Ok(()),
        }
    }
}

impl Meta {
    /// Appends the short names of all flags that it shows, hidden aliases and those inside commands
    /// too, to the one list, and those of all arguments to the other (bpaf's `collect_shorts`).
    ///
    /// Refused only for want of memory.
    #[cycle(collect)]
    pub fn collect_shorts(
        &self,
        flags: &mut Vec<char>,
        arguments: &mut Vec<char>,
    ) -> Result<(), AllocError>
        ensures flags { OnOk result (flags.new.items
            ≡ flags.old.items ++ flag_shorts (shape_of self.now)) }
        ensures arguments { OnOk result (arguments.new.items
            ≡ arguments.old.items ++ argument_shorts (shape_of self.now)) }
    {
        match self {
            Meta::And(all) | Meta::Or(all) => collect_all(all, flags, arguments),
            Meta::Optional(inner)
            | Meta::Required(inner)
            | Meta::Adjacent(inner)
            | Meta::Many(inner)
            | Meta::Strict(inner)
            | Meta::Subsection(inner, _)
            | Meta::Suffix(inner, _)
            | Meta::CustomUsage(inner, _) => inner.collect_shorts(flags, arguments),
            Meta::Item(item) => item.collect_shorts(flags, arguments),
            Meta::Skip => Ok(()),
        }
    }

    /// The item that stands first: of members that are all wanted that of the first one, of members
    /// to choose from none (bpaf's `first_item`).
    pub fn first_item(&self) -> Option<&Item>
        ensures { MatchOption result
            (first_part (shape_of self.now) ≡ None)
            (λ item. first_part (shape_of self.now) ≡ Some (part_of item.now)) }
    {
        match self {
            Meta::And(all) => match all.first() {
                None => None,
                Some(first) => first.first_item(),
            },
            Meta::Or(_) | Meta::Skip => None,
            Meta::Optional(inner)
            | Meta::Required(inner)
            | Meta::Adjacent(inner)
            | Meta::Many(inner)
            | Meta::Strict(inner)
            | Meta::Subsection(inner, _)
            | Meta::Suffix(inner, _)
            | Meta::CustomUsage(inner, _) => inner.first_item(),
            Meta::Item(item) => Some(item),
        }
    }
}

impl<'a> MetaInfo<'a> {
    /// Appends the short names that the tree shows, as [`Meta::collect_shorts`].
    ///
    /// Refused only for want of memory.
    pub fn collect_shorts(
        self,
        flags: &mut Vec<char>,
        arguments: &mut Vec<char>,
    ) -> Result<(), AllocError>
        ensures flags { OnOk result (flags.new.items
            ≡ flags.old.items ++ flag_shorts (shape_of self.entry.0.now)) }
        ensures arguments { OnOk result (arguments.new.items
            ≡ arguments.old.items ++ argument_shorts (shape_of self.entry.0.now)) }
    {
        self.meta().collect_shorts(flags, arguments)
    }

    /// The item that stands first in the tree, as [`Meta::first_item`].
    pub fn first_item(self) -> Option<&'a Item>
        ensures { MatchOption result
            (first_part (shape_of self.entry.0.now) ≡ None)
            (λ item. first_part (shape_of self.entry.0.now) ≡ Some (part_of item.now)) }
    {
        self.meta().first_item()
    }
}
