//! The lines of a help page: the items that a tree shows, and the texts of its suffixes.
ghost use Rattle.std.specs.Prelude.{◌≡◌, ◌++◌, [], OnOk, length, drop, map};
ghost use Rattle.bpaf_doc.specs.Shape.{shape_of, member_shapes, part_of, Subsection, Suffix, Shown};
ghost use Rattle.bpaf_pages.specs.Help.{lines, lines_of_all, titles, titles_of_all, below_last};
ghost use Rattle.bpaf_pages.specs.{Help.list_of, Help.place_in, InsideLine.line_of};

use bpaf_doc::{Doc, Item, Meta};
use std::alloc::{AllocError, Global};
use std::marker::Model;

/// Where a line stands: in a list of the whole page, or in the section of this number, from 0.
#[derive(Clone, Copy)]
pub(crate) enum ListPlace {
    Positionals,
    Options,
    Commands,
    Section(usize),
}

/// What a line tells: an item, or the text of a suffix.
#[derive(Clone, Copy)]
pub(crate) enum Told<'a> {
    Listed(&'a Item),
    Below(&'a Doc),
}

/// One line of a page.
#[derive(Drop)]
pub(crate) struct Line<'a> {
    pub(crate) place: ListPlace,
    pub(crate) told: Told<'a>,
}

/// The title of a section.
#[derive(Drop)]
pub(crate) struct Title<'a> {
    pub(crate) text: &'a Doc,
}

impl<'a> Model for Title<'a> {
    ghost use Rattle.std.specs.Prelude.{List};
    ghost use Rattle.bpaf_doc.specs.declared.doc.Piece.{Piece};

    ghost Value = { List Piece };

    ghost view = { λ t. t.text.now };
}

/// The lines of a page, and the titles of its sections.
#[derive(Drop)]
pub(crate) struct Lines<'a> {
    pub(crate) titles: Vec<Title<'a>>,
    pub(crate) all: Vec<Line<'a>>,
}

/// The list in which an item stands outside of all sections.
fn list_of(item: &Item) -> ListPlace
    ensures { result ≡ list_of (part_of item.now) }
{
    match item {
        Item::Any { anywhere, .. } => {
            if *anywhere {
                ListPlace::Options
            } else {
                ListPlace::Positionals
            }
        }
        Item::Positional { .. } => ListPlace::Positionals,
        Item::Command { .. } => ListPlace::Commands,
        Item::Flag { .. } | Item::Argument { .. } => ListPlace::Options,
    }
}

/// Where an item stands, inside a section or outside.
fn place_in(home: Option<usize>, item: &Item) -> ListPlace
    ensures { result ≡ place_in home (part_of item.now) }
{
    match home {
        None => list_of(item),
        Some(section) => ListPlace::Section(section),
    }
}

impl<'a> Lines<'a> {
    /// No lines. It takes no memory.
    pub(crate) fn new(alloc: Global) -> Lines<'a>
        ensures titles { result.titles.items ≡ [] }
        ensures all { result.all.items ≡ [] }
    {
        Lines {
            titles: Vec::new(alloc),
            all: Vec::new(alloc),
        }
    }

    /// Appends a text below the last of the lines from this one on, none where there is no line.
    #[tactic(auto, using(crate::proofs::Paging::below_put))]
    fn push_below(&mut self, from: usize, text: &'a Doc) -> Result<(), AllocError>
        ensures all { OnOk result (map line_of self.new.all.items
            ≡ map line_of self.old.all.items
            ++ below_last text.now (drop from (map line_of self.old.all.items))) }
        ensures titles { self.new.titles.items ≡ self.old.titles.items }
    {
        let len = self.all.len();
        if from < len {
            let place = self.all[len - 1].place;
            self.all.push(Line {
                place,
                told: Told::Below(text),
            })?;
        }
        Ok(())
    }

    /// Appends the lines of all members, as `collect` those of one.
    #[cycle(lines)]
    fn collect_all(&mut self, all: &'a [Meta], home: Option<usize>) -> Result<(), AllocError>
        ensures all { OnOk result (map line_of self.new.all.items
            ≡ map line_of self.old.all.items
            ++ lines_of_all (member_shapes all.now) home (length self.old.titles.items)) }
        ensures titles { OnOk result (self.new.titles.items
            ≡ self.old.titles.items ++ titles_of_all (member_shapes all.now)) }
    {
        for member in all {
            self.collect(member, home)?;
        }
        Ok(())
    }

    /// Appends an item, which stands in the section of a number or outside.
    fn push_item(&mut self, item: &'a Item, home: Option<usize>) -> Result<(), AllocError>
        ensures all { OnOk result (map line_of self.new.all.items
            ≡ map line_of self.old.all.items
            ++ lines (Shown (part_of item.now)) home (length self.old.titles.items)) }
        ensures titles { OnOk result (self.new.titles.items ≡ self.old.titles.items) }
    {
        let place = place_in(home, item);
        self.all.push(Line {
            place,
            told: Told::Listed(item),
        })?;
        Ok(())
    }

    /// Appends the title and the lines of a section.
    #[cycle(lines)]
    fn collect_section(
        &mut self,
        inner: &'a Meta,
        title: &'a Doc,
        home: Option<usize>,
    ) -> Result<(), AllocError>
        ensures all { OnOk result (map line_of self.new.all.items
            ≡ map line_of self.old.all.items
            ++ lines (Subsection (shape_of inner.now) title.now) home
            (length self.old.titles.items)) }
        ensures titles { OnOk result (self.new.titles.items
            ≡ self.old.titles.items ++ titles (Subsection (shape_of inner.now) title.now)) }
    {
        let section = self.titles.len();
        self.titles.push(Title { text: title })?;
        self.collect(inner, Some(section))
    }

    /// Appends the lines of a tree and a text below the last one.
    #[cycle(lines)]
    fn collect_above(
        &mut self,
        inner: &'a Meta,
        text: &'a Doc,
        home: Option<usize>,
    ) -> Result<(), AllocError>
        ensures all { OnOk result (map line_of self.new.all.items
            ≡ map line_of self.old.all.items
            ++ lines (Suffix (shape_of inner.now) text.now) home
            (length self.old.titles.items)) }
        ensures titles { OnOk result (self.new.titles.items
            ≡ self.old.titles.items ++ titles (Suffix (shape_of inner.now) text.now)) }
    {
        let from = self.all.len();
        self.collect(inner, home)?;
        self.push_below(from, text)
    }

    /// Appends the lines of a tree, which stands in the section of a number or outside, and the
    /// titles of its sections.
    #[cycle(lines)]
    pub(crate) fn collect(&mut self, meta: &'a Meta, home: Option<usize>) -> Result<(), AllocError>
        ensures all { OnOk result (map line_of self.new.all.items
            ≡ map line_of self.old.all.items
            ++ lines (shape_of meta.now) home (length self.old.titles.items)) }
        ensures titles { OnOk result (self.new.titles.items
            ≡ self.old.titles.items ++ titles (shape_of meta.now)) }
    {
        match meta {
            Meta::And(all) | Meta::Or(all) => self.collect_all(all, home),
            Meta::Optional(inner)
            | Meta::Required(inner)
            | Meta::Adjacent(inner)
            | Meta::Many(inner)
            | Meta::Strict(inner)
            | Meta::CustomUsage(inner, _) => self.collect(inner, home),
            Meta::Subsection(inner, title) => self.collect_section(inner, title, home),
            Meta::Suffix(inner, text) => self.collect_above(inner, text, home),
            Meta::Item(item) => self.push_item(item, home),
            Meta::Skip => Ok(()),
        }
    }
}
