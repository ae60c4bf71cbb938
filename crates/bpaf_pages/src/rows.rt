//! The lines of a help page, as they are printed.
ghost use Rattle.std.specs.Prelude.{◌≡◌, ◌++◌, None, Some, IfOk, OnOk, MatchOption, codes};
ghost use Rattle.std.specs.Prelude.{replicate, string_bytes, map};
ghost use Rattle.bpaf_doc.specs.{Shape.part_of, Shape.name_of, Print.Prints, Print.prints};
ghost use Rattle.bpaf_pages.specs.Help.{Listed, same_place, lines_at, key_names, also_short};
ghost use Rattle.bpaf_pages.specs.Help.{list_name, help_of, width_of, name_width, widest, column};
ghost use Rattle.bpaf_pages.specs.Help.{line_text, rows};
ghost use Rattle.bpaf_pages.specs.InsideLine.{told_of, line_of};

use crate::lines::{Lines, ListPlace, Told};
use bpaf_doc::{Doc, Item, ShortLong, Style};
use std::alloc::{AllocError, Global};

/// How many characters a text has.
#[tactic(auto, using(std::proofs::lemmas::Str::chars_from_encodes))]
fn width_of(text: &str) -> usize
    ensures { result ≡ width_of text.now }
{
    text.chars().count()
}

/// Appends so many spaces.
fn push_spaces(text: &mut String, count: usize) -> Result<(), AllocError>
    ensures { OnOk result (string_bytes text.new
        ≡ string_bytes text.old ++ replicate count 32) }
{
    for done in 0..count {
        text.push(' ')?;
    }
    Ok(())
}

/// A name as the beginning of a line, up to the column where what is said of it begins.
fn column(alloc: Global, width: usize, name: &str) -> Result<String, AllocError>
    ensures { IfOk result (λ text. string_bytes text ≡ column width name.now) }
{
    let mut text = String::from_str(alloc, "    ")?;
    text.push_str(name)?;
    push_spaces(&mut text, width.saturating_sub(width_of(name)))?;
    text.push_str("  ")?;
    Ok(text)
}

/// The line of a name of which nothing is said.
fn bare_line(alloc: Global, name: &str) -> Result<Doc, AllocError>
    ensures { IfOk result (Prints (λ full. codes "    " ++ name.now ++ codes "\n")) }
{
    let pieces = [
        ("    ", Style::Text),
        (name, Style::Literal),
        ("\n", Style::Text),
    ];
    Doc::from_pieces(alloc, &pieces)
}

/// The line of a name and what is said of it.
fn told_line(alloc: Global, width: usize, name: &str, told: &Doc) -> Result<Doc, AllocError>
    ensures { IfOk result (Prints
        (λ full. column width name.now ++ prints told.now full ++ codes "\n")) }
{
    let column = column(alloc, width, name)?;
    let mut doc = Doc::new(alloc);
    doc.write(Style::Literal, column.as_str())?;
    doc.doc(told)?;
    doc.write(Style::Text, "\n")?;
    Ok(doc)
}

/// The names of a key as a list shows them: a long name alone stands below other long names.
fn key_names(alloc: Global, name: &ShortLong) -> Result<String, AllocError>
    ensures { IfOk result (λ text. string_bytes text ≡ key_names (name_of name.now)) }
{
    match name {
        ShortLong::Short(short) => format!(in alloc; "-{short}"),
        ShortLong::Long(long) => format!(in alloc; "    --{long}"),
        ShortLong::Both(short, long) => format!(in alloc; "-{short}, --{long}"),
    }
}

/// The names of a command as a list shows them.
fn command_names(alloc: Global, name: &str, short: Option<char>) -> Result<String, AllocError>
    ensures { IfOk result (λ text. string_bytes text ≡ name.now ++ also_short short) }
{
    match short {
        None => String::from_str(alloc, name),
        Some(short) => format!(in alloc; "{name}, {short}"),
    }
}

/// The name of an item as a list shows it.
fn list_name(alloc: Global, item: &Item) -> Result<String, AllocError>
    ensures { IfOk result (λ text. string_bytes text ≡ list_name (part_of item.now)) }
{
    match item {
        Item::Any { metavar, .. } => metavar.monochrome(true),
        Item::Positional { metavar, .. } => String::from_str(alloc, metavar.as_str()),
        Item::Command { name, short, .. } => command_names(alloc, name.as_str(), *short),
        Item::Flag { name, .. } => key_names(alloc, name),
        Item::Argument { name, metavar, .. } => {
            let mut text = key_names(alloc, name)?;
            text.push('=')?;
            text.push_str(metavar.as_str())?;
            Ok(text)
        }
    }
}

/// The help of an item.
fn help_of(item: &Item) -> Option<&Doc>
    ensures { MatchOption result
        (help_of (part_of item.now) ≡ None)
        (λ help. help_of (part_of item.now) ≡ Some help.now) }
{
    match item {
        Item::Any { help, .. }
        | Item::Positional { help, .. }
        | Item::Command { help, .. }
        | Item::Flag { help, .. }
        | Item::Argument { help, .. } => help.as_ref(),
    }
}

/// The line of an item, where names have this width.
fn item_line(alloc: Global, width: usize, item: &Item) -> Result<Doc, AllocError>
    ensures { IfOk result (Prints (line_text width (Listed (part_of item.now)))) }
{
    let name = list_name(alloc, item)?;
    match help_of(item) {
        None => bare_line(alloc, name.as_str()),
        Some(help) => {
            if help.is_empty() {
                bare_line(alloc, name.as_str())
            } else {
                told_line(alloc, width, name.as_str(), help)
            }
        }
    }
}

impl<'a> Told<'a> {
    /// How wide its name is; a text below others has none.
    fn name_width(&self, alloc: Global) -> Result<usize, AllocError>
        ensures { IfOk result (λ width. width ≡ name_width (told_of self.now)) }
    {
        match self {
            Told::Listed(item) => {
                let name = list_name(alloc, item)?;
                Ok(width_of(name.as_str()))
            }
            Told::Below(_) => Ok(0),
        }
    }

    /// The line, where names have this width.
    fn line(&self, alloc: Global, width: usize) -> Result<Doc, AllocError>
        ensures { IfOk result (Prints (line_text width (told_of self.now))) }
    {
        match self {
            Told::Listed(item) => item_line(alloc, width, item),
            Told::Below(text) => told_line(alloc, width, "", text),
        }
    }
}

impl ListPlace {
    /// Whether the other place is the same one.
    fn is_same(&self, other: &ListPlace) -> bool
        ensures { result ≡ same_place self.now other.now }
    {
        match (self, other) {
            (ListPlace::Positionals, ListPlace::Positionals) => true,
            (ListPlace::Options, ListPlace::Options) => true,
            (ListPlace::Commands, ListPlace::Commands) => true,
            (ListPlace::Section(one), ListPlace::Section(other)) => *one == *other,
            _ => false,
        }
    }
}

impl<'a> Lines<'a> {
    /// The width of the widest name.
    pub(crate) fn widest(&self, alloc: Global) -> Result<usize, AllocError>
        ensures { IfOk result (λ width. width ≡ widest (map line_of self.now.all.items)) }
    {
        let mut widest = 0;
        for line in &self.all {
            let width = line.told.name_width(alloc)?;
            if widest < width {
                widest = width;
            }
        }
        Ok(widest)
    }

    /// The lines that stand in one place, where names have this width.
    pub(crate) fn rows(
        &self,
        alloc: Global,
        width: usize,
        place: ListPlace,
    ) -> Result<Doc, AllocError>
        ensures { IfOk result (Prints
            (rows width (lines_at place (map line_of self.now.all.items)))) }
    {
        let mut doc = Doc::new(alloc);
        for line in &self.all {
            if place.is_same(&line.place) {
                let row = line.told.line(alloc, width)?;
                doc.doc(&row)?;
            }
        }
        Ok(doc)
    }
}
