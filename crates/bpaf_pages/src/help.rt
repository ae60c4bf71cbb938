//! The help page of what a parser shows.
ghost use Rattle.std.specs.Prelude.{◌≡◌, ◌++◌, ◌∷◌, [], None, IfOk, OnOk, codes, flat_map, map};
ghost use Rattle.std.specs.Prelude.{option_copied, string_bytes};
ghost use Rattle.bpaf_doc.specs.Shape.{shape_of, And, none, ◌then◌};
ghost use Rattle.bpaf_doc.specs.Print.{Prints, prints};
ghost use Rattle.bpaf_pages.specs.Help.{around, joined_behind, usage_text, lines, titles, lines_at};
ghost use Rattle.bpaf_pages.specs.Help.{paragraph, prints_of, usage_line, usage_paragraph, rows};
ghost use Rattle.bpaf_pages.specs.Help.{section, sections, opening, lists, help_text};
ghost use Rattle.bpaf_pages.specs.{InsideLine.line_of, InsideHelp.given_by};

use crate::joined::{around, glue};
use crate::lines::{Lines, ListPlace, Title};
use crate::usage::usage_of;
use bpaf_doc::{Doc, Meta, Style};
use std::alloc::{AllocError, Global};

/// The texts of a help page that a program gives; each may be missing (bpaf's `Info`).
#[derive(Clone, Copy)]
pub struct HelpTexts<'a> {
    /// The text in place of the usage line.
    pub usage: Option<&'a Doc>,
    /// The text at the top of the page.
    pub descr: Option<&'a Doc>,
    /// The text before the lists.
    pub header: Option<&'a Doc>,
    /// The text at the end of the page.
    pub footer: Option<&'a Doc>,
}

/// A text that a program gives as a paragraph, nothing where it is missing or empty.
fn given_paragraph(alloc: Global, text: Option<&Doc>) -> Result<Doc, AllocError>
    ensures { IfOk result (Prints (paragraph (prints_of (option_copied text.entry)))) }
{
    match text {
        None => Ok(Doc::new(alloc)),
        Some(text) => around(alloc, "", text, "\n"),
    }
}

/// The word `Usage:` and the path behind it.
fn usage_words(alloc: Global, path: &[String]) -> Result<String, AllocError>
    ensures { IfOk result (λ text. string_bytes text
        ≡ codes "Usage:" ++ flat_map (λ entry. codes " " ++ entry) (map string_bytes path.now)) }
{
    let mut text = String::from_str(alloc, "Usage:")?;
    for entry in path {
        text.push(' ')?;
        text.push_str(entry)?;
    }
    Ok(text)
}

/// The path and the usage text behind the word `Usage:`.
fn usage_line(alloc: Global, path: &[String], usage: &Doc) -> Result<Doc, AllocError>
    ensures { IfOk result (Prints
        (usage_line (map string_bytes path.now) (prints usage.now))) }
{
    let words = usage_words(alloc, path)?;
    let usage = around(alloc, " ", usage, "")?;
    let mut doc = Doc::new(alloc);
    doc.write(Style::Literal, words.as_str())?;
    doc.doc(&usage)?;
    doc.write(Style::Text, "\n")?;
    Ok(doc)
}

/// The usage paragraph: the text that is given, or the line of the path and the usage text.
fn usage_paragraph(
    alloc: Global,
    path: &[String],
    given: Option<&Doc>,
    meta: &Meta,
) -> Result<Doc, AllocError>
    ensures { IfOk result (Prints (usage_paragraph
        (map string_bytes path.now) (option_copied given.entry) (usage_text (shape_of meta.now)))) }
{
    match given {
        Some(given) => around(alloc, "", given, "\n"),
        None => {
            let usage = usage_of(alloc, meta)?;
            usage_line(alloc, path, &usage)
        }
    }
}

/// Appends the paragraphs before the lists.
fn push_opening(
    alloc: Global,
    page: &mut Doc,
    path: &[String],
    texts: HelpTexts<'_>,
    meta: &Meta,
) -> Result<(), AllocError>
    ensures { OnOk result (Prints
        (joined_behind (codes "\n") (prints page.old)
        (opening (map string_bytes path.now) (given_by texts.entry)
        (usage_text (shape_of meta.now))))
        page.new) }
{
    let descr = given_paragraph(alloc, texts.descr)?;
    glue(page, "\n", &descr)?;
    let usage = usage_paragraph(alloc, path, texts.usage, meta)?;
    glue(page, "\n", &usage)?;
    let header = given_paragraph(alloc, texts.header)?;
    glue(page, "\n", &header)
}

impl<'a> Lines<'a> {
    /// The lines of a tree, and of another one behind it.
    fn of_both(alloc: Global, meta: &'a Meta, extra: &'a Meta) -> Result<Lines<'a>, AllocError>
        ensures all { IfOk result (λ both. map line_of both.all.items
            ≡ lines (And (shape_of meta.now then shape_of extra.now then none)) None 0) }
        ensures titles { IfOk result (λ both. both.titles.items
            ≡ titles (And (shape_of meta.now then shape_of extra.now then none))) }
    {
        let mut both = Lines::new(alloc);
        both.collect(meta, None)?;
        both.collect(extra, None)?;
        Ok(both)
    }

    /// The title of a section and its lines.
    fn section(
        &self,
        alloc: Global,
        width: usize,
        number: usize,
        title: &Title<'_>,
    ) -> Result<Doc, AllocError>
        ensures { IfOk result (Prints
            (section width (map line_of self.now.all.items) number title.now)) }
    {
        let mut doc = around(alloc, "", title.text, "\n")?;
        let rows = self.rows(alloc, width, ListPlace::Section(number))?;
        doc.doc(&rows)?;
        Ok(doc)
    }

    /// Appends all sections.
    fn push_sections(&self, alloc: Global, page: &mut Doc, width: usize) -> Result<(), AllocError>
        ensures { OnOk result (Prints
            (joined_behind (codes "\n") (prints page.old)
            (sections width (map line_of self.now.all.items) 0 self.now.titles.items))
            page.new) }
    {
        for (number, title) in self.titles.iter().enumerate() {
            let section = self.section(alloc, width, number, title)?;
            glue(page, "\n", &section)?;
        }
        Ok(())
    }

    /// A heading and the lines in one place, nothing where there is none.
    fn list(
        &self,
        alloc: Global,
        width: usize,
        heading: &str,
        place: ListPlace,
    ) -> Result<Doc, AllocError>
        ensures { IfOk result (Prints (around heading.now []
            (rows width (lines_at place (map line_of self.now.all.items))))) }
    {
        let rows = self.rows(alloc, width, place)?;
        around(alloc, heading, &rows, "")
    }

    /// Appends the lists of all lines outside of sections.
    fn push_lists(&self, alloc: Global, page: &mut Doc, width: usize) -> Result<(), AllocError>
        ensures { OnOk result (Prints
            (joined_behind (codes "\n") (prints page.old)
            (lists width (map line_of self.now.all.items)))
            page.new) }
    {
        let words = self.list(
            alloc,
            width,
            "Available positional items:\n",
            ListPlace::Positionals,
        )?;
        glue(page, "\n", &words)?;
        let options = self.list(alloc, width, "Available options:\n", ListPlace::Options)?;
        glue(page, "\n", &options)?;
        let commands = self.list(alloc, width, "Available commands:\n", ListPlace::Commands)?;
        glue(page, "\n", &commands)?;
        Ok(())
    }
}

/// The help page of the tree (bpaf's `render_help`); refused only for want of memory.
///
/// `path` are the words before the usage text: the name of the program, and of each command. What
/// `extra` shows, the items of help and of the version, stands behind what the tree shows, and not
/// in the usage text. Paragraphs in this order, an empty line between two, empty ones left out: the
/// description; the usage line, or the text in its place; the header; each [`Meta::Subsection`];
/// the lists of words, of options and of commands that stand outside of these; the footer.
///
/// ```text
/// Usage: FILE
///
/// Available positional items:
///     FILE        File to process
///
/// Available options:
///     -h, --help  Prints help information
/// ```
pub fn render_help(
    alloc: Global,
    path: &[String],
    texts: HelpTexts<'_>,
    meta: &Meta,
    extra: &Meta,
) -> Result<Doc, AllocError>
    ensures { IfOk result (Prints (help_text
        (map string_bytes path.now) (given_by texts.entry)
        (shape_of meta.now) (shape_of extra.now))) }
{
    let lines = Lines::of_both(alloc, meta, extra)?;
    let width = lines.widest(alloc)?;
    let mut page = Doc::new(alloc);
    push_opening(alloc, &mut page, path, texts, meta)?;
    lines.push_sections(alloc, &mut page, width)?;
    lines.push_lists(alloc, &mut page, width)?;
    let footer = given_paragraph(alloc, texts.footer)?;
    glue(&mut page, "\n", &footer)?;
    Ok(page)
}
