//! Documents, trees and texts.
use crate::help_pages::page_with;
use crate::trees::tree;
use bpaf_doc::{Doc, Item, Meta, MetaInfo, Style, Text};
use std::alloc::{AllocError, Global};
use std::test::Fail;
use test_support::reads;

// What texts print: in full, without the detail, and as their first line, between bars.
const FOLDED: &[(&str, &str)] = &[
    // doc_line_break_folded
    ("a\nb", "a b|a b|Some(\"a b\")"),
    // doc_line_break_before_space
    ("a\n b", "a\n b|a\n b|Some(\"a\")"),
    // doc_line_break_at_end
    ("a\n", "a\n|a\n|Some(\"a\")"),
    // doc_short_text
    // doc_full_text
    // doc_first_line
    (
        "short\n\nlong one\nmore",
        "short\nlong one more|short|Some(\"short\")",
    ),
    // doc_without_first_line
    // doc_detail_alone
    ("\n\nx", "\nx||None"),
];

// The same of `grown_prints`, no piece of which is a detail, so that both prints are one text.
const GROWN: &str = "ab\ncuse\nd\n`-x`ab\ncuse\nd\n`-x`|\
    ab\ncuse\nd\n`-x`ab\ncuse\nd\n`-x`|Some(\"ab\")";

// The first line of a document, as it is printed.
fn first_line(doc: &Doc) -> Result<Option<String>, AllocError> {
    match doc.first_line()? {
        Some(line) => Ok(Some(line.monochrome(false)?)),
        None => Ok(None),
    }
}

// What a document prints, as in `FOLDED`.
fn prints(alloc: Global, doc: &Doc) -> Result<String, AllocError> {
    let full = doc.monochrome(true)?;
    let brief = doc.monochrome(false)?;
    let line = first_line(doc)?;
    format!(in alloc; "{full}|{brief}|{line:?}")
}

// What a document of one text prints.
fn text_prints(alloc: Global, text: &str) -> Result<String, AllocError> {
    let doc = Doc::from_text(alloc, text)?;
    prints(alloc, &doc)
}

// What a document prints of a piece with a line break and another one.
fn pieces_print(alloc: Global) -> Result<String, AllocError> {
    let doc = Doc::from_pieces(alloc, &[("a\nb", Style::Literal), ("c", Style::Text)])?;
    prints(alloc, &doc)
}

// What a document prints to which each call appended something, and then all of it once more.
fn grown_prints(alloc: Global) -> Result<String, AllocError> {
    let mut doc = Doc::from_pieces(alloc, &[("a", Style::Literal), ("b\nc", Style::Text)])?;
    doc.text("use\n")?;
    doc.literal("d\n")?;
    doc.term(Style::Invalid, "-x")?;
    let copy = doc.copy()?;
    doc.doc(&copy)?;
    prints(alloc, &doc)
}

#[test]
fn documents_are_printed(rt: HostRuntime) -> Result<(), Fail> {
    for (text, wanted) in FOLDED {
        reads(text_prints(rt.alloc(), *text), *wanted)?;
    }
    // doc_pieces_as_they_are
    reads(pieces_print(rt.alloc()), "a\nbc|a\nbc|Some(\"a\")")?;
    // what is appended
    reads(grown_prints(rt.alloc()), GROWN)
}

// Trees and what they answer: the short names of the flags and of the arguments, whether no key
// stands behind a word, and the kind of the first item.
const TREES: &[(&str, &str)] = &[
    (
        "word FILE\nstrict\nargument n size NUM how large\noptional\nflag v _\nand\nand",
        "['v'] ['n'] false word",
    ),
    (
        "here ANY\nargument n _ NUM\noptional\nsection Sizes\nand\ncommand run r\nflag q _\nor",
        "['q'] ['n'] false none",
    ),
    // order_positional_before_flag
    ("word FILE\nflag a _\nand", "['a'] [] false word"),
    // order_flag_before_choice_and_positional
    (
        "flag b _\nword FILE\nflag a _\nor\nword FILE\nall",
        "['b', 'a'] [] true key",
    ),
    // order_choice_with_positional_before_flag
    (
        "word FILE\nflag a _\nor\nflag b _\nand",
        "['a', 'b'] [] false none",
    ),
];

// The kind of an item.
fn kind(item: Option<&Item>) -> &'static str {
    match item {
        None => "none",
        Some(Item::Flag { .. }) => "key",
        Some(Item::Argument { .. }) => "key",
        Some(_) => "word",
    }
}

// What a tree answers, as in `TREES`.
fn answers(alloc: Global, tree: &Meta) -> Result<String, AllocError> {
    let mut flags = Vec::new(alloc);
    let mut arguments = Vec::new(alloc);
    tree.collect_shorts(&mut flags, &mut arguments)?;
    let order = tree.positional_order();
    let first = kind(MetaInfo::new(tree).meta().first_item());
    format!(in alloc; "{flags:?} {arguments:?} {order} {first}")
}

// What the copy of a tree answers; nothing where its help page isn't that of the tree.
fn answers_of_copy(alloc: Global, tree: &Meta, copy: &Meta) -> Result<String, AllocError> {
    let wanted = page_with(alloc, tree, "skip", "app", "")?;
    let told = page_with(alloc, copy, "skip", "app", "")?;
    if told.as_str() == wanted.as_str() {
        answers(alloc, copy)
    } else {
        Ok(String::new(alloc))
    }
}

// What a copy of a tree answers.
fn copy_answers(alloc: Global, tree: &Meta) -> Result<String, AllocError> {
    let copy = tree.copy()?;
    answers_of_copy(alloc, tree, &copy)
}

// What the copy of a row's tree answers.
fn row_answers(alloc: Global, row: &str) -> Result<String, AllocError> {
    let tree = tree(alloc, row)?;
    copy_answers(alloc, &tree)
}

#[test]
fn trees_answer_and_are_copied(rt: HostRuntime) -> Result<(), Fail> {
    for (row, wanted) in TREES {
        reads(row_answers(rt.alloc(), *row), *wanted)?;
    }
    Ok(())
}

// Texts of each way to be kept: empty, the longest that takes no memory, and longer ones.
const TEXTS: &[&str] = &[
    "",
    "-v",
    "größer als zuvor",
    "abcdefghijklmnopqrstuvw",
    "abcdefghijklmnopqrstuvwx",
    "abcdefghijklmnopqrstuvñ",
    "several words that need memory of their own",
];

// How a text and its copy print, and what the copy and a text made of a String say.
fn said(alloc: Global, text: &str) -> Result<String, AllocError> {
    let made = Text::new(alloc, text)?;
    let copy = made.copy()?;
    let owned = Text::from(String::from_str(alloc, text)?);
    let (said, owned) = (copy.as_str(), owned.as_str());
    format!(in alloc; "{made}|{copy:?}|{said}|{owned}")
}

// What they are to print and say.
fn wanted(alloc: Global, text: &str) -> Result<String, AllocError> {
    format!(in alloc; "{text}|{text:?}|{text}|{text}")
}

#[test]
fn texts_say_what_they_are_made_of(rt: HostRuntime) -> Result<(), Fail> {
    for text in TEXTS {
        reads(said(rt.alloc(), *text), wanted(rt.alloc(), *text)?.as_str())?;
    }
    Ok(())
}
