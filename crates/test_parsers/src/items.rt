//! Items by their text at types that no description has.
use crate::shared::file;
use bpaf::{Doc, Item, Meta, Parser, Style, any, construct, literal};
use std::alloc::{AllocError, Global};
use std::test::Fail;
use test_support::{prints, reads, value};

/// The first small number among words, and the other words.
fn small_number(alloc: Global, words: &[&str]) -> Result<Option<(u64, Vec<String>)>, AllocError> {
    let small = any::<u64, u64, _>(alloc, "N", |n| if n < 10 { Some(n) } else { None })?;
    let metavar = Doc::from_text(alloc, "SMALL")?;
    let small = small.metavar(metavar).help(Doc::new(alloc)).anywhere();
    value(alloc, construct!(small, files(file().many())), words)
}

#[test]
fn any_reads_its_type(rt: HostRuntime) -> Result<(), Fail> {
    let a = rt.alloc();
    // any_of_a_number
    let small = small_number(a, &["x", "12", "3"]);
    prints(a, small, "Some((3, [\"x\", \"12\"]))")?;
    prints(a, small_number(a, &["x", "12"]), "None")
}

/// What an item by its text shows: its metavar, whether it has a help, and whether it may stand
/// anywhere.
fn told(alloc: Global, meta: &Meta) -> Result<String, AllocError> {
    let Meta::Item(
        Item::Any {
            metavar,
            help,
            anywhere,
        },
    ) = meta
    else {
        return String::from_str(alloc, "another");
    };
    let helped = help.is_some();
    let text = metavar.monochrome(true)?;
    format!(in alloc; "item `{text}` {helped} {anywhere}")
}

/// A literal with another metavar and a help.
fn shown_literal(alloc: Global) -> Result<String, AllocError> {
    let metavar = Doc::from_pieces(alloc, &[("GO", Style::Metavar)])?;
    let help = Doc::from_text(alloc, "starts")?;
    let go = literal(alloc, "go")?.metavar(metavar).help(help);
    let meta = go.anywhere().meta(alloc)?;
    told(alloc, &meta)
}

#[test]
fn literal_shows_its_metavar(rt: HostRuntime) -> Result<(), Fail> {
    reads(shown_literal(rt.alloc()), "item `GO` true true")
}
