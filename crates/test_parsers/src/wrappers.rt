//! Parsers that are shown otherwise.
use bpaf_core::Parser;
use bpaf_doc::{Doc, Meta, MetaInfo};
use std::alloc::{AllocError, Global};
use std::test::Fail;
use test_support::{num, reads, value};

/// A kind of what is shown, and its text between marks.
fn tagged(alloc: Global, kind: &str, text: &Doc) -> Result<String, AllocError> {
    let text = text.monochrome(true)?;
    format!(in alloc; "{kind} `{text}`")
}

/// What a wrapper shows: its text in the usage, the title of its section, or nothing.
fn told(alloc: Global, meta: &Meta) -> Result<String, AllocError> {
    match meta {
        Meta::CustomUsage(_, usage) => tagged(alloc, "usage", usage),
        Meta::Subsection(_, title) => tagged(alloc, "section", title),
        Meta::Skip => String::from_str(alloc, "nothing"),
        _ => String::from_str(alloc, "another"),
    }
}

/// What a parser of a number shows, and its value on words.
fn shown<P: Parser<u64> + Drop>(alloc: Global, parser: P) -> Result<String, AllocError>
    requires { P.can_eval parser }
{
    let meta = parser.meta(alloc)?;
    let shown = told(alloc, &meta)?;
    let value = value(alloc, parser, &["-n", "3"])?;
    format!(in alloc; "{shown} {value:?}")
}

/// A title that tells what is shown below it.
fn title(alloc: Global, shown: MetaInfo<'_>) -> Result<Doc, AllocError> {
    let mut flags = Vec::new(alloc);
    let mut arguments = Vec::new(alloc);
    shown.collect_shorts(&mut flags, &mut arguments)?;
    let flags = flags.len();
    let arguments = arguments.len();
    let first = shown.first_item().is_some();
    let ordered = shown.positional_order();
    let text = format!(in alloc; "{flags} {arguments} {first} {ordered}")?;
    Doc::from_text(alloc, text.as_str())
}

/// A parser that isn't shown.
fn hidden(alloc: Global) -> Result<String, AllocError> {
    shown(alloc, num(alloc)?.hide())
}

/// A parser of which nothing stands in the usage.
fn without_usage(alloc: Global) -> Result<String, AllocError> {
    shown(alloc, num(alloc)?.hide_usage())
}

/// A parser with a usage of its own.
fn with_usage(alloc: Global) -> Result<String, AllocError> {
    let usage = Doc::from_text(alloc, "a number")?;
    shown(alloc, num(alloc)?.custom_usage(usage))
}

/// A parser in a section.
fn in_section(alloc: Global) -> Result<String, AllocError> {
    let title = Doc::from_text(alloc, "Numbers")?;
    shown(alloc, num(alloc)?.group_help(title))
}

/// A parser in a section with a title by a closure.
fn in_titled_section(alloc: Global) -> Result<String, AllocError> {
    shown(
        alloc,
        num(alloc)?.with_group_help(|shown| title(alloc, shown)),
    )
}

#[test]
fn wrappers_show_their_texts(rt: HostRuntime) -> Result<(), Fail> {
    let alloc = rt.alloc();
    reads(hidden(alloc), "nothing Some(3)")?;
    reads(without_usage(alloc), "usage `` Some(3)")?;
    reads(with_usage(alloc), "usage `a number` Some(3)")?;
    reads(in_section(alloc), "section `Numbers` Some(3)")?;
    reads(in_titled_section(alloc), "section `0 1 true true` Some(3)")
}
