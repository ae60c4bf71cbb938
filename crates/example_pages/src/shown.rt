//! What changes what is shown of a parser alone, each made and run in one body.
use crate::first::number;
use bpaf::doc::MetaInfo;
use bpaf::{Args, Doc, ParseFailure, Parser, positional};
use std::alloc::{AllocError, Global};

/// A number that isn't shown.
pub fn hidden(alloc: Global, words: &[&str]) -> Result<u64, ParseFailure> {
    let num = number(alloc);
    let hidden = num.hide();
    hidden.run_once(alloc, Args::from(words))
}

/// A number that isn't shown in the usage.
pub fn without_usage(alloc: Global, words: &[&str]) -> Result<u64, ParseFailure> {
    let num = number(alloc);
    let hidden = num.hide_usage();
    hidden.run_once(alloc, Args::from(words))
}

/// A number with a usage of its own.
pub fn with_usage(alloc: Global, words: &[&str]) -> Result<u64, ParseFailure> {
    let num = number(alloc);
    let shown = num.custom_usage(Doc::from_text(alloc, "FROM..TO")?);
    shown.run_once(alloc, Args::from(words))
}

/// A page in a section of its own.
pub fn grouped(alloc: Global, words: &[&str]) -> Result<u64, ParseFailure> {
    let page = positional::<u64>("PAGE");
    let grouped = page.group_help(Doc::from_text(alloc, "Page")?);
    grouped.run_once(alloc, Args::from(words))
}

/// A page in a section whose title a function makes.
pub fn titled(alloc: Global, words: &[&str]) -> Result<u64, ParseFailure> {
    let page = positional::<u64>("PAGE");
    let titled = page.with_group_help(|shown| title(alloc, shown));
    titled.run_once(alloc, Args::from(words))
}

/// The title of what is shown.
fn title(alloc: Global, _shown: MetaInfo<'_>) -> Result<Doc, AllocError> {
    Doc::from_text(alloc, "Pages")
}
