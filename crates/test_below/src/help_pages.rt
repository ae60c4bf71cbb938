//! Help pages of trees, byte for byte; those of whole parsers stand in the rows of these.
use crate::trees::{told, tree};
use bpaf_doc::Meta;
use bpaf_pages::{HelpTexts, render_help};
use std::alloc::{AllocError, Global};
use std::test::Fail;
use test_support::reads;

// The page of two trees, with the name of the program and a text behind the usage.
fn headed(
    alloc: Global,
    name: &str,
    header: &str,
    shown: &Meta,
    extra: &Meta,
) -> Result<String, AllocError> {
    let path = vec![in alloc; String::from_str(alloc, name)?]?;
    let header = told(alloc, header)?;
    let texts = HelpTexts {
        usage: None,
        descr: None,
        header: header.as_ref(),
        footer: None,
    };
    render_help(alloc, path.as_slice(), texts, shown, extra)?.monochrome(true)
}

// The page of a tree and of a description of what stands behind it.
pub(crate) fn page_with(
    alloc: Global,
    shown: &Meta,
    extra: &str,
    name: &str,
    header: &str,
) -> Result<String, AllocError> {
    let extra = tree(alloc, extra)?;
    headed(alloc, name, header, shown, &extra)
}

// The page of a description and of what stands behind it.
fn page(
    alloc: Global,
    lines: &str,
    extra: &str,
    name: &str,
    header: &str,
) -> Result<String, AllocError> {
    let shown = tree(alloc, lines)?;
    page_with(alloc, &shown, extra, name, header)
}

const HELP: &str = "flag h help Prints help information";

const SECTIONS: &str = "flag v verbose Print more
suffix [default: off]
argument _ level LEVEL How much
word NÄME Its name
and
section Levels
suffix below the last
and
any KEY Anything
flag x _
section Inner
or
section Outer
and
flag q _
command run r Run it
custom RUN
and
skip
section Nothing below
and";

// The page of these.
const PAGE: &str = "Usage: run --verbose --level=LEVEL NÄME (KEY | -x) RUN

Of all parts

Levels
        --level=LEVEL  How much
    NÄME               Its name
                       below the last

Outer
    KEY                Anything

Inner
    -x

Nothing below

Available options:
    -v, --verbose      Print more
                       [default: off]
    -h, --help         Prints help information

Available commands:
    run, r             Run it
";

#[test]
fn page_of_sections(rt: HostRuntime) -> Result<(), Fail> {
    reads(
        page(rt.alloc(), SECTIONS, HELP, "run", "Of all parts"),
        PAGE,
    )
}
