//! Help pages that no description can say.
use crate::shared::file;
use bpaf::{Doc, Parser, any, construct, literal};
use std::alloc::{AllocError, Global};
use std::test::Fail;
use test_support::{answers, answers_of, num, reads, verbose};

/// A document of one line.
fn doc(alloc: Global, text: &str) -> Result<Doc, AllocError> {
    Doc::from_text(alloc, text)
}

/// What a word with a help answers to lines of words.
fn helped(alloc: Global, lines: &[&[&str]]) -> Result<String, AllocError> {
    let file = file().help(doc(alloc, "File to process")?);
    answers(alloc, file, lines)
}

/// The page of it.
const HELP_OF_FILE: &str = "out Usage: FILE\n\n\
    Available positional items:\n    \
    FILE        File to process\n\n\
    Available options:\n    \
    -h, --help  Prints help information\n\n";

/// The same, and the word, each behind a refusal.
const AGAIN: &str = "err `b` is not expected in this context\n\
    out Usage: FILE\n\n\
    Available positional items:\n    \
    FILE        File to process\n\n\
    Available options:\n    \
    -h, --help  Prints help information\n\n\
    err `b` is not expected in this context\n\
    ok \"--help\"\n";

#[test]
fn help_of_a_word(rt: HostRuntime) -> Result<(), Fail> {
    let a = rt.alloc();
    // help_of_positional
    reads(helped(a, &[&["--help"]]), HELP_OF_FILE)?;
    // help_word_after_marker
    reads(helped(a, &[&["--", "--help"]]), "ok \"--help\"\n")?;
    // help_after_refusal
    // help_word_after_refusal
    let lines: [&[&str]; 4] = [&["a", "b"], &["--help"], &["a", "b"], &["--", "--help"]];
    reads(helped(a, &lines), AGAIN)
}

/// The page with a usage of which a closure makes another.
fn own_usage(alloc: Global) -> Result<String, AllocError> {
    let options = verbose(alloc)?.to_options(alloc)?.with_usage(|usage| {
        let mut text = doc(alloc, "Use it so: ")?;
        text.doc(&usage)?;
        Ok(text)
    })?;
    // usage_by_closure
    answers_of(alloc, options, &[&["--help"]])
}

/// The page with the usage of a closure.
const OWN_USAGE: &str = "out Use it so: [-v]\n\n\
    Available options:\n    \
    -v\n    \
    -h, --help  Prints help information\n\n";

#[test]
fn a_closure_makes_the_usage(rt: HostRuntime) -> Result<(), Fail> {
    reads(own_usage(rt.alloc()), OWN_USAGE)
}

/// Leaves with helps that are texts.
fn leaves_with_helps(alloc: Global) -> Result<String, AllocError> {
    let verbose = verbose(alloc)?.help("Print more");
    let num = num(alloc)?.help("A number");
    let go = literal(alloc, "go")?.help_str(alloc, "Begins")?;
    let word = any::<String, bool, _>(alloc, "ANY", |word| match word.as_str() {
        "x" => Some(true),
        _ => None,
    })?;
    let word = word.help_str(alloc, "A word")?;
    answers(alloc, construct!(verbose, num, go, word), &[&["--help"]])
}

/// The page of them.
const HELPS: &str = "out Usage: [-v] -n=NUM go ANY\n\n\
    Available positional items:\n    \
    go          Begins\n    \
    ANY         A word\n\n\
    Available options:\n    \
    -v          Print more\n    \
    -n=NUM      A number\n    \
    -h, --help  Prints help information\n\n";

#[test]
fn helps_are_texts(rt: HostRuntime) -> Result<(), Fail> {
    reads(leaves_with_helps(rt.alloc()), HELPS)
}
