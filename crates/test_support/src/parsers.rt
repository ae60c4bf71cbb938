//! What parsers answer to lines of words, as tests compare it.
use bpaf_core::{OptionParser, Parser};
use bpaf_doc::Doc;
use bpaf_line::ParseFailure;
use bpaf_text::{ParseArgument, ParseFlag, short};
use bpaf_words::Args;
use std::alloc::{AllocError, Global};
use std::fmt::Debug;

/// The value of a parser on words; none where they are refused.
pub fn value<T: Drop, P: Parser<T> + Drop>(
    alloc: Global,
    parser: P,
    words: &[&str],
) -> Result<Option<T>, AllocError>
    requires { P.can_eval parser }
{
    Ok(parser.run_once(alloc, Args::from(words)).ok())
}

/// A switch of this name.
pub fn switch(alloc: Global, name: char) -> Result<ParseFlag<bool>, AllocError> {
    Ok(short(alloc, name)?.switch())
}

/// A number behind this name.
pub fn number(alloc: Global, name: char) -> Result<ParseArgument<u64>, AllocError> {
    Ok(short(alloc, name)?.argument("NUM"))
}

/// The switch `-v`.
pub fn verbose(alloc: Global) -> Result<ParseFlag<bool>, AllocError> {
    switch(alloc, 'v')
}

/// The number behind `-n`.
pub fn num(alloc: Global) -> Result<ParseArgument<u64>, AllocError> {
    number(alloc, 'n')
}

/// A kind of answer and its text.
fn kind_and_text(alloc: Global, kind: &str, doc: &Doc, full: bool) -> Result<String, AllocError> {
    let text = doc.monochrome(full)?;
    format!(in alloc; "{kind} {text}")
}

/// What a run answers: `ok` and the value as Rust's Debug prints it, `err` and the message, `out`
/// and a text that was asked for, or `full` and one that was asked for in full.
pub(crate) fn told<T: Debug + Drop>(
    alloc: Global,
    answer: Result<T, ParseFailure>,
) -> Result<String, AllocError> {
    match answer {
        Ok(value) => format!(in alloc; "ok {value:?}"),
        Err(ParseFailure::Memory) => Err(AllocError),
        Err(ParseFailure::Stderr(doc)) => kind_and_text(alloc, "err", &doc, true),
        Err(ParseFailure::Stdout(doc, false)) => kind_and_text(alloc, "out", &doc, false),
        Err(ParseFailure::Stdout(doc, true)) => kind_and_text(alloc, "full", &doc, true),
    }
}

/// What a parser answers to lines of words, a line each.
pub fn answers<T: Debug + Drop, P: Parser<T> + Drop>(
    alloc: Global,
    parser: P,
    lines: &[&[&str]],
) -> Result<String, AllocError>
    requires { P.can_eval parser }
{
    answers_of(alloc, parser.to_options(alloc)?, lines)
}

/// The same of options.
pub fn answers_of<T: Debug + Drop, P: Parser<T> + Drop>(
    alloc: Global,
    options: OptionParser<T, P>,
    lines: &[&[&str]],
) -> Result<String, AllocError>
    requires { P.can_eval options.inner }
{
    let mut out = String::new(alloc);
    for words in lines {
        let told = told(alloc, options.run_inner(Args::from(*words)))?;
        writeln!(out, "{told}")?;
    }
    Ok(out)
}
