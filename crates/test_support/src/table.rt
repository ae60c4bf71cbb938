//! Rows that stand in a text: tables of words and answers.
use crate::parsers::told;
use bpaf_core::{OptionParser, Parser};
use bpaf_line::ParseFailure;
use bpaf_words::Args;
use std::alloc::{AllocError, Global};
use std::fmt::Debug;
use std::test::Fail;

/// A row of a table: the words of a line, and what stands behind them.
#[derive(Drop)]
pub struct Row<'a> {
    /// The words.
    pub words: Vec<&'a str>,
    /// What is wanted of them.
    pub wanted: &'a str,
}

/// What stands before a mark, and what behind it; all of a text without one stands before it.
pub fn cut<'a>(text: &'a str, mark: &str) -> (&'a str, &'a str) {
    text.split_once(mark).unwrap_or((text, ""))
}

/// Words that are parted by spaces; `''` is the empty one.
fn words_of<'a>(alloc: Global, line: &'a str) -> Result<Vec<&'a str>, AllocError> {
    let mut words = Vec::new(alloc);
    for word in line.split_whitespace() {
        words.push(if word == "''" { "" } else { word })?;
    }
    Ok(words)
}

/// The rows of a table. Each is a line: words, and behind a bar what is wanted of them. A line that
/// is empty or begins with `#` is none.
pub fn rows_of<'a>(alloc: Global, table: &'a str) -> Result<Vec<Row<'a>>, AllocError> {
    let mut rows = Vec::new(alloc);
    for line in table.split('\n') {
        if !line.is_empty() && !line.starts_with('#') {
            let (words, wanted) = cut(line, " | ");
            let words = words_of(alloc, words)?;
            rows.push(Row { words, wanted })?;
        }
    }
    Ok(rows)
}

/// Whether an answer is the wanted one, for which `refused` is any message and `shown` any text
/// that was asked for.
fn is_wanted(found: &str, wanted: &str) -> bool {
    found == wanted
        || (wanted == "refused" && found.starts_with("err "))
        || (wanted == "shown" && (found.starts_with("out ") || found.starts_with("full ")))
}

/// Compares an answer with the wanted one; where they differ the failure is the answer.
pub fn fits<T: Debug + Drop>(
    alloc: Global,
    answer: Result<T, ParseFailure>,
    wanted: &str,
) -> Result<(), Fail> {
    let found = told(alloc, answer)?;
    if is_wanted(found.as_str(), wanted) {
        Ok(())
    } else {
        Err(Fail::new(found))
    }
}

/// Runs options on each beginning of these words. Each returns, and none wants memory.
fn run_beginnings<T: Debug + Drop, P: Parser<T> + Drop>(
    alloc: Global,
    options: &OptionParser<T, P>,
    words: &[&str],
) -> Result<(), Fail>
    requires { P.can_eval options.now.inner }
{
    for count in 0..words.len() {
        drop(told(alloc, options.run_inner(Args::from(&words[..count])))?);
    }
    Ok(())
}

/// Runs a parser on the words of each row, and compares the answers; and on each beginning of them.
pub fn walk<T: Debug + Drop, P: Parser<T> + Drop>(
    alloc: Global,
    parser: P,
    table: &str,
) -> Result<(), Fail>
    requires { P.can_eval parser }
{
    walk_of(alloc, parser.to_options(alloc)?, table)
}

/// The same of options.
pub fn walk_of<T: Debug + Drop, P: Parser<T> + Drop>(
    alloc: Global,
    options: OptionParser<T, P>,
    table: &str,
) -> Result<(), Fail>
    requires { P.can_eval options.inner }
{
    for row in rows_of(alloc, table)? {
        run_beginnings(alloc, &options, row.words.as_slice())?;
        let answer = options.run_inner(Args::from(row.words.as_slice()));
        fits(alloc, answer, row.wanted)?;
    }
    Ok(())
}
