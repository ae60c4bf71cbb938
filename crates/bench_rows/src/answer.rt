//! The answer of a parser for some words, as the text of a row.
use bench_values::Value;
use bpaf_core::{OptionParser, Parser};
use bpaf_doc::Doc;
use bpaf_line::ParseFailure;
use bpaf_words::Args;
use std::alloc::{AllocError, Global};
use std::collections::BTreeMap;

/// What the words of a row are run with.
#[derive(Clone, Copy)]
pub struct Surroundings<'a> {
    /// The name of the program, where one is set.
    pub name: Option<&'a str>,
    /// The environment.
    pub variables: &'a BTreeMap<String, String>,
}

impl<'a> Surroundings<'a> {
    /// These words with them.
    fn args(self, words: &'a [String]) -> Args<'a> {
        let args = Args::from(words).set_env(self.variables);
        match self.name {
            Some(name) => args.set_name(name),
            None => args,
        }
    }
}

/// Appends a text on one line: a line break is `\n`, and a backslash stands twice.
fn push_text(text: &str, out: &mut String) -> Result<(), AllocError> {
    for letter in text.chars() {
        match letter {
            '\\' => out.push_str("\\\\")?,
            '\n' => out.push_str("\\n")?,
            _ => out.push(letter)?,
        }
    }
    Ok(())
}

/// A kind of answer and its text, as one line.
fn kind_and_text(alloc: Global, kind: &str, doc: &Doc, full: bool) -> Result<String, AllocError> {
    let mut out = String::from_str(alloc, kind)?;
    push_text(doc.monochrome(full)?.as_str(), &mut out)?;
    Ok(out)
}

/// What a parser answers to words, as one line: `ok` and the value, `err` and the message, `out`
/// and a text that was asked for, `full` and one that was asked for in full, or `memory` where
/// memory was wanted.
pub fn answer<P: Parser<Value> + Drop>(
    alloc: Global,
    options: &OptionParser<Value, P>,
    surroundings: Surroundings<'_>,
    words: &[String],
) -> Result<String, AllocError>
    requires { P.can_eval options.now.inner }
{
    match options.run_inner(surroundings.args(words)) {
        Ok(value) => {
            let mut out = String::from_str(alloc, "ok ")?;
            value.print(&mut out)?;
            Ok(out)
        }
        Err(ParseFailure::Memory) => String::from_str(alloc, "memory"),
        Err(ParseFailure::Stdout(doc, false)) => kind_and_text(alloc, "out ", &doc, false),
        Err(ParseFailure::Stdout(doc, true)) => kind_and_text(alloc, "full ", &doc, true),
        Err(ParseFailure::Stderr(doc)) => kind_and_text(alloc, "err ", &doc, true),
    }
}

/// Runs a parser on the beginnings of words that are shorter than these, from the empty one on and
/// at most so many, and answers how many it ran.
pub fn run_beginnings<P: Parser<Value> + Drop>(
    alloc: Global,
    options: &OptionParser<Value, P>,
    surroundings: Surroundings<'_>,
    words: &[String],
    most: u64,
) -> Result<u64, AllocError>
    requires { P.can_eval options.now.inner }
{
    let mut ran = 0u64;
    for end in 0..words.len() {
        if ran >= most {
            break;
        }
        answer(alloc, options, surroundings, &words[..end])?;
        ran = ran.saturating_add(1);
    }
    Ok(ran)
}

/// Whether a text is an answer: of a value, of a message, of a text that was asked for, or of want
/// of memory.
pub fn is_answer(text: &str) -> bool {
    text == "err"
        || text == "memory"
        || text.starts_with("ok ")
        || text.starts_with("err ")
        || text.starts_with("err^")
        || text.starts_with("out ")
        || text.starts_with("full ")
}

/// Whether an answer is the wanted one. `err` alone wants any refusal, and `err^` one with a
/// message that begins so.
pub fn is_wanted(wanted: &str, answer: &str) -> bool {
    if wanted == "err" {
        return !answer.starts_with("ok ");
    }
    match wanted.strip_prefix("err^") {
        Some(beginning) => {
            let message = answer.strip_prefix("err ");
            message.is_some_and(|message| message.starts_with(beginning))
        }
        None => wanted == answer,
    }
}
