//! The works that are counted, and their words.
use crate::parsers::{flags, last_number, numbers, record, switches};
use std::alloc::{AllocError, Global};

/// What is parsed.
#[derive(Clone, Copy)]
pub enum Work {
    /// A switch, a number and files: `-v -n 3`, and so many files.
    Record,
    /// A choice of two flags, repeated: so many times `-a`, then `-b` and `-a`.
    Choice,
    /// The same over `-a` alone, so that the second branch is missing each time.
    Branch,
    /// A switch, repeated: so many times `-v`.
    Switches,
    /// A switch, repeated: one word of so many `v`.
    Joined,
    /// A switch, repeated, behind so many keys that no parser knows, which is refused.
    Keys,
    /// A number, repeated: so many times `-n 1`.
    Numbers,
    /// A number of which the last one counts, on the same line.
    Last,
}

impl Work {
    /// The work of a name.
    pub fn named(name: &str) -> Option<Work> {
        match name {
            "record" => Some(Work::Record),
            "choice" => Some(Work::Choice),
            "branch" => Some(Work::Branch),
            "switches" => Some(Work::Switches),
            "joined" => Some(Work::Joined),
            "keys" => Some(Work::Keys),
            "numbers" => Some(Work::Numbers),
            "last" => Some(Work::Last),
            _ => None,
        }
    }

    /// Its line of this size.
    pub fn line(self, alloc: Global, size: u32) -> Result<Vec<String>, AllocError> {
        match self {
            Work::Record => times(alloc, words(alloc, &["-v", "-n", "3"])?, size, "w"),
            Work::Choice => {
                let mut line = times(alloc, Vec::new(alloc), size, "-a")?;
                line.push(String::from_str(alloc, "-b")?)?;
                line.push(String::from_str(alloc, "-a")?)?;
                Ok(line)
            }
            Work::Branch => times(alloc, Vec::new(alloc), size, "-a"),
            Work::Switches => times(alloc, Vec::new(alloc), size, "-v"),
            Work::Joined => joined(alloc, size),
            Work::Keys => keys(alloc, size),
            Work::Numbers | Work::Last => pairs(alloc, size),
        }
    }

    /// Builds its parser and runs it on a line: what stands for the answer in the sum.
    pub fn run(self, alloc: Global, line: &[String]) -> u64 {
        match self {
            Work::Record => record(alloc, line).unwrap_or(0),
            Work::Choice | Work::Branch => flags(alloc, line).unwrap_or(0),
            Work::Switches | Work::Joined | Work::Keys => switches(alloc, line).unwrap_or(0),
            Work::Numbers => numbers(alloc, line).unwrap_or(0),
            Work::Last => last_number(alloc, line).unwrap_or(0),
        }
    }
}

/// These words.
fn words(alloc: Global, texts: &[&str]) -> Result<Vec<String>, AllocError> {
    let mut line = Vec::new(alloc);
    for text in texts {
        line.push(String::from_str(alloc, text)?)?;
    }
    Ok(line)
}

/// The line, and so many times the word behind it.
fn times(
    alloc: Global,
    mut line: Vec<String>,
    size: u32,
    word: &str,
) -> Result<Vec<String>, AllocError> {
    for _ in 0..size {
        line.push(String::from_str(alloc, word)?)?;
    }
    Ok(line)
}

/// One word of so many `v`.
fn joined(alloc: Global, size: u32) -> Result<Vec<String>, AllocError> {
    let mut word = String::from_str(alloc, "-")?;
    for _ in 0..size {
        word.push('v')?;
    }
    let mut line = Vec::new(alloc);
    line.push(word)?;
    Ok(line)
}

/// So many keys of different names, a switch behind each.
fn keys(alloc: Global, size: u32) -> Result<Vec<String>, AllocError> {
    let mut line = Vec::new(alloc);
    for number in 0..size {
        line.push(format!(in alloc; "--key{number}")?)?;
        line.push(String::from_str(alloc, "-v")?)?;
    }
    Ok(line)
}

/// So many times a key and its number.
fn pairs(alloc: Global, size: u32) -> Result<Vec<String>, AllocError> {
    let mut line = Vec::new(alloc);
    for _ in 0..size {
        line.push(String::from_str(alloc, "-n")?)?;
        line.push(String::from_str(alloc, "1")?)?;
    }
    Ok(line)
}
