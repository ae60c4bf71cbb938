//! Two options that exclude each other, which is told in a message of the program's own.
use bpaf::{Args, Doc, ParseFailure, Parser, construct, short_key};
use std::alloc::Global;

/// How much is shown.
#[derive(Debug, Drop)]
pub struct Limits {
    pub bytes: Option<u64>,
    pub lines: Option<u64>,
}

/// The limits that the words tell, not both.
pub fn read_limits(alloc: Global, words: &[&str]) -> Result<Limits, ParseFailure> {
    let bytes = short_key(alloc, 'c').argument::<u64>("N").optional();
    let lines = short_key(alloc, 'n').argument::<u64>("N").optional();
    let limits = construct!(Limits { bytes, lines }).run_once(alloc, Args::from(words))?;
    if limits.bytes.is_some() && limits.lines.is_some() {
        let message = Doc::from_text(alloc, "`-c` and `-n` exclude each other")?;
        return Err(ParseFailure::Stderr(message));
    }
    Ok(limits)
}
