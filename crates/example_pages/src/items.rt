//! What looks at the item itself, each made and run in one body.
use bpaf::{Args, ParseFailure, Parser, any, construct, literal};
use std::alloc::Global;

/// A number that is small.
fn small(n: u64) -> Option<u64> {
    if n < 10 { Some(n) } else { None }
}

/// `+v`, wherever it stands, and a small number in front of what is left.
pub fn read_items(alloc: Global, words: &[&str]) -> Result<((), u64), ParseFailure> {
    let plus = literal(alloc, "+v")?.anywhere();
    let digit = any::<u64, u64, _>(alloc, "N", |n| small(n))?;
    construct!(plus, digit).run_once(alloc, Args::from(words))
}
