//! Values that may be given several times, each made and run in one body.
use crate::first::number;
use bpaf::{Args, ParseFailure, Parser, positional, short_key};
use std::alloc::Global;
use std::collections::BTreeSet;

/// All numbers.
pub fn all(alloc: Global, words: &[&str]) -> Result<Vec<u64>, ParseFailure> {
    let num = number(alloc);
    let all = num.many();
    all.run_once(alloc, Args::from(words))
}

/// All files, one at least.
pub fn some(alloc: Global, words: &[&str]) -> Result<Vec<String>, ParseFailure> {
    let file = positional::<String>("FILE");
    let files = file.some("name a file");
    files.run_once(alloc, Args::from(words))
}

/// The numbers in order, each once.
pub fn ordered(alloc: Global, words: &[&str]) -> Result<BTreeSet<u64>, ParseFailure> {
    let num = number(alloc);
    let ordered = num.collect::<BTreeSet<u64>>();
    ordered.run_once(alloc, Args::from(words))
}

/// How often there is a `-v`.
pub fn counted(alloc: Global, words: &[&str]) -> Result<usize, ParseFailure> {
    let volume = short_key(alloc, 'v').req_flag(()).count();
    volume.run_once(alloc, Args::from(words))
}

/// The last number.
pub fn last(alloc: Global, words: &[&str]) -> Result<u64, ParseFailure> {
    let num = number(alloc);
    let last = num.last();
    last.run_once(alloc, Args::from(words))
}

/// The last number, where the others needn't be any.
pub fn last_alone(alloc: Global, words: &[&str]) -> Result<u64, ParseFailure> {
    let num = number(alloc);
    let last = num.take_last();
    last.run_once(alloc, Args::from(words))
}
