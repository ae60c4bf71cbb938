//! What is made of a value, and what stands for one that is left out, each made and run in one body.
use crate::first::number;
use bpaf::{Args, ParseFailure, Parser, fail, pure, pure_with};
use std::alloc::Global;

/// So many times 1,024.
pub fn mapped(alloc: Global, words: &[&str]) -> Result<u128, ParseFailure> {
    let num = number(alloc);
    let bytes = num.map(|n| u128::from(n) * 1024);
    bytes.run_once(alloc, Args::from(words))
}

/// A small number, which a closure checks.
pub fn parsed(alloc: Global, words: &[&str]) -> Result<u64, ParseFailure> {
    let num = number(alloc);
    let small = num.parse(|n| if n < 10 { Ok(n) } else { Err("too big") });
    small.run_once(alloc, Args::from(words))
}

/// A small number, of which a closure tells that it is one.
pub fn guarded(alloc: Global, words: &[&str]) -> Result<u64, ParseFailure> {
    let num = number(alloc);
    let small = num.guard(|n| *n < 10, "below 10");
    small.run_once(alloc, Args::from(words))
}

/// A number, or None.
pub fn optional(alloc: Global, words: &[&str]) -> Result<Option<u64>, ParseFailure> {
    let num = number(alloc);
    let perhaps = num.optional();
    perhaps.run_once(alloc, Args::from(words))
}

/// A number, or 7.
pub fn or_seven(alloc: Global, words: &[&str]) -> Result<u64, ParseFailure> {
    let num = number(alloc);
    let number = num.fallback(7);
    number.run_once(alloc, Args::from(words))
}

/// A number, or what a function answers.
pub fn or_default(alloc: Global, words: &[&str]) -> Result<u64, ParseFailure> {
    let num = number(alloc);
    let number = num.fallback_with(|| read_default());
    number.run_once(alloc, Args::from(words))
}

/// What stands for a number.
fn read_default() -> Result<u64, &'static str> {
    Ok(8)
}

/// A character that looks at no word.
pub fn kept(alloc: Global, words: &[&str]) -> Result<char, ParseFailure> {
    let plus = pure('+');
    plus.run_once(alloc, Args::from(words))
}

/// What a function answers.
pub fn answered(alloc: Global, words: &[&str]) -> Result<u64, ParseFailure> {
    let number = pure_with(|| read_default());
    number.run_once(alloc, Args::from(words))
}

/// No value.
pub fn refused(alloc: Global, words: &[&str]) -> Result<(), ParseFailure> {
    fail::<()>("no words do").run_once(alloc, Args::from(words))
}

/// A number that can be read, or None.
pub fn readable(alloc: Global, words: &[&str]) -> Result<Option<u64>, ParseFailure> {
    let num = number(alloc);
    let perhaps = num.optional().catch();
    perhaps.run_once(alloc, Args::from(words))
}
