//! What programs often want, each made and run in one body.
use crate::first::number;
use bpaf::{Args, ParseFailure, Parser, long_key, positional, short_key};
use std::alloc::Global;

/// `--color`, or its alias `--colour`, which isn't shown.
pub fn aliased(alloc: Global, words: &[&str]) -> Result<String, ParseFailure> {
    let color = long_key(alloc, "color").long("colour")?;
    let color = color.argument::<String>("WHEN");
    color.run_once(alloc, Args::from(words))
}

/// All settings, such as `-D depth=3`.
pub fn settings(alloc: Global, words: &[&str]) -> Result<Vec<String>, ParseFailure> {
    let setting = short_key(alloc, 'D').argument::<String>("NAME=VALUE");
    let setting = setting.guard(|it| it.as_str().split_once('=').is_some(), "not NAME=VALUE");
    let settings = setting.many();
    settings.run_once(alloc, Args::from(words))
}

/// A number, or 7, which the help page shows.
pub fn defaulted(alloc: Global, words: &[&str]) -> Result<u64, ParseFailure> {
    let num = number(alloc);
    let shown = num.fallback(7).display_fallback(alloc)?;
    shown.run_once(alloc, Args::from(words))
}

/// A number; the help page where there are no words.
pub fn helped(alloc: Global, words: &[&str]) -> Result<u64, ParseFailure> {
    let options = number(alloc).into_options(alloc);
    let options = options.fallback_to_usage();
    options.run_once(Args::from(words))
}

/// The words behind `--`, unread.
pub fn passed(alloc: Global, words: &[&str]) -> Result<Vec<String>, ParseFailure> {
    let passed = positional::<String>("WORD").strict().many();
    passed.run_once(alloc, Args::from(words))
}
