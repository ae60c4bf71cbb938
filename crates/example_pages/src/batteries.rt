//! The batteries, each made and run in one body.
use crate::first::{number, verbose};
use bpaf::{Args, ParseFailure, Parser, long_key};
use bpaf_batteries::{
    cargo_helper, get_usage, toggle_flag, verbose_and_quiet_by_number, verbose_by_slice,
};
use std::alloc::{AllocError, Global};

/// How much is told.
#[derive(Clone, Copy, Debug)]
pub enum Level {
    Error,
    Warning,
    Info,
}

/// A level by how often `-v` and `-q` are there.
pub fn told(alloc: Global, words: &[&str]) -> Result<Level, ParseFailure> {
    let levels = [Level::Error, Level::Warning, Level::Info];
    let level = verbose_by_slice(alloc, 1, levels)?;
    level.run_once(alloc, Args::from(words))
}

/// The same as a number.
pub fn level_number(alloc: Global, words: &[&str]) -> Result<isize, ParseFailure> {
    let level = verbose_and_quiet_by_number(alloc, 2, 0, 5)?;
    level.run_once(alloc, Args::from(words))
}

/// Which of two keys is the last one.
pub fn coloured(alloc: Global, words: &[&str]) -> Result<Option<bool>, ParseFailure> {
    let (color, no_color) = (long_key(alloc, "color"), long_key(alloc, "no-color"));
    let coloured = toggle_flag(color, true, no_color, false);
    coloured.run_once(alloc, Args::from(words))
}

/// A number, perhaps behind the name of a subcommand of cargo.
pub fn helped(alloc: Global, words: &[&str]) -> Result<u64, ParseFailure> {
    let num = number(alloc);
    let helped = cargo_helper(alloc, "asm", num)?;
    helped.run_once(alloc, Args::from(words))
}

/// The help page of a switch.
pub fn usage(alloc: Global) -> Result<Option<String>, AllocError> {
    let options = verbose(alloc).into_options(alloc);
    let page = get_usage(options)?;
    Ok(page)
}

/// Whether no key of a switch stands behind a word in what it shows.
pub fn is_in_order(alloc: Global) -> Result<bool, AllocError> {
    let options = verbose(alloc).into_options(alloc);
    let holds = options.check_invariants(true)?;
    Ok(holds)
}
