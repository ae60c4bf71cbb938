//! A record of options, and the parser that reads it.
use crate::types::{Level, Numbers};
use bpaf::{Args, ParseFailure, Parser, construct, key, long_key, short_key};
use bpaf_record::CommandLine;
use std::alloc::Global;
use std::collections::BTreeMap;

/// What the program is asked for.
#[derive(Drop)]
pub struct Options {
    pub size: u128,
    pub level: Level,
    pub color: Option<bool>,
    pub numbers: Numbers,
}

/// The options that the words give, or the environment for the size.
pub fn read_options(
    alloc: Global,
    words: &[String],
    variables: &BTreeMap<String, String>,
) -> Result<Options, ParseFailure> {
    let size = key(alloc, 's', "size").env("SIZE")?;
    let size = size.argument::<u64>("KB").map(|n| u128::from(n) * 1024);
    let level = long_key(alloc, "level").argument::<Level>("LEVEL");
    let level = level.fallback(Level::Low);
    let on = long_key(alloc, "color").req_flag(true);
    let off = long_key(alloc, "no-color").req_flag(false);
    let color = construct!([on, off]).optional();
    let numbers = short_key(alloc, 'n').argument::<u64>("NUM");
    let numbers = numbers.collect::<Numbers>();
    let options = construct!(Options {
        size,
        level,
        color,
        numbers
    });
    let args = Args::from(words).set_name("example_guide");
    let options = options.into_options(alloc);
    options.run_program(args.set_env(variables))
}
