//! A program with commands.
use crate::keys::{num, verbose};
use bpaf::params::{ParseArgument, ParseFlag};
use bpaf::parsers::ParseCommand;
use bpaf::{Args, ParseFailure, Parser, construct};
use std::alloc::{AllocError, Global};

/// What the program is asked to do.
#[derive(Drop)]
pub enum Task {
    Build(u64),
    Clean(bool),
}

/// `build -n 3`, and `b -n 3`.
pub fn build(alloc: Global) -> Result<ParseCommand<u64, ParseArgument<u64>>, AllocError> {
    let options = num(alloc).into_options(alloc);
    let options = options.descr_str("Builds with so many jobs")?;
    options.into_command("build").short('b')
}

/// `clean`, and `clean -v`.
pub fn clean(alloc: Global) -> ParseCommand<bool, ParseFlag<bool>> {
    verbose(alloc).into_options(alloc).into_command("clean")
}

/// The task that the words give.
pub fn read_task(alloc: Global, words: &[String]) -> Result<Task, ParseFailure> {
    let build = build(alloc)?.map(|jobs| Task::Build(jobs));
    let clean = clean(alloc).map(|tell| Task::Clean(tell));
    construct!([build, clean]).run_once(alloc, Args::from(words))
}
