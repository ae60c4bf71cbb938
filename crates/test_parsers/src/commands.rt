//! Commands as a program writes them.
use bpaf_core::{ParseCommand, Parser, command};
use bpaf_doc::{Doc, Item, Meta};
use bpaf_text::ParseArgument;
use std::alloc::{AllocError, Global};
use std::test::Fail;
use test_support::{num, prints, value};

/// The command `build` over a number, by the function, with a short name and a hidden one.
fn build(alloc: Global) -> Result<ParseCommand<u64, ParseArgument<u64>>, AllocError> {
    let descr = Doc::from_text(alloc, "Builds it\n all")?;
    let options = num(alloc)?.to_options(alloc)?.descr(descr);
    command("build", options)?.short('b')?.long("make")
}

/// The command `run` over a number, by the method, with a help.
fn run(alloc: Global) -> Result<ParseCommand<u64, ParseArgument<u64>>, AllocError> {
    let run = num(alloc)?.to_options(alloc)?.command("run")?;
    run.help_str("Runs it")
}

/// One of the two.
fn either(alloc: Global, words: &[&str]) -> Result<Option<u64>, AllocError> {
    value(alloc, build(alloc)?.or_else(run(alloc)?), words)
}

/// What is shown of a command beside its name, as text.
fn help_of(
    alloc: Global,
    command: &ParseCommand<u64, ParseArgument<u64>>,
) -> Result<Option<String>, AllocError> {
    match &command.meta(alloc)? {
        Meta::Item(
            Item::Command {
                help: Some(help),
                ..
            },
        ) => Ok(Some(help.monochrome(true)?)),
        _ => Ok(None),
    }
}

/// That of `build`, the first line of its description.
fn help_of_build(alloc: Global) -> Result<Option<String>, AllocError> {
    help_of(alloc, &build(alloc)?)
}

/// That of `run`, its own.
fn help_of_run(alloc: Global) -> Result<Option<String>, AllocError> {
    help_of(alloc, &run(alloc)?)
}

#[test]
fn commands_are_called(rt: HostRuntime) -> Result<(), Fail> {
    let a = rt.alloc();
    prints(a, either(a, &["build", "-n", "3"]), "Some(3)")?;
    prints(a, either(a, &["b", "-n", "3"]), "Some(3)")?;
    prints(a, either(a, &["make", "-n", "3"]), "Some(3)")?;
    prints(a, either(a, &["run", "-n", "4"]), "Some(4)")?;
    prints(a, either(a, &["-b", "-n", "3"]), "None")?;
    prints(a, help_of_build(a), "Some(\"Builds it\")")?;
    prints(a, help_of_run(a), "Some(\"Runs it\")")
}
