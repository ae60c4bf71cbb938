//! How a run of a program with commands ends.
ghost use Rattle.std.specs.Prelude.{◌≡◌, [], true};

use crate::ends::shown;
use bpaf::{Args, Parser, construct};
use bpaf_program::run_program;
use bpaf_record::{CommandLine, ProgramField};
use std::alloc::Global;
use std::test::Fail;
use test_support::{Narrow, number, reads, switch};

/// Words, parted by spaces; the value or the status, and what then stands on the two writers, with
/// bars between.
const ENDS: &[(&str, &str)] = &[
    // end_of_command_with_value
    ("-v -c 4 build -n 3 -b", "Ok((false, true, 4, true, 3))||"),
    // end_of_command_with_message
    (
        "-c 4 build -n",
        "Err(1)||Error: `-n` requires an argument `NUM`\n",
    ),
    // end_of_command_with_help
    (
        "-c 4 build --help",
        "Err(0)|Usage: build -n=NUM

Available options:
    -n=NUM
    -h, --help  Prints help information
|",
    ),
];

/// The values of four fields and of a command.
type Values = (bool, bool, u64, bool, u64);

/// How a run ends, as a row tells it.
fn ended<R: CommandLine<Values>>(alloc: Global, options: &R, words: &str) -> Result<String, Fail>
    requires can { R.can_run options.now }
    requires program { R.is_whole options.now [] ≡ true }
{
    let words: Vec<&str> = words.split(' ').collect(alloc)?;
    let mut out = Narrow::new(alloc, 400, 0);
    let mut err = Narrow::new(alloc, 400, 0);
    let answer = run_program(options, Args::from(words.as_slice()), &mut out, &mut err);
    shown(alloc, answer, out, err)
}

/// Compares the ends of a program.
fn compare<P: ProgramField<Values> + Drop>(alloc: Global, parser: P) -> Result<(), Fail>
    requires { P.can_eval parser }
{
    let options = parser.to_options(alloc)?;
    if !options.is_program() {
        return Err(Fail::new("no program"));
    }
    for (words, wanted) in ENDS {
        reads(Ok(ended(alloc, &options, words)?), wanted)?;
    }
    Ok(())
}

/// Compares those of `[-a] [-v] -c NUM [-b] build -n NUM`.
fn compare_builds(alloc: Global) -> Result<(), Fail> {
    let build = number(alloc, 'n')?.to_options(alloc)?.command("build")?;
    let a = switch(alloc, 'a')?;
    let verbose = switch(alloc, 'v')?;
    let count = number(alloc, 'c')?;
    let b = switch(alloc, 'b')?;
    // program_of_four_fields_and_a_command
    compare(alloc, construct!(a, verbose, count, b, build))
}

#[test]
fn runs_of_commands_end_with_a_value_or_a_status(rt: HostRuntime) -> Result<(), Fail> {
    compare_builds(rt.alloc())
}
