//! Worked rows of defaults and repeats round commands, and of choices of a named part and commands,
//! through `run_program`.
use crate::program_rows::compare;
use bpaf::params::ParseArgument;
use bpaf::parsers::ParseCommand;
use bpaf::{Parser, construct, short};
use std::alloc::{AllocError, Global};
use std::test::Fail;
use test_support::{number, switch};

/// A command over a number.
type Opening = ParseCommand<u64, ParseArgument<u64>>;

/// A command of this word over a number `-n`.
fn open(alloc: Global, word: &str) -> Result<Opening, AllocError> {
    number(alloc, 'n')?.to_options(alloc)?.command(word)
}

/// The command `add` over a number `-n`.
fn add(alloc: Global) -> Result<Opening, AllocError> {
    open(alloc, "add")
}

const DEFAULT: &str = "
# default_round_commands
 | ok 7
add -n 1 | ok 1
add | refused
add -n 1 x | refused
x | refused
-n 1 | refused
";

#[test]
fn defaults_round_commands_run_as_programs(rt: HostRuntime) -> Result<(), Fail> {
    let alloc = rt.alloc();
    compare(alloc, add(alloc)?.fallback(7), DEFAULT)?;
    compare(
        alloc,
        add(alloc)?.fallback_with(|| Ok::<u64, &str>(7)),
        DEFAULT,
    )
}

const BEHIND: &str = "
# default_behind_a_field
-v | ok (true, 7)
add -v -n 1 | ok (true, 1)
-v add | refused
";

#[test]
fn defaults_behind_fields_run_as_programs(rt: HostRuntime) -> Result<(), Fail> {
    let alloc = rt.alloc();
    let verbose = switch(alloc, 'v')?;
    let added = add(alloc)?.fallback(7);
    compare(alloc, construct!(verbose, added), BEHIND)
}

const REPEATED: &str = "
# repeat_of_commands
 | ok []
add -n 1 | ok [1]
add -n 1 add -n 2 | refused
add | refused
x | refused
";

const COUNTED: &str = "
# count_of_commands
 | ok 0
add -n 1 | ok 1
add -n 1 add -n 2 | refused
";

const SOME: &str = "
# some_commands
 | refused
add -n 1 | ok [1]
";

const LAST: &str = "
# last_of_commands
 | refused
add -n 1 | ok 1
add -n 1 add -n 2 | refused
";

#[test]
fn repeats_of_commands_run_as_programs(rt: HostRuntime) -> Result<(), Fail> {
    let alloc = rt.alloc();
    compare(alloc, add(alloc)?.many(), REPEATED)?;
    compare(alloc, add(alloc)?.collect::<Vec<u64>>(), REPEATED)?;
    compare(alloc, add(alloc)?.count(), COUNTED)?;
    compare(alloc, add(alloc)?.some("need one"), SOME)?;
    compare(alloc, add(alloc)?.last(), LAST)
}

const EITHER: &str = "
# part_or_commands
-r | ok 7
add -n 1 | ok 1
add -n 1 -r | refused
-r add -n 1 | refused
-r -r | refused
add | refused
 | refused
";

const SHARED: &str = "
# part_shares_a_key_with_a_command
-n 5 | ok 5
add -n 1 | ok 1
-n 5 add -n 1 | refused
-n add | refused
";

#[test]
fn choices_of_parts_and_commands_run_as_programs(rt: HostRuntime) -> Result<(), Fail> {
    let alloc = rt.alloc();
    let release = short(alloc, 'r')?.req_flag(7);
    let added = add(alloc)?;
    compare(alloc, construct!([release, added]), EITHER)?;
    let release = short(alloc, 'r')?.req_flag(7);
    let added = add(alloc)?;
    compare(alloc, construct!([added, release]), EITHER)?;
    let named = number(alloc, 'n')?;
    let added = add(alloc)?;
    compare(alloc, construct!([named, added]), SHARED)
}

const BESIDE: &str = "
# part_or_commands_behind_a_field
-m 3 -q | ok (true, 3)
add -q -n 1 | ok (true, 1)
-q | ok (true, 7)
 | ok (false, 7)
-q add | refused
-m 3 add -n 1 | refused
";

#[test]
fn parts_or_commands_behind_fields_run_as_programs(rt: HostRuntime) -> Result<(), Fail> {
    let alloc = rt.alloc();
    let quiet = switch(alloc, 'q')?;
    let given = number(alloc, 'm')?.fallback(7);
    let added = add(alloc)?;
    let either = construct!([given, added]);
    compare(alloc, construct!(quiet, either), BESIDE)
}

const EACH: &str = "
# parts_and_commands_in_one_choice
-r | ok 7
-m 3 | ok 3
add -n 1 | ok 1
rm -n 2 | ok 2
-r -m 3 | refused
-r rm -n 2 | refused
rm -n 2 -m 3 | refused
";

#[test]
fn choices_of_more_parts_and_commands_run_as_programs(rt: HostRuntime) -> Result<(), Fail> {
    let alloc = rt.alloc();
    let release = short(alloc, 'r')?.req_flag(7);
    let named = number(alloc, 'm')?;
    let added = add(alloc)?;
    let removed = open(alloc, "rm")?;
    compare(alloc, construct!([release, added, named, removed]), EACH)
}
