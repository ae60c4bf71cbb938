//! Worked rows of keys with names in the environment through `run_program`.
use crate::program_rows::compare_in;
use bpaf::params::ParseArgument;
use bpaf::{Parser, construct, env, short};
use std::alloc::{AllocError, Global};
use std::test::Fail;

/// An environment in which `NUM` is 5 and `BAD` is no number.
const VARIABLES: &[(&str, &str)] = &[("NUM", "5"), ("BAD", "z")];

/// The argument `NUM` of a name, or of a variable.
fn number(alloc: Global, name: char, variable: &str) -> Result<ParseArgument<u64>, AllocError> {
    Ok(short(alloc, name)?.env(variable)?.argument::<u64>("NUM"))
}

/// A number, one that may be left out, a repeat of one and a switch, each with this variable.
fn compare_fields(alloc: Global, variable: &str, rows: &str) -> Result<(), Fail> {
    let num = number(alloc, 'n', variable)?;
    let width = number(alloc, 'w', variable)?.optional();
    let depths = number(alloc, 'd', variable)?.many();
    let verbose = short(alloc, 'v')?.env(variable)?.switch();
    compare_in(
        alloc,
        VARIABLES,
        construct!(num, width, depths, verbose),
        rows,
    )
}

const SET: &str = "
# variables_set
 | ok (5, Some(5), [5], true)
-n 3 | ok (3, Some(5), [5], true)
-w 4 -d 1 -d 2 -v | ok (5, Some(4), [1, 2], true)
-n 3 -n 4 | refused
";

const UNREADABLE: &str = "
# variables_unreadable_under_a_repeat
 | refused
-n 3 -w 4 | refused
-n 3 -w 4 -d 1 | refused
";

const UNSET: &str = "
# variables_unset
 | refused
-n 3 | ok (3, None, [], false)
-n 3 -d 1 -v | ok (3, None, [1], true)
";

#[test]
fn keys_with_variables_run_as_programs(rt: HostRuntime) -> Result<(), Fail> {
    let alloc = rt.alloc();
    // program_of_keys_with_variables
    compare_fields(alloc, "NUM", SET)?;
    compare_fields(alloc, "BAD", UNREADABLE)?;
    compare_fields(alloc, "NONE", UNSET)
}

const UNREADABLE_ONCE: &str = "
# variables_unreadable
 | refused
-n 3 | refused
-w 4 | refused
-n 3 -w 4 | ok (3, Some(4))
";

#[test]
fn unreadable_variables_run_as_programs(rt: HostRuntime) -> Result<(), Fail> {
    let alloc = rt.alloc();
    let num = number(alloc, 'n', "BAD")?;
    let width = number(alloc, 'w', "BAD")?.optional();
    compare_in(alloc, VARIABLES, construct!(num, width), UNREADABLE_ONCE)
}

#[test]
fn variables_alone_run_as_programs(rt: HostRuntime) -> Result<(), Fail> {
    let alloc = rt.alloc();
    let num = env(alloc, "NUM")?.argument::<u64>("NUM");
    let unset = env(alloc, "K")?.argument::<u64>("K").optional();
    // variables_alone
    let rows = " | ok (5, None)\n5 | refused";
    compare_in(alloc, VARIABLES, construct!(num, unset), rows)?;
    // environment_name_alone_not_set
    // program_of_a_variable_alone
    compare_in(
        alloc,
        VARIABLES,
        env(alloc, "K")?.argument::<u64>("K"),
        " | err environment variable `K` is not set",
    )
}
