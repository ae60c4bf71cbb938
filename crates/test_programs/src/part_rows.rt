//! Worked rows of named parts, and of words and commands behind them, through `run_program`.
use crate::program_rows::{compare_in, word};
use bpaf::params::ParseArgument;
use bpaf::{Parser, construct, short};
use bpaf_record::ProgramField;
use std::alloc::{AllocError, Global};
use std::fmt::Debug;
use std::test::Fail;
use test_support::{number, switch};

/// Compares the answers of a parser where `NUM` is 5.
fn compare<T: Debug + Drop, P: ProgramField<T> + Drop>(
    alloc: Global,
    parser: P,
    rows: &str,
) -> Result<(), Fail>
    requires { P.can_eval parser }
{
    compare_in(alloc, &[("NUM", "5")], parser, rows)
}

const RANGE: &str = "
# closure_round_a_product
-l 4 x -c 3 | ok ((3, 4), [\"x\"])
-c 3 -l 2 x | refused
-c 3 -l 4 -c 2 | refused
-c 3 x | refused
";

#[test]
fn closures_round_products_run_as_programs(rt: HostRuntime) -> Result<(), Fail> {
    let alloc = rt.alloc();
    let low = number(alloc, 'c')?;
    let high = number(alloc, 'l')?;
    let range = construct!(low, high).guard(|pair| pair.0 < pair.1, "a range");
    let files = word().many();
    compare(alloc, construct!(range, files), RANGE)
}

const CREDENTIALS: &str = "
# all_or_none
-p 1 f -u 2 | ok (Some((2, 1)), [\"f\"])
f | ok (None, [\"f\"])
-u 2 f | refused
-u 2 -p 1 -p 3 | refused
";

#[test]
fn optional_groups_run_as_programs(rt: HostRuntime) -> Result<(), Fail> {
    let alloc = rt.alloc();
    let user = number(alloc, 'u')?;
    let password = number(alloc, 'p')?;
    let both = construct!(user, password).optional();
    let files = word().many();
    compare(alloc, construct!(both, files), CREDENTIALS)
}

const GROUPS: &str = "
# exclusive_groups
-b 2 -a 1 | ok (1, Some(2))
-a 1 | ok (1, None)
-d 2 -c 1 | ok (1, Some(2))
-a 1 -c 2 -d 3 | refused
-c 2 | refused
 | refused
";

#[test]
fn exclusive_groups_run_as_programs(rt: HostRuntime) -> Result<(), Fail> {
    let alloc = rt.alloc();
    let a = number(alloc, 'a')?;
    let b = number(alloc, 'b')?.optional();
    let c = number(alloc, 'c')?;
    let d = number(alloc, 'd')?.map(|n| Some(n));
    let one = construct!(a, b);
    let other = construct!(c, d);
    compare(alloc, construct!([one, other]), GROUPS)
}

/// A number, or that of the variable `NUM`.
fn variable(alloc: Global) -> Result<ParseArgument<u64>, AllocError> {
    Ok(short(alloc, 'n')?.env("NUM")?.argument::<u64>("NUM"))
}

const VARIABLES: &str = "
# variable_in_a_choice
 | ok 5
-m 3 | ok 3
-n 4 | ok 4
-n 4 -m 3 | refused
";

const LAST: &str = "
# last_value_in_a_choice
-b 1 -a 2 -b 3 -a 4 | ok [1, 4, 3]
-b 1 -a | refused
 | ok []
";

#[test]
fn variables_and_last_values_run_in_choices(rt: HostRuntime) -> Result<(), Fail> {
    let alloc = rt.alloc();
    let named = variable(alloc)?;
    let other = number(alloc, 'm')?;
    compare(alloc, construct!([named, other]), VARIABLES)?;
    let last = number(alloc, 'a')?.take_last();
    let each = number(alloc, 'b')?;
    compare(alloc, construct!([last, each]).many(), LAST)
}

const HIDDEN: &str = "
# hide_round_commands
-v add -n 1 -q | ok (true, (true, 1))
add -n 1 | ok (false, (false, 1))
-vq add -n 1 | refused
";

#[test]
fn hidden_commands_run_as_programs(rt: HostRuntime) -> Result<(), Fail> {
    let alloc = rt.alloc();
    let verbose = switch(alloc, 'v')?;
    let quiet = switch(alloc, 'q')?;
    let add = number(alloc, 'n')?.to_options(alloc)?.command("add")?;
    let hidden = construct!(quiet, add).hide();
    compare(alloc, construct!(verbose, hidden), HIDDEN)
}

const REPEATED: &str = "
# repeat_of_a_group
-x 1 -x 2 -y 3 | ok [(1, Some(3)), (2, None)]
-x 1 -y 2 -y 3 | refused
 | ok []
";

#[test]
fn repeats_of_groups_run_as_programs(rt: HostRuntime) -> Result<(), Fail> {
    let alloc = rt.alloc();
    let x = number(alloc, 'x')?;
    let y = number(alloc, 'y')?.optional();
    compare(alloc, construct!(x, y).many(), REPEATED)
}

const BEFORE_COMMANDS: &str = "
# closure_round_a_product_with_a_command
add 2 -c 3 | refused
-c 1 add -n 2 | ok (1, 2)
-c 3 add -n 2 | refused
";

#[test]
fn closures_round_products_with_commands_run_as_programs(rt: HostRuntime) -> Result<(), Fail> {
    let alloc = rt.alloc();
    let low = number(alloc, 'c')?;
    let add = number(alloc, 'n')?.to_options(alloc)?.command("add")?;
    let both = construct!(low, add).guard(|pair| pair.0 < pair.1, "a range");
    compare(alloc, both, BEFORE_COMMANDS)
}
