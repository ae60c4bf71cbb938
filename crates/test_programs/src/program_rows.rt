//! Worked rows through `run_program`, each with its value, or that it is refused or a text is
//! shown. It runs as `run_inner` does, whose texts stand in rows.txt.
use bpaf::params::{ParseArgument, ParseFlag, ParsePositional};
use bpaf::parsers::{ParseCommand, ParseOrElse};
use bpaf::{Args, Doc, Parser, choice, construct, long, positional, pure, short};
use bpaf_record::{CommandLine, ProgramField};
use std::alloc::{AllocError, Global};
use std::collections::BTreeMap;
use std::fmt::Debug;
use std::test::Fail;
use test_support::{fits, number, rows_of, switch};

/// A word.
pub(crate) fn word() -> ParsePositional<String> {
    positional("FILE")
}

/// An environment of these variables, each with its value.
fn environment(
    alloc: Global,
    variables: &[(&str, &str)],
) -> Result<BTreeMap<String, String>, AllocError> {
    let mut set = BTreeMap::new(alloc);
    for (name, value) in variables {
        let name = String::from_str(alloc, name)?;
        set.insert(name, String::from_str(alloc, value)?)?;
    }
    Ok(set)
}

/// Runs a program in an environment on the words of each row, and compares the answers.
pub(crate) fn compare_in<T: Debug + Drop, P: ProgramField<T> + Drop>(
    alloc: Global,
    variables: &[(&str, &str)],
    parser: P,
    rows: &str,
) -> Result<(), Fail>
    requires { P.can_eval parser }
{
    let variables = environment(alloc, variables)?;
    let options = parser.to_options(alloc)?;
    if !options.is_program() {
        return Err(Fail::new("no program"));
    }
    for row in rows_of(alloc, rows)? {
        let args = Args::from(row.words.as_slice()).set_env(&variables);
        fits(alloc, options.run_program(args), row.wanted)?;
    }
    Ok(())
}

/// The same where no variable is set.
pub(crate) fn compare<T: Debug + Drop, P: ProgramField<T> + Drop>(
    alloc: Global,
    parser: P,
    rows: &str,
) -> Result<(), Fail>
    requires { P.can_eval parser }
{
    compare_in(alloc, &[], parser, rows)
}

/// The same of two fields.
fn compare_two<
    A: Debug + Drop,
    B: Debug + Drop,
    P: ProgramField<A> + Drop,
    Q: ProgramField<B> + Drop,
>(alloc: Global, first: P, last: Q, rows: &str) -> Result<(), Fail>
    requires first { P.can_eval first }
    requires last { Q.can_eval last }
{
    compare(alloc, construct!(first, last), rows)
}

/// The same of the switch `-v`, and commands behind it.
fn compare_behind<T: Debug + Drop, P: ProgramField<T> + Drop>(
    alloc: Global,
    last: P,
    rows: &str,
) -> Result<(), Fail>
    requires { P.can_eval last }
{
    compare_two(alloc, switch(alloc, 'v')?, last, rows)
}

/// A command over a number.
type Counted = ParseCommand<u64, ParseArgument<u64>>;

/// `build -n NUM`, or `b -n NUM`.
fn build(alloc: Global) -> Result<Counted, AllocError> {
    let options = number(alloc, 'n')?.to_options(alloc)?;
    options.command("build")?.short('b')
}

/// The same, or `run -n NUM`.
fn build_or_run(alloc: Global) -> Result<ParseOrElse<Counted, Counted>, AllocError> {
    let run = number(alloc, 'n')?.to_options(alloc)?.command("run")?;
    Ok(build(alloc)?.or_else(run))
}

const SWITCH_AND_COMMAND: &str = "
# switch_before_command
# switch_after_command
# switch_on_each_side_of_the_word
-v build -n 3 | ok (true, 3)
build -v -n 3 | ok (true, 3)
build -n 3 -v | ok (true, 3)
build -vn3 | ok (true, 3)
# short_word_of_command
b -n=3 | ok (false, 3)
-b -n 3 | refused
# marker_behind_the_word
build -n 3 -- | ok (false, 3)
build -- -n 3 | refused
build -n -- 3 | refused
# near_name_of_command
# word_of_command_missing
 | refused
-v | refused
buil | refused
# word_before_command
x build -n 3 | refused
# inner_key_before_the_word
-n 3 build | refused
# command_leaves_word
# left_inside_command
build -n 3 x | refused
build -n 3 build | refused
build build -n 3 | refused
# marker_before_the_word
-- build -n 3 | refused
# help_behind_the_word
build --help | shown
build -n 3 --help | shown
--help build -n 3 | shown
# keys that are there twice, and values that are missing
build | refused
-n build 3 | refused
build -n 3 -n 4 | refused
build -n -v | refused
-v build -v -n 3 | refused
";

#[test]
fn a_switch_and_a_command_run_as_programs(rt: HostRuntime) -> Result<(), Fail> {
    let alloc = rt.alloc();
    // program_of_a_switch_and_a_command
    compare_behind(alloc, build(alloc)?, SWITCH_AND_COMMAND)
}

const COMMAND_LEFT_OUT: &str = "
# command_left_out
 | ok (false, None)
-v | ok (true, None)
-- | ok (false, None)
# command_not_left_out
build -n 3 -v | ok (true, Some(3))
# optional_command_refused
build | refused
build -n x | refused
-n 3 | refused
-v x | refused
x build -n 3 | refused
-- build | refused
";

#[test]
fn commands_left_out_run_as_programs(rt: HostRuntime) -> Result<(), Fail> {
    let alloc = rt.alloc();
    // program_of_commands_left_out
    compare_behind(alloc, build(alloc)?.optional(), COMMAND_LEFT_OUT)
}

const PRODUCT_WITH_COMMAND: &str = "
# product_with_a_command_inside
-v -q build -n 3 | ok (true, (true, 3))
build -q -n 3 -v | ok (true, (true, 3))
build -n 3 | ok (false, (false, 3))
# product_with_a_command_inside_refused
-v -q | refused
-q build -n 3 -q | refused
x build -n 3 | refused
";

#[test]
fn a_product_with_a_command_runs_inside_another(rt: HostRuntime) -> Result<(), Fail> {
    let alloc = rt.alloc();
    let quiet = switch(alloc, 'q')?;
    let build = build(alloc)?;
    // program_of_a_product_with_a_command
    compare_behind(alloc, construct!(quiet, build), PRODUCT_WITH_COMMAND)
}

const PRODUCT_WITH_WORDS: &str = "
# product_with_words_inside
-v a -q b | ok (true, (true, [\"a\", \"b\"]))
a -- -v | ok (false, (false, [\"a\", \"-v\"]))
 | ok (false, (false, []))
# product_with_words_inside_refused
-v a -v | refused
-q a -q | refused
a --other | refused
";

const WORDS_OF_PRODUCTS: &str = "
# words_of_a_product_inside
a b c d | ok (\"a\", (\"b\", [\"c\", \"d\"]))
a b | ok (\"a\", (\"b\", []))
a | refused
";

#[test]
fn products_with_words_run_inside_others(rt: HostRuntime) -> Result<(), Fail> {
    let alloc = rt.alloc();
    let quiet = switch(alloc, 'q')?;
    let files = word().many();
    compare_behind(alloc, construct!(quiet, files), PRODUCT_WITH_WORDS)?;
    let second = word();
    let files = word().many();
    compare_two(alloc, word(), construct!(second, files), WORDS_OF_PRODUCTS)
}

const COMMAND_CLOSED: &str = "
# closures_round_a_command
 | ok None
build -n 3 | ok Some(6)
build -n 12 | refused
build -n 5 | refused
";

/// Compares the answers of a number below 10, twice, that isn't 10, or may be left out, in a
/// section and without a usage.
fn compare_doubled<P: ProgramField<u64> + Drop>(
    alloc: Global,
    parser: P,
    rows: &str,
) -> Result<(), Fail>
    requires { P.can_eval parser }
{
    let below = parser.guard(|n| *n < 10, "below 10");
    let twice = below.map(|n| n.saturating_add(n)).optional();
    let even = twice.parse(|n: Option<u64>| match n {
        Some(10) => Err("ten"),
        other => Ok(other),
    });
    compare(alloc, even.hide_usage().group_help(Doc::new(alloc)), rows)
}

#[test]
fn closures_round_commands_run_as_programs(rt: HostRuntime) -> Result<(), Fail> {
    // program_of_a_command_with_closures
    compare_doubled(rt.alloc(), build(rt.alloc())?, COMMAND_CLOSED)?;
    // program_of_commands_with_closures
    compare_doubled(rt.alloc(), build_or_run(rt.alloc())?, COMMAND_CLOSED)
}

const COMMANDS_ALONE: &str = "
# command_alone
build -n 3 | ok 3
 | refused
-n 3 | refused
build build | refused
";

#[test]
fn commands_alone_run_as_programs(rt: HostRuntime) -> Result<(), Fail> {
    // program_of_a_command_alone
    compare(rt.alloc(), build(rt.alloc())?, COMMANDS_ALONE)?;
    // program_of_commands_alone
    compare(rt.alloc(), build_or_run(rt.alloc())?, COMMANDS_ALONE)
}

/// A command over the flag `-f`, which tells the second letter where it is there, else the first.
fn forced(
    alloc: Global,
    word: &str,
    letters: (char, char),
) -> Result<ParseCommand<char, ParseFlag<char>>, AllocError> {
    let force = short(alloc, 'f')?.flag(letters.1, letters.0);
    force.to_options(alloc)?.command(word)
}

/// Compares the answers of `add [-f]` or `rm [-f]`.
fn compare_tasks(alloc: Global, rows: &str) -> Result<(), Fail> {
    let mut tasks = Vec::new(alloc);
    tasks.push(forced(alloc, "add", ('a', 'A'))?)?;
    tasks.push(forced(alloc, "rm", ('r', 'R'))?)?;
    compare(alloc, choice(tasks), rows)
}

const SHARED_KEY: &str = "
# key_of_two_commands
add -f | ok 'A'
rm -f | ok 'R'
add | ok 'a'
rm | ok 'r'
# key_of_two_commands_refused
 | refused
-f add | refused
add rm | refused
add -f -f | refused
";

#[test]
fn commands_that_share_a_key_run_as_programs(rt: HostRuntime) -> Result<(), Fail> {
    // program_of_commands_that_share_a_key
    compare_tasks(rt.alloc(), SHARED_KEY)
}

/// Compares the answers of the switch `-v`, and a command of this word over a program.
fn compare_inside<T: Debug + Drop, P: ProgramField<T> + Drop>(
    alloc: Global,
    word: &str,
    parser: P,
    rows: &str,
) -> Result<(), Fail>
    requires { P.can_eval parser }
{
    compare_behind(alloc, parser.to_options(alloc)?.command(word)?, rows)
}

const INSIDE_A_COMMAND: &str = "
# command_inside_a_command
tool build -n 3 | ok (false, 3)
-v tool run -n 3 | ok (true, 3)
tool -v run -n 3 | ok (true, 3)
tool run -n 3 -v | ok (true, 3)
# command_inside_a_command_refused
tool | refused
build -n 3 | refused
tool -n 3 build | refused
tool tool build -n 3 | refused
tool build -n 3 run | refused
# help_inside_a_command
tool run --help | shown
";

#[test]
fn commands_of_a_command_run_as_programs(rt: HostRuntime) -> Result<(), Fail> {
    let alloc = rt.alloc();
    // program_of_commands_inside_a_command
    compare_inside(alloc, "tool", build_or_run(alloc)?, INSIDE_A_COMMAND)
}

const WORDS_OF_A_COMMAND: &str = "
# words_inside_command
run run x | ok (false, [\"run\", \"x\"])
run x -- -v -- | ok (false, [\"x\", \"-v\", \"--\"])
run -vq | ok (false, [\"-vq\"])
# the same command on other words
run | ok (false, [])
run -- | ok (false, [])
run x -v y | ok (true, [\"x\", \"y\"])
run -q | refused
-- run x | refused
x run | refused
";

#[test]
fn words_of_a_command_run_as_programs(rt: HostRuntime) -> Result<(), Fail> {
    compare_inside(rt.alloc(), "run", word().many(), WORDS_OF_A_COMMAND)
}

/// Compares the answers of `[-v] add [-h]`, where `--usage` asks for help of the command.
fn compare_asked(alloc: Global, rows: &str) -> Result<(), Fail> {
    let options = switch(alloc, 'h')?.to_options(alloc)?;
    let options = options.help_parser(long(alloc, "usage")?);
    compare_behind(alloc, options.command("add")?, rows)
}

const NAMED_AS_HELP: &str = "
# inner_key_of_outer_help
add -h | ok (false, true)
add --usage | shown
-h add | shown
# the same keys on other words
add -v -h | ok (true, true)
add -h -h | refused
";

#[test]
fn a_key_named_as_the_outer_help_runs_as_a_program(rt: HostRuntime) -> Result<(), Fail> {
    // program_with_inner_key_of_outer_help
    compare_asked(rt.alloc(), NAMED_AS_HELP)
}

const HIDDEN_AND_KEPT: &str = "
# hidden_and_kept_values
-n 3 | ok (3, None, 5)
-n=3 | ok (3, None, 5)
-w 4 -n 3 | ok (3, Some(4), 5)
# hidden_short_names_are_unknown
-n3 | refused
-w4 -n 3 | refused
# hidden_and_kept_values_refused
 | refused
-n 3 -n 4 | refused
-n 3 x | refused
";

#[test]
fn hidden_and_kept_values_run_as_programs(rt: HostRuntime) -> Result<(), Fail> {
    let alloc = rt.alloc();
    let num = number(alloc, 'n')?.hide();
    let width = number(alloc, 'w')?.hide().optional();
    let kept = pure(5u64);
    compare(alloc, construct!(num, width, kept), HIDDEN_AND_KEPT)
}

const HIDDEN_COMMAND: &str = "
# hidden_command
build -n 3 | ok (false, 3)
build -n 3 -v | ok (true, 3)
-n 3 | refused
";

#[test]
fn a_hidden_command_runs_as_a_program(rt: HostRuntime) -> Result<(), Fail> {
    let alloc = rt.alloc();
    compare_behind(alloc, build(alloc)?.hide(), HIDDEN_COMMAND)
}

const STRICT: &str = "
# strict_before_marker_refused
a | err expected `FILE` to be on the right side of `--`
# strict_after_marker
-- a | ok \"a\"
";

const NON_STRICT: &str = "
# non_strict_before_marker
a | ok \"a\"
# non_strict_after_marker_refused
-- a | err expected `FILE` to be on the left side of `--`
";

#[test]
fn words_on_one_side_run_as_programs(rt: HostRuntime) -> Result<(), Fail> {
    let alloc = rt.alloc();
    // program_of_strict_words
    compare(alloc, word().strict(), STRICT)?;
    // program_of_non_strict_words
    compare(alloc, word().non_strict(), NON_STRICT)
}

const WORDS_ON_BOTH_SIDES: &str = "
# words_on_both_sides
a b -- c -d | ok ([\"a\", \"b\"], [\"c\", \"-d\"])
-- c | ok ([], [\"c\"])
a | ok ([\"a\"], [])
 | ok ([], [])
";

const WORD_BEFORE_LEFT_OUT: &str = "
# word_before_left_out
a -- b c | ok (Some(\"a\"), [\"b\", \"c\"])
-- b | ok (None, [\"b\"])
 | ok (None, [])
a b | refused
";

#[test]
fn words_on_both_sides_run_as_programs(rt: HostRuntime) -> Result<(), Fail> {
    let alloc = rt.alloc();
    let before = word().non_strict().many();
    // program_of_words_on_both_sides
    compare_two(alloc, before, word().strict().many(), WORDS_ON_BOTH_SIDES)?;
    let before = word().non_strict().optional();
    compare_two(alloc, before, word().strict().many(), WORD_BEFORE_LEFT_OUT)
}

const ADJACENT: &str = "
# adjacent_value_joined
-n3 | ok 3
# adjacent_value_with_equals
-n=3 | ok 3
# adjacent_value_detached_refused
-n 3 | refused
# second_adjacent_value_refused
-n3 -n=3 | refused
";

#[test]
fn an_adjacent_argument_runs_as_a_program(rt: HostRuntime) -> Result<(), Fail> {
    let alloc = rt.alloc();
    // program_of_an_adjacent_argument
    compare(alloc, number(alloc, 'n')?.adjacent(), ADJACENT)
}

const GROUP: &str = "
# group_of_options
a -v -n 3 | ok ((true, 3), \"a\")
-n3 a | ok ((false, 3), \"a\")
# group_of_options_refused
-v -n 3 | refused
-n 3 -v -v a | refused
-n a | refused
-n 3 a b | refused
";

#[test]
fn a_group_of_options_runs_as_a_program(rt: HostRuntime) -> Result<(), Fail> {
    let alloc = rt.alloc();
    let verbose = switch(alloc, 'v')?;
    let num = number(alloc, 'n')?;
    let group = construct!(verbose, num).group_help(Doc::new(alloc));
    // program_of_a_group
    compare_two(alloc, group, word(), GROUP)
}
