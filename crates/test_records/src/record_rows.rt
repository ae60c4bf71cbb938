//! Worked rows through `run_record`, and through `record_value` and `program_value`, which give the
//! same: each field of a flat record once, on lines of words, each with its whole answer. All run
//! as `run_inner` does, on which rows.txt has them all.
use bpaf::params::{ParseArgument, ParsePositional};
use bpaf::{Args, Doc, OptionParser, ParseFailure, Parser, choice, construct, positional, short};
use bpaf_record::{CommandLine, FlatField, ProgramField, Record};
use std::alloc::{AllocError, Global};
use std::collections::BTreeSet;
use std::fmt::Debug;
use std::test::Fail;
use test_support::{fits, number, rows_of, switch};

/// A word.
fn word() -> ParsePositional<String> {
    positional("FILE")
}

/// Runs a flat record on the words of each row, and compares the answers.
pub(crate) fn compare<T: Debug + Drop, P: ProgramField<T> + FlatField<T> + Drop>(
    alloc: Global,
    parser: P,
    rows: &str,
) -> Result<(), Fail>
    requires { P.can_eval parser }
{
    let options = parser.to_options(alloc)?;
    compare_options(alloc, &options, rows)
}

/// The answer of options that are known to be a flat record or a program.
pub(crate) fn known<T>(
    answer: Result<Option<T>, ParseFailure>,
) -> Result<Result<T, ParseFailure>, Fail> {
    match answer {
        Ok(Some(value)) => Ok(Ok(value)),
        Ok(None) => Err(Fail::new("no program")),
        Err(failure) => Ok(Err(failure)),
    }
}

/// The same of options, as a flat record and as a program.
pub(crate) fn compare_options<T: Debug + Drop, P: ProgramField<T> + FlatField<T> + Drop>(
    alloc: Global,
    options: &OptionParser<T, P>,
    rows: &str,
) -> Result<(), Fail>
    requires { P.can_eval options.now.inner }
{
    if !options.is_record() {
        return Err(Fail::new("no flat record"));
    }
    if !options.is_program() {
        return Err(Fail::new("no program"));
    }
    for row in rows_of(alloc, rows)? {
        let answer = options.run_record(Args::from(row.words.as_slice()));
        fits(alloc, answer, row.wanted)?;
        let answer = options.record_value(Args::from(row.words.as_slice()));
        fits(alloc, known(answer)?, row.wanted)?;
        let answer = options.program_value(Args::from(row.words.as_slice()));
        fits(alloc, known(answer)?, row.wanted)?;
    }
    Ok(())
}

/// The same of a product of two fields.
fn compare_pair<
    A: Debug + Drop,
    B: Debug + Drop,
    P: ProgramField<A> + FlatField<A> + Drop,
    Q: ProgramField<B> + FlatField<B> + Drop,
>(alloc: Global, first: P, second: Q, rows: &str) -> Result<(), Fail>
    requires first { P.can_eval first }
    requires second { Q.can_eval second }
{
    compare(alloc, construct!(first, second), rows)
}

/// The same of a product of three fields.
fn compare_triple<
    A: Debug + Drop,
    B: Debug + Drop,
    C: Debug + Drop,
    P: ProgramField<A> + FlatField<A> + Drop,
    Q: ProgramField<B> + FlatField<B> + Drop,
    R: ProgramField<C> + FlatField<C> + Drop,
>(alloc: Global, first: P, second: Q, third: R, rows: &str) -> Result<(), Fail>
    requires first { P.can_eval first }
    requires second { Q.can_eval second }
    requires third { R.can_eval third }
{
    compare(alloc, construct!(first, second, third), rows)
}

const NUMBER: &str = "
# second_value_refused
-n 3 -n 4 | err argument `-n` cannot be used multiple times in this context
# marker_ends_options
-n -- 3 | err `-n` requires an argument `NUM`
# flag_in_place_of_value
-n --bar | err `-n` requires an argument `NUM`, got a flag `--bar`, try `-n=--bar` to use it as an \
    argument
# another flag
-n -5 | err `-n` requires an argument `NUM`, got a flag `-5`, try `-n=-5` to use it as an argument
# empty_attached_value
-n= | err couldn't parse `-n=\"\"`: not a whole number in range
# greatest_number_read
-n 18446744073709551615 | ok 18446744073709551615
# number_too_great_refused
-n 18446744073709551616 | err couldn't parse `18446744073709551616`: not a whole number in range
# help_is_no_value
-n --help | shown
";

#[test]
fn numbers_run_as_records(rt: HostRuntime) -> Result<(), Fail> {
    let a = rt.alloc();
    // record_of_one_argument
    compare(a, number(a, 'n')?, NUMBER)
}

const LAST_NUMBER_ALONE: &str = "
# last_value_taken
-n 3 -n 4 | ok 4
# last_value_read
-n 4 -n x | err couldn't parse `x`: not a whole number in range
# earlier_value_not_read
-n x -n 4 | ok 4
# the last value in its key's word
-n x -n4 | ok 4
";

#[test]
fn last_numbers_run_as_records(rt: HostRuntime) -> Result<(), Fail> {
    let a = rt.alloc();
    // record_of_last_value
    compare(a, number(a, 'n')?.take_last(), LAST_NUMBER_ALONE)
}

const OPTIONS_AND_WORDS: &str = "
-vn3 x | ok (true, 3, [\"x\"])
x -n 3 -v y | ok (true, 3, [\"x\", \"y\"])
-n 3 -vx | ok (false, 3, [\"-vx\"])
-n 3 -- -v | ok (false, 3, [\"-v\"])
-v -v -n 3 x | err argument `-v` cannot be used multiple times in this context
-v -v --help | shown
";

#[test]
fn products_of_two_run_as_records(rt: HostRuntime) -> Result<(), Fail> {
    let a = rt.alloc();
    // unknown_joined_word_is_positional
    compare_pair(a, switch(a, 'v')?, word(), "-vx | ok (false, \"-vx\")")?;
    // word_of_second_key_taken_by_positional
    let rows = "-n 3 -n 4 | err argument `-n` cannot be used multiple times in this context";
    compare_pair(a, number(a, 'n')?, word(), rows)?;
    // record_repeat_takes_all_words
    let rows = "x y | err expected `Q`, pass `--help` for usage information";
    compare_pair(a, word().many(), positional::<String>("Q"), rows)
}

const IN_PLACE: &str = "
# fields_named_in_place_absent
 | ok (false, false)
# fields_named_in_place_present
-a -b | ok (true, true)
";

#[test]
fn fields_named_in_place_run_as_records(rt: HostRuntime) -> Result<(), Fail> {
    let alloc = rt.alloc();
    let fields = construct!(
        a(short(alloc, 'a')?.switch()),
        b(short(alloc, 'b')?.switch())
    );
    compare(alloc, fields, IN_PLACE)
}

#[test]
fn long_switches_run_as_records(rt: HostRuntime) -> Result<(), Fail> {
    let alloc = rt.alloc();
    let verbose = short(alloc, 'v')?.long("verbose")?.switch();
    // value_of_switch_refused
    compare(
        alloc,
        verbose,
        "--verbose=yes | err `yes` is not expected in this context",
    )
}

#[test]
fn products_of_three_run_as_records(rt: HostRuntime) -> Result<(), Fail> {
    let a = rt.alloc();
    let verbose = switch(a, 'v')?;
    let num = number(a, 'n')?;
    // record_of_switch_argument_and_words
    // program_of_a_record
    compare_triple(a, verbose, num, word().many(), OPTIONS_AND_WORDS)
}

const OPTIONS_AND_WORD: &str = "
# joined_flag_and_value_before_word
-vn3 x | ok (true, 3, \"x\")
# options_after_word
x -n 3 -v | ok (true, 3, \"x\")
";

/// With ample memory none is wanted: a body that always gives up is proved, and this test, as each
/// row with a value, is what refuses it.
#[test]
fn memory_unforced(rt: HostRuntime) -> Result<(), Fail> {
    let a = rt.alloc();
    let verbose = switch(a, 'v')?;
    let num = number(a, 'n')?;
    compare_triple(a, verbose, num, word(), OPTIONS_AND_WORD)
}

const ANY_ORDER: &str = "
# record_in_any_order
-n1 x -v -n=2 | ok ([1, 2], true, Some(\"x\"))
# record_surplus_word_refused
x y | err `y` is not expected in this context
# no field at all
 | ok ([], false, None)
";

#[test]
fn fields_in_any_order_run_as_records(rt: HostRuntime) -> Result<(), Fail> {
    let a = rt.alloc();
    let nums = number(a, 'n')?.many();
    let verbose = switch(a, 'v')?;
    compare_triple(a, nums, verbose, word().optional(), ANY_ORDER)
}

const CLOSED: &str = "
 | ok 7
-n 3 | ok 6
-n 12 | err `12`: below 10
-n 5 | err couldn't parse `5`: odd
-n x | err couldn't parse `x`: not a whole number in range
";

/// Compares the answers of a number that isn't 5, twice, with a default.
fn compare_doubled<P: ProgramField<u64> + FlatField<u64> + Drop>(
    alloc: Global,
    parser: P,
    rows: &str,
) -> Result<(), Fail>
    requires { P.can_eval parser }
{
    let even = parser.parse(|n: u64| if n == 5 { Err("odd") } else { Ok(n) });
    compare(alloc, even.map(|n| n.saturating_add(n)).fallback(7), rows)
}

#[test]
fn checks_run_as_records(rt: HostRuntime) -> Result<(), Fail> {
    let a = rt.alloc();
    let num = number(a, 'n')?.guard(|n| *n < 10, "below 10");
    // guard_refuses
    compare(a, num, "-n 12 | err `12`: below 10")
}

#[test]
fn closures_run_as_records(rt: HostRuntime) -> Result<(), Fail> {
    let a = rt.alloc();
    let num = number(a, 'n')?.guard(|n| *n < 10, "below 10");
    compare_doubled(a, num, CLOSED)
}

#[test]
fn defaults_run_as_records(rt: HostRuntime) -> Result<(), Fail> {
    let a = rt.alloc();
    let failed = number(a, 'n')?.fallback_with(|| Err::<u64, &str>("no disk"));
    // failed_fallback_with
    compare(a, failed, " | err no disk\n-n 3 | ok 3")
}

#[test]
fn repeated_switches_run_as_records(rt: HostRuntime) -> Result<(), Fail> {
    let a = rt.alloc();
    // many_of_absent_switch
    compare(a, switch(a, 'v')?.many(), " | ok [false]\n-v | ok [true]")?;
    let set = switch(a, 'v')?.guard(|set| *set, "must be set");
    // many_asks_guard_once_more
    compare(a, set.many(), "-v | err check failed: must be set")
}

#[test]
fn repeats_run_as_records(rt: HostRuntime) -> Result<(), Fail> {
    let a = rt.alloc();
    // count_of_absent_switch
    // joined_flags_with_equals_are_one_value
    let rows = " | ok 1\n-vv=1 | err `v=1` is not expected in this context";
    compare(a, switch(a, 'v')?.count(), rows)?;
    // last_of_two_switches
    // last_of_absent_switch
    compare(a, switch(a, 'v')?.last(), "-v -v | ok true\n | ok false")?;
    // collect_to_set
    let numbers = number(a, 'n')?.collect::<BTreeSet<u64>>();
    compare(a, numbers, "-n 3 -n 1 -n 3 | ok {1, 3}")?;
    // some_without_value
    // words_after_marker_taken_by_some
    compare(
        a,
        word().some("need one"),
        " | err need one\na -- -- b | ok [\"a\", \"--\", \"b\"]",
    )
}

const REPEATED_CHOICE: &str = "
# choice_repeated_in_line_order
-b 3 -a 12 | ok [3, 12]
# choice_repeated_with_unreadable
-b x -a 1 | err couldn't parse `x`: not a whole number in range
# record_choice_in_line_order
-b3 -a=1 -b 2 | ok [3, 1, 2]
# no key at all
 | ok []
";

#[test]
fn repeated_choices_run_as_records(rt: HostRuntime) -> Result<(), Fail> {
    let alloc = rt.alloc();
    let choice = number(alloc, 'a')?.or_else(number(alloc, 'b')?);
    // record_of_repeated_choice
    compare(alloc, choice.many(), REPEATED_CHOICE)
}

const EITHER_NUMBER: &str = "
# both_branches_conflict
-a 12 -b 3 | err `-b` cannot be used at the same time as `-a`
# second_branch_taken
-b 13 | ok 13
# no_branch_taken
 | err expected `-a=NUM` or `-b=NUM`, pass `--help` for usage information
";

#[test]
fn choices_of_two_run_as_records(rt: HostRuntime) -> Result<(), Fail> {
    let alloc = rt.alloc();
    let a = number(alloc, 'a')?;
    let b = number(alloc, 'b')?;
    compare(alloc, construct!([a, b]), EITHER_NUMBER)
}

const THREE_NUMBERS: &str = "
# three_missing_shown_as_two_or_more
 | err expected `-a=NUM`, `-b=NUM`, or more, pass `--help` for usage information
# three numbers, of which two are there or one
-a 12 -b 3 | err `-b` cannot be used at the same time as `-a`
-b 13 | ok 13
-a 12 -b 3 --help | shown
";

/// Three numbers, behind `-a`, `-b` and `-c`.
fn three(alloc: Global) -> Result<Vec<ParseArgument<u64>>, AllocError> {
    let mut numbers = Vec::new(alloc);
    for name in ['a', 'b', 'c'] {
        numbers.push(number(alloc, name)?)?;
    }
    Ok(numbers)
}

#[test]
fn choices_of_three_run_as_records(rt: HostRuntime) -> Result<(), Fail> {
    let a = rt.alloc();
    compare(a, choice(three(a)?), THREE_NUMBERS)
}

#[test]
fn shown_numbers_run_as_records(rt: HostRuntime) -> Result<(), Fail> {
    let a = rt.alloc();
    let num = number(a, 'n')?.hide_usage().group_help(Doc::new(a));
    let rows = "-n 3 | ok 3\n-n | err `-n` requires an argument `NUM`";
    compare(a, num, rows)
}
