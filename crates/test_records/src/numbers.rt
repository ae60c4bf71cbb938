//! Negative numbers as words, through `run_record`.
use crate::record_rows::{compare, compare_options};
use bpaf::{Parser, construct, positional, short};
use bpaf_record::{FlatField, ProgramField};
use std::alloc::Global;
use std::fmt::Debug;
use std::test::Fail;

/// Runs a flat record by which negative numbers are words on each row, and compares the answers.
fn compare_numbers<T: Debug + Drop, P: ProgramField<T> + FlatField<T> + Drop>(
    alloc: Global,
    parser: P,
    rows: &str,
) -> Result<(), Fail>
    requires { P.can_eval parser }
{
    let options = parser.to_options(alloc)?.numbers_as_words();
    compare_options(alloc, &options, rows)
}

/// Rows of a number behind a key.
const BEHIND_KEY: &str = "
# negative_number_is_a_value
-n -5 | ok -5
# other numbers and words
-n=-5 | ok -5
-n5 | ok 5
-n -- -5 | err `-n` requires an argument `NUM`
-n -5a | err couldn't parse `-5a`: not a whole number in range
-n -a | err `-n` requires an argument `NUM`, got a flag `-a`, try `-n=-a` to use it as an argument
";

/// Rows of a number behind a key, where negative numbers are no words.
const FLAGS: &str = "
# negative_number_is_a_flag
-n -5 | err `-n` requires an argument `NUM`, got a flag `-5`, try `-n=-5` to use it as an argument
-n=-5 | ok -5
";

/// Rows of a number behind a key and of any number of words.
const BESIDE_WORDS: &str = "
# numbers_behind_a_key_and_words
-n -5 -1 2 | ok (-5, [-1, 2])
-1 -n -5 -- -2 3 | ok (-5, [-1, -2, 3])
# second keys and words that are none
-n -5 -n -6 | err argument `-n` cannot be used multiple times in this context
-n -5 -6= | err `-6` is not expected in this context
";

#[test]
fn negative_numbers_behind_a_key_run_as_records(rt: HostRuntime) -> Result<(), Fail> {
    let a = rt.alloc();
    let num = short(a, 'n')?.argument::<i64>("NUM");
    compare_numbers(a, num, BEHIND_KEY)?;
    let num = short(a, 'n')?.argument::<i64>("NUM");
    compare(a, num, FLAGS)
}

#[test]
fn negative_numbers_as_words_run_as_records(rt: HostRuntime) -> Result<(), Fail> {
    let a = rt.alloc();
    let num = short(a, 'n')?.argument::<i64>("NUM");
    let words = positional::<i64>("X").many();
    compare_numbers(a, construct!(num, words), BESIDE_WORDS)
}
