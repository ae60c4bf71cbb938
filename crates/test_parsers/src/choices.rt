//! Choices of a switch and a number, and of one name that is a flag and an argument, as closures
//! make their values.
use bpaf_core::Parser;
use bpaf_text::long;
use std::alloc::Global;
use std::test::Fail;
use test_support::{num, verbose, walk};

/// What zero or a number answers: wrong input comes before the branch that took nothing.
const ZERO_OR_NUMBER: &str = "
# wrong_input_before_branch_without_item
-n | err `-n` requires an argument `NUM`
-n 3 | ok 3
";

/// Zero where the switch is there or not, or a number.
fn zero_or_number(alloc: Global) -> Result<(), Fail> {
    let zero = verbose(alloc)?.map(|_| 0);
    walk(alloc, zero.or_else(num(alloc)?), ZERO_OR_NUMBER)
}

/// What one name answers, with a value or without one.
const ONE_NAME: &str = "
# name_in_two_branches_with_value
--test 3 | ok Some(3)
# name_in_two_branches_without_value
--test | ok None
";

/// One name with a value or without one.
fn one_name_twice(alloc: Global) -> Result<(), Fail> {
    let some = long(alloc, "test")?.argument::<u64>("N").map(|n| Some(n));
    let none = long(alloc, "test")?.req_flag(None);
    walk(alloc, some.or_else(none), ONE_NAME)
}

#[test]
fn choices_of_one_kind_of_value_are_read(rt: HostRuntime) -> Result<(), Fail> {
    zero_or_number(rt.alloc())?;
    one_name_twice(rt.alloc())
}
