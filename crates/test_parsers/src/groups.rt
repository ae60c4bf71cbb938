//! Adjacent groups as a program writes them, and how often one is evaluated.
use bpaf::params::ParseFlag;
use bpaf::{AdjacentError, Parser, construct, long, positional, pure};
use std::alloc::{AllocError, Global};
use std::cell::Cell;
use std::fmt::Debug;
use std::test::Fail;
use test_support::{num, reads, value, verbose, walk};

/// Why a group can't be made, as the failure of a test.
fn unmade(error: AdjacentError) -> Fail {
    match error {
        AdjacentError::NoFirstItem => Fail::new("no first item"),
        AdjacentError::Memory => Fail::from(AllocError),
    }
}

/// The required flag of this name.
fn flag(alloc: Global, name: &str) -> Result<ParseFlag<()>, AllocError> {
    Ok(long(alloc, name)?.req_flag(()))
}

/// What a switch and the group of `--point` and two numbers answer.
const SWITCH_AND_POINT: &str = "
# group_broken_by_foreign_item
--point 1 -v 2 | err expected `Y`, pass `--help` for usage information
# group_after_switch
-v --point 1 2 | ok (true, ((), 1, 2))
";

/// What any number of these groups answers.
const POINTS: &str = "
# group_repeated
--point 1 2 --point 3 4 | ok [((), 1, 2), ((), 3, 4)]
";

/// Compares the answers of the group behind a switch, or of any number of groups.
fn compare_points(alloc: Global, many: bool) -> Result<(), Fail> {
    let point = flag(alloc, "point")?;
    let x = positional::<u64>("X");
    let y = positional::<u64>("Y");
    match construct!(point, x, y).adjacent(alloc) {
        Ok(group) if many => walk(alloc, group.many(), POINTS),
        Ok(group) => {
            let verbose = verbose(alloc)?;
            walk(alloc, construct!(verbose, group), SWITCH_AND_POINT)
        }
        Err(error) => Err(unmade(error)),
    }
}

#[test]
fn points_are_groups(rt: HostRuntime) -> Result<(), Fail> {
    compare_points(rt.alloc(), false)?;
    compare_points(rt.alloc(), true)
}

/// A group whose first field shows no item, as text; or why it can't be made.
fn without_first_item(alloc: Global) -> Result<String, AllocError> {
    let a = pure(1);
    let num = num(alloc)?;
    // group_without_first_item
    let why = match construct!(a, num).adjacent(alloc) {
        Ok(_) => "made",
        Err(AdjacentError::NoFirstItem) => "NoFirstItem",
        Err(AdjacentError::Memory) => return Err(AllocError),
    };
    String::from_str(alloc, why)
}

#[test]
fn group_begins_with_an_item(rt: HostRuntime) -> Result<(), Fail> {
    reads(without_first_item(rt.alloc()), "NoFirstItem")
}

/// What five groups in one another answer.
const FIVE_GROUPS: &str = "
# five_groups_nested
--a --b --c --d --e x | ok ((), ((), ((), ((), ((), \"x\")))))
";

/// The same behind a switch.
const SWITCH_AND_FIVE_GROUPS: &str = "
# nested_groups_broken_by_switch
--a --b -v --c --d --e x | err expected `--c`, pass `--help` for usage information
";

/// Compares the answers of the outermost of five groups, perhaps behind a switch.
fn compare_five<T: Debug + Drop, P: Parser<T> + Drop>(
    alloc: Global,
    group: P,
    behind: bool,
) -> Result<(), Fail>
    requires { P.can_eval group }
{
    if behind {
        let verbose = verbose(alloc)?;
        walk(alloc, construct!(verbose, group), SWITCH_AND_FIVE_GROUPS)
    } else {
        walk(alloc, group, FIVE_GROUPS)
    }
}

/// The same of the groups from `--a` on, where this stands in them.
fn compare_from_a<T: Debug + Drop, P: Parser<T> + Drop>(
    alloc: Global,
    inner: P,
    behind: bool,
) -> Result<(), Fail>
    requires { P.can_eval inner }
{
    let a = flag(alloc, "a")?;
    match construct!(a, inner).adjacent(alloc) {
        Ok(group) => compare_five(alloc, group, behind),
        Err(error) => Err(unmade(error)),
    }
}

/// The same to `--b`.
fn compare_from_b<T: Debug + Drop, P: Parser<T> + Drop>(
    alloc: Global,
    inner: P,
    behind: bool,
) -> Result<(), Fail>
    requires { P.can_eval inner }
{
    let b = flag(alloc, "b")?;
    match construct!(b, inner).adjacent(alloc) {
        Ok(group) => compare_from_a(alloc, group, behind),
        Err(error) => Err(unmade(error)),
    }
}

/// The same to `--c`.
fn compare_from_c<T: Debug + Drop, P: Parser<T> + Drop>(
    alloc: Global,
    inner: P,
    behind: bool,
) -> Result<(), Fail>
    requires { P.can_eval inner }
{
    let c = flag(alloc, "c")?;
    match construct!(c, inner).adjacent(alloc) {
        Ok(group) => compare_from_b(alloc, group, behind),
        Err(error) => Err(unmade(error)),
    }
}

/// The same to `--d`.
fn compare_from_d<T: Debug + Drop, P: Parser<T> + Drop>(
    alloc: Global,
    inner: P,
    behind: bool,
) -> Result<(), Fail>
    requires { P.can_eval inner }
{
    let d = flag(alloc, "d")?;
    match construct!(d, inner).adjacent(alloc) {
        Ok(group) => compare_from_c(alloc, group, behind),
        Err(error) => Err(unmade(error)),
    }
}

/// The same of all five, the innermost with a word.
fn compare_nested(alloc: Global, behind: bool) -> Result<(), Fail> {
    let e = flag(alloc, "e")?;
    let x = positional::<String>("X");
    match construct!(e, x).adjacent(alloc) {
        Ok(group) => compare_from_d(alloc, group, behind),
        Err(error) => Err(unmade(error)),
    }
}

#[test]
fn five_groups_stand_in_one_another(rt: HostRuntime) -> Result<(), Fail> {
    compare_nested(rt.alloc(), false)?;
    compare_nested(rt.alloc(), true)
}

/// How often the closure of a group's field is called, or why the group can't be made.
fn calls_inside(alloc: Global, words: &[&str]) -> Result<String, AdjacentError> {
    let calls = Cell::new(0u64);
    let key = long(alloc, "point")?.req_flag(1).map(|n: u64| {
        calls.set(calls.get().wrapping_add(1));
        n
    });
    let x = positional::<u64>("X");
    let _ = value(alloc, construct!(key, x).adjacent(alloc)?, words)?;
    let calls = calls.get();
    Ok(format!(in alloc; "{calls}")?)
}

/// The number of calls, or why the group can't be made.
fn made(alloc: Global, calls: Result<String, AdjacentError>) -> Result<String, AllocError> {
    match calls {
        Ok(calls) => Ok(calls),
        Err(AdjacentError::NoFirstItem) => String::from_str(alloc, "no first item"),
        Err(AdjacentError::Memory) => Err(AllocError),
    }
}

#[test]
fn group_is_evaluated_for_its_probe_and_each_attempt(rt: HostRuntime) -> Result<(), Fail> {
    let a = rt.alloc();
    reads(made(a, calls_inside(a, &["--point", "1"])), "2")?;
    reads(made(a, calls_inside(a, &["--point", "1", "2"])), "3")?;
    reads(made(a, calls_inside(a, &["1"])), "0")
}
