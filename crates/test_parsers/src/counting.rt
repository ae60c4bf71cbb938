//! How often closures are called: once in each evaluation of their parser, also where the parse
//! goes back and does again what is kept.
use bpaf_core::Parser;
use bpaf_text::short;
use std::alloc::{AllocError, Global};
use std::cell::Cell;
use std::test::Fail;
use test_support::{num, prints, switch, value};

/// One call more, which gives the value on.
fn counted(calls: &Cell<u64>, value: u64) -> u64 {
    calls.set(calls.get().wrapping_add(1));
    value
}

/// How often the closure behind each branch is called, for any number of `-a` and `-b`.
fn calls_of_branches(alloc: Global, words: &[&str]) -> Result<(u64, u64), AllocError> {
    let first = Cell::new(0);
    let second = Cell::new(0);
    let a = short(alloc, 'a')?
        .req_flag(1)
        .map(|number| counted(&first, number));
    let b = short(alloc, 'b')?
        .req_flag(2)
        .map(|number| counted(&second, number));
    let _ = value(alloc, a.or_else(b).many(), words)?;
    Ok((first.get(), second.get()))
}

#[test]
fn branches_are_evaluated_once_a_step(rt: HostRuntime) -> Result<(), Fail> {
    let a = rt.alloc();
    prints(a, calls_of_branches(a, &["-a", "-b", "-a"]), "(3, 2)")?;
    prints(a, calls_of_branches(a, &[]), "(0, 0)")
}

/// How often the closures behind a number and behind its default are called; the first refuses 5.
fn calls_of_default(alloc: Global, words: &[&str]) -> Result<(u64, u64), AllocError> {
    let inner = Cell::new(0);
    let default = Cell::new(0);
    let number = num(alloc)?.parse(|number| match counted(&inner, number) {
        5 => Err("five"),
        number => Ok(number),
    });
    let number = number.fallback_with(|| Ok::<u64, &str>(counted(&default, 7)));
    let _ = value(alloc, number, words)?;
    Ok((inner.get(), default.get()))
}

/// How often the closure behind a number is called, where a kept value is its default.
fn calls_before_kept(alloc: Global, words: &[&str]) -> Result<u64, AllocError> {
    let calls = Cell::new(0);
    let number = num(alloc)?.map(|number| counted(&calls, number));
    let _ = value(alloc, number.fallback(7), words)?;
    Ok(calls.get())
}

#[test]
fn defaults_evaluate_once(rt: HostRuntime) -> Result<(), Fail> {
    let a = rt.alloc();
    prints(a, calls_of_default(a, &["-n", "3"]), "(1, 0)")?;
    prints(a, calls_of_default(a, &[]), "(0, 1)")?;
    prints(a, calls_of_default(a, &["-n", "5"]), "(1, 0)")?;
    prints(a, calls_before_kept(a, &["-n", "3"]), "1")
}

/// How often the closure inside the adjacent command `a` over the switch `-x` is called.
fn calls_of_attempts(alloc: Global, words: &[&str]) -> Result<u64, AllocError> {
    let calls = Cell::new(0);
    let x = switch(alloc, 'x')?.map(|_| counted(&calls, 1));
    let command = x.to_options(alloc)?.command("a")?.adjacent();
    let _ = value(alloc, command, words)?;
    Ok(calls.get())
}

#[test]
fn adjacent_command_is_evaluated_for_each_attempt(rt: HostRuntime) -> Result<(), Fail> {
    let a = rt.alloc();
    prints(a, calls_of_attempts(a, &["a", "-x"]), "1")?;
    prints(a, calls_of_attempts(a, &["a", "-x", "w"]), "2")?;
    prints(a, calls_of_attempts(a, &["a", "w", "-x"]), "2")?;
    prints(a, calls_of_attempts(a, &["w", "a"]), "0")
}

/// How often the closures of `map`, `parse` and `guard`, one round the other, are called.
fn calls_of_transforms(alloc: Global, words: &[&str]) -> Result<(u64, u64, u64), AllocError> {
    let made = Cell::new(0);
    let parsed = Cell::new(0);
    let checked = Cell::new(0);
    let number = num(alloc)?
        .map(|number| counted(&made, number))
        .parse(|number| match counted(&parsed, number) {
            5 => Err("five"),
            number => Ok(number),
        })
        .guard(|number| counted(&checked, *number) < 8, "too big");
    let _ = value(alloc, number, words)?;
    Ok((made.get(), parsed.get(), checked.get()))
}

#[test]
fn transforms_call_their_closures_once(rt: HostRuntime) -> Result<(), Fail> {
    let a = rt.alloc();
    prints(a, calls_of_transforms(a, &["-n", "3"]), "(1, 1, 1)")?;
    prints(a, calls_of_transforms(a, &["-n", "9"]), "(1, 1, 1)")?;
    prints(a, calls_of_transforms(a, &["-n", "5"]), "(1, 1, 0)")?;
    prints(a, calls_of_transforms(a, &["-n", "x"]), "(0, 0, 0)")?;
    prints(a, calls_of_transforms(a, &[]), "(0, 0, 0)")
}

/// The value of a number with five `map`s of one closure round it.
fn mapped_by_five<P: Parser<u64> + Drop, F: Fn(u64) -> u64 + Copy>(
    alloc: Global,
    number: P,
    map: F,
    words: &[&str],
) -> Result<Option<u64>, AllocError>
    requires evaluated { P.can_eval number }
    requires callable { F.IsAlwaysCallable map }
{
    let number = number.map(map).map(map).map(map).map(map).map(map);
    value(alloc, number, words)
}

/// The same of ten.
fn mapped_by_ten<P: Parser<u64> + Drop, F: Fn(u64) -> u64 + Copy>(
    alloc: Global,
    number: P,
    map: F,
    words: &[&str],
) -> Result<Option<u64>, AllocError>
    requires evaluated { P.can_eval number }
    requires callable { F.IsAlwaysCallable map }
{
    let five = number.map(map).map(map).map(map).map(map).map(map);
    mapped_by_five(alloc, five, map, words)
}

/// How often the closures of ten `map`s in one another are called.
fn calls_of_maps(alloc: Global, words: &[&str]) -> Result<u64, AllocError> {
    let calls = Cell::new(0);
    let _ = mapped_by_ten(alloc, num(alloc)?, |number| counted(&calls, number), words)?;
    Ok(calls.get())
}

#[test]
fn ten_maps_call_ten_closures(rt: HostRuntime) -> Result<(), Fail> {
    let a = rt.alloc();
    prints(a, calls_of_maps(a, &["-n", "3"]), "10")?;
    prints(a, calls_of_maps(a, &["-n", "x"]), "0")
}
