//! Defaults that a help page shows.
use bpaf_core::Parser;
use std::alloc::{AllocError, Global};
use std::test::Fail;
use test_support::{answers, num, reads};

/// The page of a number and its default.
const PAGE: &str = "out Usage: [-n=NUM]\n\n\
    Available options:\n    \
    -n=NUM\n                \
    [default: 7]\n    \
    -h, --help  Prints help information\n\n";

/// The same, and the default as the answer of the empty line.
const PAGE_AND_VALUE: &str = "out Usage: [-n=NUM]\n\n\
    Available options:\n    \
    -n=NUM\n                \
    [default: 7]\n    \
    -h, --help  Prints help information\n\n\
    ok 7\n";

/// The page with the default as the closure writes it.
const FORMATTED: &str = "out Usage: [-n=NUM]\n\n\
    Available options:\n    \
    -n=NUM\n                \
    [default: 7 or so]\n    \
    -h, --help  Prints help information\n\n";

#[test]
fn defaults_are_shown(rt: HostRuntime) -> Result<(), Fail> {
    let a = rt.alloc();
    // help_with_default
    let shown = num(a)?.fallback(7).display_fallback(a)?;
    reads(answers(a, shown, &[&["--help"], &[]]), PAGE_AND_VALUE)?;
    // help_with_default_in_other_forms
    let shown = num(a)?.fallback(7).debug_fallback(a)?;
    reads(answers(a, shown, &[&["--help"]]), PAGE)?;
    let shown = num(a)?.fallback(7);
    let shown = shown.format_fallback(a, |n| format!(in a; "{n} or so"))?;
    reads(answers(a, shown, &[&["--help"]]), FORMATTED)
}

#[test]
fn answers_of_closures_are_shown(rt: HostRuntime) -> Result<(), Fail> {
    let a = rt.alloc();
    let seven = || Ok::<u64, String>(7);
    // help_with_answer_of_a_closure
    let shown = num(a)?.fallback_with(seven).display_fallback(a)?;
    reads(answers(a, shown, &[&["--help"], &[]]), PAGE_AND_VALUE)?;
    let shown = num(a)?.fallback_with(seven).debug_fallback(a)?;
    reads(answers(a, shown, &[&["--help"]]), PAGE)?;
    let shown = num(a)?.fallback_with(seven);
    let shown = shown.format_fallback(a, |n| format!(in a; "{n} or so"))?;
    reads(answers(a, shown, &[&["--help"]]), FORMATTED)
}

/// Whether a default is made whose closure refuses for want of memory.
fn is_shown(alloc: Global) -> Result<bool, AllocError> {
    let n = num(alloc)?.fallback(7);
    Ok(n.format_fallback(alloc, |_| Err(AllocError)).is_ok())
}

#[test]
fn refused_defaults_are_told(rt: HostRuntime) -> Result<(), Fail> {
    // refused_default
    assert!(rt; !is_shown(rt.alloc())?);
    Ok(())
}
