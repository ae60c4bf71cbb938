//! The name by which a program is called.
use bpaf::{Args, Parser, appname};
use std::alloc::{AllocError, Global};
use std::test::Fail;
use test_support::prints;

/// The name of a program.
fn name_of(alloc: Global, args: Args<'_>) -> Result<Option<String>, AllocError> {
    Ok(appname().to_options(alloc)?.run_once(args).ok())
}

#[test]
fn appname_with_name(rt: HostRuntime) -> Result<(), Fail> {
    let a = rt.alloc();
    let words: [&str; 0] = [];
    let named = Args::from(&words).set_name("x");
    // appname_with_name
    prints(a, name_of(a, named), "Some(\"x\")")
}
