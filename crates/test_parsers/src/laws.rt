//! The laws that hold of every line and of every parser, each called once, and an answer of the
//! parser of which they are told.
use bpaf::{count_falls, lines_are_unique, spellings_are_unique};
use std::test::Fail;
use test_support::{answers, num, reads};

#[test]
fn laws_are_called(rt: HostRuntime) -> Result<(), Fail> {
    let alloc = rt.alloc();
    spellings_are_unique();
    lines_are_unique();
    let num = num(alloc)?;
    count_falls(&num);
    reads(
        answers(alloc, num, &[&["-n", "3"], &["-n=4"]]),
        "ok 3\nok 4\n",
    )
}
