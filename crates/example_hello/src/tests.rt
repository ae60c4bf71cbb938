//! What the program writes on some lines of words.
use crate::text_of;
use bpaf_program::print;
use std::alloc::Global;
use std::io::Write;
use std::test::Fail;
use test_support::{Tried, ran};

/// The program.
struct Program;

impl Tried for Program {
    fn run<W: Write, E: Write>(
        &self,
        alloc: Global,
        words: &[String],
        out: &mut W,
        err: &mut E,
    ) -> u8 {
        print(text_of(alloc, words), out, err)
    }
}

#[test]
fn options_are_printed(rt: HostRuntime) -> Result<(), Fail> {
    let rows = [
        ("-v -n 3 a b", "true, 3, 2 files\n"),
        ("a -vn3 b", "true, 3, 2 files\n"),
        ("--num=4", "false, 4, 0 files\n"),
    ];
    for (words, text) in rows {
        assert!(rt; ran(rt.alloc(), &Program, words)?.is_text(text));
    }
    Ok(())
}

#[test]
fn refusals_are_told(rt: HostRuntime) -> Result<(), Fail> {
    let rows = [
        ("-n", "`-n` requires an argument `NUM`"),
        ("-n 3 -x", "`-x` is not expected in this context"),
    ];
    for (words, message) in rows {
        assert!(rt; ran(rt.alloc(), &Program, words)?.is_message(message));
    }
    Ok(())
}

/// The help page.
const PAGE: &str = "\
Usage: hello [--verbose] --num=NUM [FILE]...

Available positional items:
    FILE           Files to count

Available options:
    -v, --verbose  Tell more
    -n, --num=NUM  A number
    -h, --help     Prints help information
";

#[test]
fn help_is_shown(rt: HostRuntime) -> Result<(), Fail> {
    assert!(rt; ran(rt.alloc(), &Program, "--help")?.is_text(PAGE));
    Ok(())
}
