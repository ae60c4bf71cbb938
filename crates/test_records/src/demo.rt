//! The worked rows of the program `bpaf_demo`, what it writes where there are no options, and that
//! it writes nothing behind a write that failed.
use example_demo::run;
use std::alloc::Global;
use std::io::Write;
use std::test::Fail;
use test_support::{Tried, ran, ran_failing};

/// The program.
struct Demo;

impl Tried for Demo {
    fn run<W: Write, E: Write>(
        &self,
        alloc: Global,
        words: &[String],
        out: &mut W,
        err: &mut E,
    ) -> u8 {
        run(alloc, words, out, err)
    }
}

#[test]
fn options_and_files_are_printed(rt: HostRuntime) -> Result<(), Fail> {
    let rows = [
        // program_switch_and_number
        ("-v -n 3", "verbose: true\nnum: 3\n"),
        // program_joined_word
        ("-vn3", "verbose: true\nnum: 3\n"),
        // program_attached_number
        ("--num=3", "verbose: false\nnum: 3\n"),
        // program_switch_after_number
        ("-n=3 -v", "verbose: true\nnum: 3\n"),
        // program_long_names
        ("--num 3 --verbose", "verbose: true\nnum: 3\n"),
        // program_last_number_in_any_spelling
        ("-n 3 --num=4", "verbose: false\nnum: 4\n"),
        // program_last_number_counts
        ("-n 3 -n 4", "verbose: false\nnum: 4\n"),
        // program_earlier_number_not_read
        ("-n x -v -n4", "verbose: true\nnum: 4\n"),
        // program_word_is_a_file
        ("-n 3 x", "verbose: false\nnum: 3\nfile: x\n"),
        // program_files_among_options
        ("-n 3 a -v b", "verbose: true\nnum: 3\nfile: a\nfile: b\n"),
    ];
    for (words, lines) in rows {
        assert!(rt; ran(rt.alloc(), &Demo, words)?.is_text(lines));
    }
    Ok(())
}

#[test]
fn refusals_print_no_options(rt: HostRuntime) -> Result<(), Fail> {
    let rows = [
        // program_without_words_refused
        (
            "",
            "expected `--num=NUM`, pass `--help` for usage information",
        ),
        // program_number_without_value_refused
        ("-n", "`-n` requires an argument `NUM`"),
        // program_second_switch_refused
        (
            "-v -n 3 -v",
            "argument `-v` cannot be used multiple times in this context",
        ),
        // program_last_number_without_value_refused
        ("-n 3 -n", "`-n` requires an argument `NUM`"),
        // program_word_alone_refused
        (
            "x",
            "expected `--num=NUM`, pass `--help` for usage information",
        ),
        // program_near_name_refused
        (
            "--verbos -n 3",
            "`--verbos` is not expected in this context",
        ),
        // program_value_of_switch_refused
        (
            "--verbose=yes -n 3",
            "`yes` is not expected in this context",
        ),
    ];
    for (words, message) in rows {
        assert!(rt; ran(rt.alloc(), &Demo, words)?.is_message(message));
    }
    Ok(())
}

#[test]
fn help_is_printed(rt: HostRuntime) -> Result<(), Fail> {
    let page = "Usage: bpaf_demo [--verbose] --num=NUM [FILE]...

Available positional items:
    FILE           Files to read

Available options:
    -v, --verbose  Print more
    -n, --num=NUM  A number
    -h, --help     Prints help information
";
    // program_help
    assert!(rt; ran(rt.alloc(), &Demo, "--help")?.is_text(page));
    assert!(rt; ran(rt.alloc(), &Demo, "-n 3 -v -h")?.is_text(page));
    Ok(())
}

/// Words; the status; and the text that stands on one of the two writers, in its place: a bar
/// stands before each writer.
type Whole<'a> = (&'a str, &'a str, &'a str, &'a str, &'a str);

/// Runs of which each write fails in turn, with the lines and the message that they are to print.
const WHOLE: &[Whole<'_>] = &[
    // failed_write_of_lines_is_the_last
    (
        "-n 3 a -v b",
        "0",
        "|",
        "verbose: true\nnum: 3\nfile: a\nfile: b\n",
        "|",
    ),
    // failed_write_of_a_message_is_the_last
    (
        "",
        "1",
        "||",
        "Error: expected `--num=NUM`, pass `--help` for usage information\n",
        "",
    ),
];

/// The status and what stands on the two writers, where the write of this number fails on either.
fn cut(alloc: Global, words: &str, failing: u64) -> Result<String, Fail> {
    let written = ran_failing(alloc, &Demo, words, failing)?;
    if written.late {
        return Err(Fail::new("a write behind one that failed"));
    }
    let status = written.status;
    let out = String::from_utf8(written.out).map_err(|_| "no text")?;
    let err = String::from_utf8(written.err).map_err(|_| "no text")?;
    Ok(format!(in alloc; "{status}|{out}|{err}")?)
}

/// Whether a run was cut: status 1, a beginning of the text in its place and not all of it, and
/// nothing on the other writer.
fn is_cut(found: &str, whole: &Whole<'_>) -> bool {
    let (_, _, front, text, back) = *whole;
    let rest = found
        .strip_prefix("1")
        .and_then(|rest| rest.strip_prefix(front));
    match rest.and_then(|rest| rest.strip_suffix(back)) {
        Some(rest) => rest.len() < text.len() && text.starts_with(rest),
        None => false,
    }
}

/// Runs the program with its first, second .. write failing, until none does.
fn compare_cuts(alloc: Global, whole: &Whole<'_>) -> Result<(), Fail> {
    let (words, status, front, text, back) = *whole;
    let uncut = format!(in alloc; "{status}{front}{text}{back}")?;
    for failing in 1..1_000 {
        let found = cut(alloc, words, failing)?;
        if found.as_str() == uncut.as_str() {
            return Ok(());
        }
        if !is_cut(found.as_str(), whole) {
            return Err(Fail::new(found));
        }
    }
    Err(Fail::new("a write fails each time"))
}

#[test]
fn no_write_follows_one_that_failed(rt: HostRuntime) -> Result<(), Fail> {
    for whole in WHOLE {
        compare_cuts(rt.alloc(), whole)?;
    }
    Ok(())
}
