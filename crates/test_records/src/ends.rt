//! How a run of a program ends: its value or its status, and what stands on its two writers.
use bpaf::params::ParseArgument;
use bpaf::{Args, OptionParser, ParseFailure, Parser, short};
use bpaf_program::{Program, print, run_record};
use bpaf_record::Record;
use std::alloc::Global;
use std::fmt::Debug;
use std::test::Fail;
use test_support::{Narrow, reads};

/// Words, parted by spaces; the room of the two writers; the value or the status, and what then
/// stands on them, with bars between.
type End<'a> = (&'a str, usize, usize, &'a str);

/// The ends of a run of a number behind `-n`.
const ENDS: &[End<'_>] = &[
    // end_with_value
    ("-n 3", 0, 0, "Ok(3)||"),
    // end_with_help
    (
        "--help",
        400,
        0,
        "Err(0)|Usage: -n=NUM

Available options:
    -n=NUM
    -h, --help  Prints help information
|",
    ),
    // end_with_part_of_help
    ("--help", 6, 400, "Err(1)|Usage:|"),
    // end_with_message
    (
        "-n",
        9,
        400,
        "Err(1)||Error: `-n` requires an argument `NUM`\n",
    ),
    // end_with_part_of_message
    ("-n", 9, 9, "Err(1)||Error: `-"),
    // end_without_room
    ("-n", 9, 0, "Err(1)||"),
];

/// What a run answers; that of a flat record where it is to be exact.
fn answered(
    options: &OptionParser<u64, ParseArgument<u64>>,
    words: &[&str],
    exact: bool,
    out: &mut Narrow,
    err: &mut Narrow,
) -> Result<u64, u8> {
    if exact && options.is_record() {
        run_record(options, Args::from(words), out, err)
    } else {
        options.run(Args::from(words), out, err)
    }
}

/// What stands on a writer, on which no write followed one that failed.
fn standing(writer: Narrow) -> Result<String, &'static str> {
    if writer.late {
        return Err("a write behind one that failed");
    }
    String::from_utf8(writer.taken).map_err(|_| "no text")
}

/// How a run ends, as a row tells it.
fn ended(alloc: Global, row: &End<'_>, exact: bool) -> Result<String, Fail> {
    let number: ParseArgument<u64> = short(alloc, 'n')?.argument("NUM");
    let options = number.to_options(alloc)?;
    let words: Vec<&str> = row.0.split(' ').collect(alloc)?;
    let mut out = Narrow::new(alloc, row.1, 0);
    let mut err = Narrow::new(alloc, row.2, 0);
    let answer = answered(&options, words.as_slice(), exact, &mut out, &mut err);
    shown(alloc, answer, out, err)
}

/// An answer and what stands on the writers.
pub(crate) fn shown<T: Debug + Drop>(
    alloc: Global,
    answer: Result<T, u8>,
    out: Narrow,
    err: Narrow,
) -> Result<String, Fail> {
    let out = standing(out)?;
    let err = standing(err)?;
    Ok(format!(in alloc; "{answer:?}|{out}|{err}")?)
}

#[test]
fn runs_end_with_a_value_or_a_status(rt: HostRuntime) -> Result<(), Fail> {
    for row in ENDS {
        for exact in [false, true] {
            reads(Ok(ended(rt.alloc(), row, exact)?), row.3)?;
        }
    }
    Ok(())
}

/// How a text is printed, or that memory was wanted, on writers with so much room, each of which
/// fails at the call of this number, or at none where it is 0.
fn printed(alloc: Global, text: Option<&str>, room: usize, failing: u64) -> Result<String, Fail> {
    let answer = match text {
        Some(text) => Ok(String::from_str(alloc, text)?),
        None => Err(ParseFailure::Memory),
    };
    let mut out = Narrow::new(alloc, room, failing);
    let mut err = Narrow::new(alloc, room, failing);
    let status = print(answer, &mut out, &mut err);
    shown(alloc, Err::<u64, u8>(status), out, err)
}

#[test]
fn texts_are_printed(rt: HostRuntime) -> Result<(), Fail> {
    let rows = [
        // text_printed
        (Some("a b\n"), 4, 0, "Err(0)|a b\n|"),
        // text_printed_in_part
        (Some("a b\n"), 3, 0, "Err(1)|a b|"),
        // text_printed_to_a_failed_write
        (Some("a b\n"), 4, 2, "Err(1)|a |"),
        // want_told
        (None, 40, 0, "Err(1)||Error: out of memory\n"),
        // want_told_to_a_failed_write
        (None, 40, 3, "Err(1)||Erro"),
    ];
    for (text, room, failing, wanted) in rows {
        reads(Ok(printed(rt.alloc(), text, room, failing)?), wanted)?;
    }
    Ok(())
}
