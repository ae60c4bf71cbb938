//! The end of a program: the value, or its text is written and its status told.
ghost use Rattle.std.specs.Prelude.{string_bytes, true};
ghost use Rattle.bpaf_doc.specs.Print.{printed};
ghost use Rattle.bpaf_program.specs.Ending.{EndsBy, IsPrinted, IsShown, TellsFailure, TellsLine};
ghost use Rattle.bpaf_program.specs.Ending.{error_line, memory_line, wrote};

use crate::sink::Sink;
use crate::writing::{write_doc, write_message, write_text};
use bpaf::{Doc, ParseFailure};

/// The value of an answer; or, where it has none, its text on `out` or its message on `err`, and
/// the status with which the program is to end: 0 after a text that was asked for, else 1.
///
/// A message is printed behind `Error: ` on a line of its own; want of memory as
/// `Error: out of memory`. No memory is wanted for that. No write follows one that failed. With a
/// value nothing is written.
///
/// ```text
/// let options = end(options.run_inner(args), out, err)?;
/// ```
pub fn end<T, S: Sink, E: Sink>(
    answer: Result<T, ParseFailure>,
    out: &mut S,
    err: &mut E,
) -> Result<T, u8>
    ensures { EndsBy (wrote S.known out.old out.new) (wrote E.known err.old err.new) answer result }
{
    match answer {
        Ok(value) => Ok(value),
        Err(failure) => Err(tell(failure, out, err)),
    }
}

/// Prints the text of an answer on `out`, or ends as [`end`], and gives the status: 0 where all of
/// the text stands there, 1 where a write failed, after a beginning of it.
///
/// ```text
/// print(lines_of(alloc, words), out, err)
/// ```
pub fn print<S: Sink, E: Sink>(answer: Result<String, ParseFailure>, out: &mut S, err: &mut E) -> u8
    ensures { IsPrinted (wrote S.known out.old out.new) (wrote E.known err.old err.new)
        string_bytes answer result }
{
    match end(answer, out, err) {
        Ok(text) => match write_text(text.as_str().as_bytes(), out) {
            Ok(()) => 0,
            Err(_) => 1,
        },
        Err(status) => status,
    }
}

/// Prints the text that was asked for on `out`, or a message on `err`, and gives the status.
fn tell<S: Sink, E: Sink>(failure: ParseFailure, out: &mut S, err: &mut E) -> u8
    ensures { TellsFailure (wrote S.known out.old out.new) (wrote E.known err.old err.new) failure
        result }
{
    match failure {
        ParseFailure::Stdout(doc, full) => show(doc, full, out),
        ParseFailure::Stderr(doc) => refuse(doc, err),
        ParseFailure::Memory => tell_want(err),
    }
}

/// Shows a text that was asked for, as it stands.
fn show<S: Sink>(doc: Doc, full: bool, out: &mut S) -> u8
    ensures { IsShown (wrote S.known out.old out.new) (printed full doc) result }
{
    match write_doc(&doc, full, out) {
        Ok(()) => 0,
        Err(_) => 1,
    }
}

/// Tells a message.
fn refuse<E: Sink>(doc: Doc, err: &mut E) -> u8
    ensures { TellsLine (wrote E.known err.old err.new) (error_line (printed true doc)) result }
{
    let _ = write_message(&doc, err);
    1
}

/// Tells that memory was wanted.
fn tell_want<E: Sink>(err: &mut E) -> u8
    ensures { TellsLine (wrote E.known err.old err.new) memory_line result }
{
    let _ = write_text("Error: out of memory\n".as_bytes(), err);
    1
}
