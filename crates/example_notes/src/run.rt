//! The program from its words to its bytes and its status.
ghost use Rattle.std.specs.Prelude.{map, string_bytes};
ghost use Rattle.bpaf_program.specs.Ending.{PrintsTextOf, RunsTo, wrote};
ghost use Rattle.example_notes.specs.Notes.{lines, Answers, IsNotesOf};

use crate::print::lines_of;
use bpaf_program::{Sink, print};
use std::alloc::Global;

/// Runs the program on its words, and gives its status.
///
/// Status 0 comes only where the words asked for something and all lines of it were written on
/// `out`, or where they asked for a help page, the program's or a command's, and that was written
/// there; and then nothing is written on `err`. A refusal
/// is told on `err`, as `Error: ` and the message, and nothing is written on `out`; its status is
/// 1, as is that of a write that fails, after a beginning of the lines or of the page. Over two
/// sinks that tell their failures, less is written only where a write failed, and nothing behind
/// that.
pub fn run<S: Sink, E: Sink>(alloc: Global, words: &[String], out: &mut S, err: &mut E) -> u8
    ensures answers { RunsTo (Answers (map string_bytes words.now)) (wrote S.known out.old out.new)
        (wrote E.known err.old err.new) result }
    ensures exact { PrintsTextOf (IsNotesOf (map string_bytes words.now)) lines
        (wrote S.known out.old out.new) (wrote E.known err.old err.new) result }
{
    print(lines_of(alloc, words), out, err)
}
