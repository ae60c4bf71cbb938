//! What the options print.
ghost use Rattle.std.specs.Prelude.{map, string_bytes};
ghost use Rattle.bpaf_program.specs.Ending.{IsTextOrWant};
ghost use Rattle.example_demo.specs.Running.{lines, AnswersLines};

use crate::options::{Options, read_options};
use bpaf::ParseFailure;
use bpaf_program::push_lines;
use std::alloc::Global;

/// The lines that the words ask for: those of the options that they give; refused where these are.
pub fn lines_of(alloc: Global, words: &[String]) -> Result<String, ParseFailure>
    ensures { AnswersLines (map string_bytes words.now) result }
{
    let options = read_options(alloc, words)?;
    text_of(alloc, &options)
}

/// The lines of the options; refused only for want of memory.
fn text_of(alloc: Global, options: &Options) -> Result<String, ParseFailure>
    ensures { IsTextOrWant (lines options.now) result }
{
    let (verbose, num) = (options.verbose, options.num);
    let mut text = format!(in alloc; "verbose: {verbose}\nnum: {num}\n")?;
    push_lines(&mut text, "file: ", options.files.as_slice())?;
    Ok(text)
}
