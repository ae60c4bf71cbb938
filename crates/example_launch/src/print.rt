//! What the launcher prints.
ghost use Rattle.std.specs.Prelude.{map, string_bytes};
ghost use Rattle.bpaf_program.specs.Ending.{IsTextOrWant};
ghost use Rattle.example_launch.specs.Running.{lines, AnswersLines};

use crate::options::{Launch, read_launch};
use bpaf::ParseFailure;
use bpaf_program::push_lines;
use std::alloc::Global;

/// The lines that the words ask for: those of their launch; refused where they ask for none.
pub fn lines_of(alloc: Global, words: &[String]) -> Result<String, ParseFailure>
    ensures { AnswersLines (map string_bytes words.now) result }
{
    let launch = read_launch(alloc, words)?;
    text_of(alloc, &launch)
}

/// The lines of a launch; refused only for want of memory.
fn text_of(alloc: Global, launch: &Launch) -> Result<String, ParseFailure>
    ensures { IsTextOrWant (lines launch.now) result }
{
    let (verbose, dry_run) = (launch.verbose, launch.dry_run);
    let name = launch.name.as_str();
    let mut text = format!(in alloc; "verbose: {verbose}\ndry run: {dry_run}\nname: {name}\n")?;
    push_lines(&mut text, "word: ", launch.words.as_slice())?;
    Ok(text)
}
