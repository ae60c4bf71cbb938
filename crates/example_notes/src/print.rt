//! What the program prints.
ghost use Rattle.std.specs.Prelude.{◌≡◌, ◌++◌, OnOk, map, string_bytes};
ghost use Rattle.bpaf_program.specs.Ending.{IsTextOrWant};
ghost use Rattle.example_notes.specs.Notes.{lines, tag_lines, task_lines, AnswersLines};

use crate::options::{Notes, Tag, Task, read_notes};
use bpaf::ParseFailure;
use bpaf_program::{push_line, push_lines};
use std::alloc::{AllocError, Global};

/// The lines that the words ask for; refused where they ask for nothing.
pub fn lines_of(alloc: Global, words: &[String]) -> Result<String, ParseFailure>
    ensures { AnswersLines (map string_bytes words.now) result }
{
    let notes = read_notes(alloc, words)?;
    text_of(alloc, &notes)
}

/// The lines of what is asked for; refused only for want of memory.
fn text_of(alloc: Global, notes: &Notes) -> Result<String, ParseFailure>
    ensures { IsTextOrWant (lines notes.now) result }
{
    let verbose = notes.verbose;
    let mut text = format!(in alloc; "verbose: {verbose}\n")?;
    if let Some(dir) = &notes.dir {
        push_line(&mut text, "dir: ", dir.as_str())?;
    }
    push_task(&mut text, &notes.task)?;
    Ok(text)
}

/// Appends the lines of a task; refused only for want of memory.
fn push_task(text: &mut String, task: &Task) -> Result<(), AllocError>
    ensures { OnOk result (string_bytes text.new ≡ string_bytes text.old ++ task_lines task.now) }
{
    match task {
        Task::Add { tags, texts } => {
            writeln!(text, "add")?;
            push_lines(text, "tag: ", tags.as_slice())?;
            push_lines(text, "text: ", texts.as_slice())
        }
        Task::List { max } => writeln!(text, "list: {max}"),
        Task::Tag(tag) => push_tag(text, tag),
    }
}

/// Appends the line of a tag; refused only for want of memory.
fn push_tag(text: &mut String, tag: &Tag) -> Result<(), AllocError>
    ensures { OnOk result (string_bytes text.new ≡ string_bytes text.old ++ tag_lines tag.now) }
{
    match tag {
        Tag::Add { name } => push_line(text, "tag add: ", name.as_str()),
        Tag::Remove { name } => push_line(text, "tag remove: ", name.as_str()),
    }
}
