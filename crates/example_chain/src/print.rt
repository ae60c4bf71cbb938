//! What the steps of a chain print.
ghost use Rattle.std.specs.Prelude.{◌≡◌, ◌++◌, OnOk, map, string_bytes};
ghost use Rattle.bpaf_program.specs.Ending.{AnswersText, IsTextOrWant};
ghost use Rattle.example_chain.specs.Running.{step_line, step_lines, turn_line, Answers};

use crate::steps::{Step, read_steps};
use bpaf::ParseFailure;
use std::alloc::{AllocError, Global};

/// The lines that the words ask for: those of their steps; refused where they ask for none.
pub fn lines_of(alloc: Global, words: &[String]) -> Result<String, ParseFailure>
    ensures { AnswersText (Answers (map string_bytes words.now)) result }
{
    let steps = read_steps(alloc, words)?;
    text_of(alloc, steps.as_slice())
}

/// A line for each step; refused only for want of memory.
fn text_of(alloc: Global, steps: &[Step]) -> Result<String, ParseFailure>
    ensures { IsTextOrWant (step_lines steps.now) result }
{
    let mut text = String::new(alloc);
    push_steps(&mut text, steps)?;
    Ok(text)
}

/// Appends a line for each step; refused only for want of memory.
fn push_steps(text: &mut String, steps: &[Step]) -> Result<(), AllocError>
    ensures { OnOk result (string_bytes text.new ≡ string_bytes text.old ++ step_lines steps.now) }
{
    for step in steps {
        push_step(text, step)?;
    }
    Ok(())
}

/// Appends the line of a step; refused only for want of memory.
fn push_step(text: &mut String, step: &Step) -> Result<(), AllocError>
    ensures { OnOk result (string_bytes text.new ≡ string_bytes text.old ++ step_line step.now) }
{
    match step {
        Step::Move { dx, dy } => writeln!(text, "move {dx} {dy}"),
        Step::Turn { left, degrees } => push_turn(text, *left, *degrees),
        Step::Repeat { times } => writeln!(text, "repeat {times}"),
    }
}

/// Appends the line of a turn; refused only for want of memory.
fn push_turn(text: &mut String, left: bool, degrees: u64) -> Result<(), AllocError>
    ensures { OnOk result (string_bytes text.new
        ≡ string_bytes text.old ++ turn_line left degrees) }
{
    if left {
        writeln!(text, "turn left {degrees}")
    } else {
        writeln!(text, "turn right {degrees}")
    }
}
