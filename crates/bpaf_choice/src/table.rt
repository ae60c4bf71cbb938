//! The table of a choice: which of two answers stands, and what a choice shows.
ghost use Rattle.std.specs.Prelude.{◌≡◌, ◌⊎◌, IfOk, OnErr, Ok, map};
ghost use Rattle.bpaf_doc.specs.Shape.{shape_of};
ghost use Rattle.bpaf_line.specs.Marks.{Fits, CanRedo, undone, redone};
ghost use Rattle.bpaf_laws.specs.Choice.{Chosen, BothOk, ValueOfWinner, OneOk, IsMemoryAnswer, is_memory_answer};
ghost use Rattle.bpaf_laws.specs.Choice.{branch_of, either_shape};
ghost use Rattle.bpaf_choice.specs.Branches.{IsStart, IsBranch, start_of, end_of};

use crate::branch::{Branch, Start, resume};
use bpaf_doc::Meta;
use bpaf_line::{Error, Mark, State, Steps};
use std::alloc::{AllocError, Global};

/// Whether an answer is want of memory. It takes none.
pub fn is_memory_answer<T>(answer: &Result<T, Error>) -> bool
    ensures { result ≡ is_memory_answer answer.now }
{
    match answer {
        Ok(_) => false,
        Err(error) => error.is_memory(),
    }
}

/// The answer of two branches that were evaluated from one start, by what each answered and where
/// it led to (bpaf's `this_or_that_picks_first`, in `structs.rs`). The state is where the second
/// one led.
///
/// The state becomes that of the branch which is chosen. That is the one with the deeper path; at
/// equal depths the one with a value, unless it took nothing and the other's error is wrong input,
/// which is then the answer; of two values the first where neither branch took an item, else that
/// of the branch which took the leftmost place taken by only one of them, else the first. Two
/// errors are combined. Where an error of equal depths is the answer, the state is as at the start;
/// so it is where memory is wanted.
pub fn this_or_that<T: Drop>(
    state: &mut State,
    start: Start,
    first: Result<T, Error>,
    this: Branch,
    second: Result<T, Error>,
) -> Result<T, Error>
    requires start { IsStart start state.old }
    requires this { IsBranch start this state.old }
    ensures { Chosen (start_of start state.old) first (end_of start this state.old)
        second state.old result state.new
        ⊎ IsMemoryAnswer (start_of start state.old) result state.new }
{
    if this.depth > state.depth() {
        drop(second);
        return resume_with(state, start.mark, this.steps, first);
    }
    if this.depth < state.depth() {
        drop(this);
        drop(first);
        return second;
    }
    match (first, second) {
        (Ok(x), Ok(y)) => value_of_both(state, start, x, this, y),
        (Ok(x), Err(error)) => value_of_first(state, start, x, this, error),
        (Err(error), Ok(y)) => {
            drop(this);
            value_of_second(state, start, y, error)
        }
        (Err(error), Err(other)) => {
            drop(this);
            state.undo(start.mark);
            Err(error.combine_with(other))
        }
    }
}

/// Goes back to a mark, does the steps since it and hands on what was answered there; where memory
/// is refused the state is that of the mark.
fn resume_with<T: Drop>(
    state: &mut State,
    mark: Mark,
    steps: Steps,
    answer: Result<T, Error>,
) -> Result<T, Error>
    requires fits { Fits mark state.old }
    requires steps { CanRedo steps (undone mark state.old) }
    ensures { ((result ≡ answer) × (state.new ≡ redone steps (undone mark state.old)))
        ⊎ IsMemoryAnswer (undone mark state.old) result state.new }
{
    match resume(state, mark, steps) {
        Ok(()) => answer,
        Err(error) => {
            drop(answer);
            Err(Error::from(error))
        }
    }
}

/// The value of the first branch; the other's error, where that is wrong input and this branch took
/// nothing.
fn value_of_first<T: Drop>(
    state: &mut State,
    start: Start,
    value: T,
    this: Branch,
    error: Error,
) -> Result<T, Error>
    requires start { IsStart start state.old }
    requires this { IsBranch start this state.old }
    ensures { OneOk (start_of start state.old) (branch_of value (end_of start this state.old))
        error result state.new
        ⊎ IsMemoryAnswer (start_of start state.old) result state.new }
{
    if this.left == start.left && error.wrong_input() {
        state.undo(start.mark);
        return Err(error);
    }
    drop(error);
    resume_with(state, start.mark, this.steps, Ok(value))
}

/// The value of the second branch, where the state is; the other's error, where that is wrong input
/// and this branch took nothing.
fn value_of_second<T: Drop>(
    state: &mut State,
    start: Start,
    value: T,
    error: Error,
) -> Result<T, Error>
    requires { IsStart start state.old }
    ensures { OneOk (start_of start state.old) (branch_of value state.old)
        error result state.new }
{
    if state.len() == start.left && error.wrong_input() {
        state.undo(start.mark);
        return Err(error);
    }
    drop(error);
    Ok(value)
}

/// The value of one of two branches: of the first where neither took an item, else that of the
/// winner.
fn value_of_both<T: Drop>(
    state: &mut State,
    start: Start,
    x: T,
    this: Branch,
    y: T,
) -> Result<T, Error>
    requires start { IsStart start state.old }
    requires this { IsBranch start this state.old }
    ensures { BothOk (start_of start state.old) (branch_of x (end_of start this state.old))
        (branch_of y state.old) result state.new
        ⊎ IsMemoryAnswer (start_of start state.old) result state.new }
{
    if this.left == start.left && state.len() == start.left {
        drop(y);
        return resume_with(state, start.mark, this.steps, Ok(x));
    }
    match value_of_winner(state, start.mark, x, this.steps, y) {
        Ok(value) => Ok(value),
        Err(error) => {
            state.undo(start.mark);
            Err(Error::from(error))
        }
    }
}

/// The value of the branch that took the leftmost place taken by only one of them, else of the
/// first; what only the other one took gets a conflict note. Refused only for want of memory; the
/// state can then still go back to the mark.
fn value_of_winner<T: Drop>(
    state: &mut State,
    mark: Mark,
    x: T,
    this: Steps,
    y: T,
) -> Result<T, AllocError>
    requires fits { Fits mark state.old }
    requires this { CanRedo this (undone mark state.old) }
    ensures ok { IfOk result (λ value.
        ValueOfWinner (branch_of x (redone this (undone mark state.old)))
        (branch_of y state.old) (Ok value) state.new) }
    ensures fits { OnErr result (Fits mark state.new) }
    ensures back { OnErr result (undone mark state.new ≡ undone mark state.old) }
{
    let (here, place) = state.pick_winner(&mark, &this);
    let Some(place) = place else {
        resume(state, mark, this)?;
        return Ok(x);
    };
    if here {
        state.save_conflicts(&this, place)?;
        return Ok(y);
    }
    let that = state.steps(&mark)?;
    resume(state, mark, this)?;
    state.save_conflicts(&that, place)?;
    Ok(x)
}

/// What a choice of two shows: a member that is an Or itself is opened into it (bpaf's `Meta::or`,
/// in `meta.rs`). Refused only for want of memory.
///
/// It is public for choices in the crates of this repository, not for callers.
pub fn or_meta(alloc: Global, first: Meta, second: Meta) -> Result<Meta, AllocError>
    ensures { IfOk result (λ meta.
        shape_of meta ≡ either_shape (shape_of first) (shape_of second)) }
{
    let mut all = first.alternatives(alloc)?;
    let mut others = second.alternatives(alloc)?;
    all.append(&mut others)?;
    Ok(Meta::Or(all))
}
