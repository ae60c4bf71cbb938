//! Branches of a choice, which begin at one place.
ghost use Rattle.std.specs.Prelude.{◌≡◌, IfOk, OnOk, OnErr};
ghost use Rattle.bpaf_line.specs.Marks.{Fits, HasReached, CanRedo, undone, redone};
ghost use Rattle.bpaf_choice.specs.Branches.{GivesBack, IsStart, LedTo};

use bpaf_line::{Mark, ParseFailure, State, Steps};
use std::alloc::AllocError;

/// Where branches begin: the mark of that situation, and how many items are present in it.
///
/// It is public for choices in the crates of this repository, not for callers.
#[derive(Clone, Copy)]
pub struct Start {
    pub mark: Mark,
    pub left: usize,
}

/// Where a branch led to: its steps, and in the situation that these leave the number of present
/// items and that of the names on the path.
///
/// It is public for choices in the crates of this repository, not for callers.
#[derive(Drop)]
pub struct Branch {
    pub steps: Steps,
    pub left: usize,
    pub depth: usize,
}

impl Start {
    /// The start of branches from this state. It takes no memory.
    ///
    /// It is public for choices in the crates of this repository, not for callers.
    pub fn of(state: &State) -> Start
        ensures start { IsStart result state.now }
        ensures back { undone result.mark state.now ≡ state.now }
    {
        Start {
            mark: state.mark(),
            left: state.len(),
        }
    }
}

impl Branch {
    /// The branch that led from the start to this state, which goes back to the start, also where
    /// memory is refused.
    ///
    /// It is public for choices in the crates of this repository, not for callers.
    pub fn leave(state: &mut State, start: Start) -> Result<Branch, AllocError>
        requires { Fits start.mark state.old }
        ensures left { IfOk result (λ branch. LedTo branch state.new state.old) }
        ensures back { state.new ≡ undone start.mark state.old }
    {
        let left = state.len();
        let depth = state.depth();
        let steps = state.steps(&start.mark);
        state.undo(start.mark);
        Ok(Branch {
            steps: steps?,
            left,
            depth,
        })
    }
}

/// Goes back to a mark, and does the steps since it; where memory is refused the state is that of
/// the mark.
pub fn resume(state: &mut State, mark: Mark, steps: Steps) -> Result<(), AllocError>
    requires fits { Fits mark state.old }
    requires steps { CanRedo steps (undone mark state.old) }
    ensures ok { OnOk result (state.new ≡ redone steps (undone mark state.old)) }
    ensures err { OnErr result (state.new ≡ undone mark state.old) }
    ensures fits { Fits mark state.new }
    ensures back { undone mark state.new ≡ undone mark state.old }
{
    state.undo(mark);
    state.redo(steps)
}

/// The failure of a first attempt, where its steps led, since a second one failed too; want of
/// memory at the mark, where the second one ended so, or memory for doing the steps again is
/// refused.
pub fn first_failure(
    state: &mut State,
    mark: Mark,
    steps: Steps,
    first: ParseFailure,
    second: ParseFailure,
) -> ParseFailure
    requires fits { Fits mark state.old }
    requires steps { CanRedo steps (undone mark state.old) }
    ensures { GivesBack first second (undone mark state.old)
        (redone steps (undone mark state.old)) result state.new }
{
    if second.is_memory() {
        state.undo(mark);
        return second;
    }
    match resume(state, mark, steps) {
        Ok(()) => first,
        Err(refused) => ParseFailure::from(refused),
    }
}
