//! Runs over the items behind a place without a gap: the attempts of an adjacent command.
ghost use Rattle.bpaf_grammar.specs.Command.{AdjacentRuns, Attempt, Attempts, Retry};
ghost use Rattle.bpaf_grammar.specs.{Grammar.outcome_of, Grammar.describes_of, Ending.EndsRun};
ghost use Rattle.std.specs.Prelude.{◌≡◌, ◌<◌, ◌≤◌, length, MatchOption};
ghost use Rattle.bpaf_line.specs.Marks.{Fits, KeepsMarks, undone};
ghost use Rattle.bpaf_laws.specs.Adjacent.{AllTaken, IsFirstLeft};

use crate::parser::Parser;
use crate::run::Run;
use bpaf_choice::first_failure;
use bpaf_line::{Mark, ParseFailure, State};

impl<T: Drop, P: Parser<T>> Run<'_, T, P> {
    /// A run over the places from one up to another.
    fn attempt(&self, state: &mut State, from: usize, end: usize) -> Result<T, ParseFailure>
        requires can { P.can_eval self.now.inner.now }
        requires ordered { from ≤ end }
        requires inside { end ≤ length state.old.context.line }
        ensures runs { Attempt T (outcome_of (P.grammar self.now.inner.now))
            (EndsRun (describes_of (P.grammar self.now.inner.now)) self.now.info.now)
            state.old from end result state.new }
        ensures context { state.new.context ≡ state.old.context }
        ensures marks { KeepsMarks state.old state.new }
    {
        state.set_scope(from..end);
        self.run_from(state)
    }

    /// What follows a first attempt, over the places from one up to another, that failed: a second
    /// one over those before the first that it left present, from the mark on. Where it left none,
    /// or the second one fails too, the first failure stands, with its state.
    fn retry(
        &self,
        state: &mut State,
        mark: Mark,
        from: usize,
        end: usize,
        failure: ParseFailure,
    ) -> Result<T, ParseFailure>
        requires can { P.can_eval self.now.inner.now }
        requires fits { Fits mark state.old }
        requires inside { end ≤ length state.old.context.line }
        ensures { Retry T (outcome_of (P.grammar self.now.inner.now))
            (EndsRun (describes_of (P.grammar self.now.inner.now)) self.now.info.now)
            (undone mark state.old) from end failure
            state.old result state.new }
    {
        if failure.is_memory() {
            state.undo(mark);
            return Err(failure);
        }
        let Some(stop) = first_left(state, from, end) else {
            return Err(failure);
        };
        let steps = state.steps(&mark);
        state.undo(mark);
        let steps = steps?;
        match self.attempt(state, from, stop) {
            Ok(value) => Ok(value),
            Err(second) => Err(first_failure(state, mark, steps, failure, second)),
        }
    }

    /// An attempt over the unbroken stretch of present places from one on, and what follows where
    /// that fails.
    fn attempts(&self, state: &mut State, from: usize) -> Result<T, ParseFailure>
        requires can { P.can_eval self.now.inner.now }
        requires inside { from ≤ length state.old.context.line }
        ensures { Attempts T (outcome_of (P.grammar self.now.inner.now))
            (EndsRun (describes_of (P.grammar self.now.inner.now)) self.now.info.now)
            state.old from result state.new }
    {
        let mark = state.mark();
        let end = state.adjacently_available_from(from).end;
        match self.attempt(state, from, end) {
            Ok(value) => Ok(value),
            Err(failure) => self.retry(state, mark, from, end, failure),
        }
    }

    /// The attempts behind a word, which stands where the scope begins. After a value the scope is
    /// again that which it was.
    pub(crate) fn run_adjacent(&self, state: &mut State) -> Result<T, ParseFailure>
        requires can { P.can_eval self.now.inner.now }
        requires word { state.old.start < state.old.end }
        ensures { AdjacentRuns T (outcome_of (P.grammar self.now.inner.now))
            (EndsRun (describes_of (P.grammar self.now.inner.now)) self.now.info.now)
            state.old result state.new }
    {
        let scope = state.scope();
        match self.attempts(state, scope.start + 1) {
            Ok(value) => {
                state.set_scope(scope);
                Ok(value)
            }
            Err(failure) => Err(failure),
        }
    }
}

/// The first of the places from one up to another that is present, in scope or not. It takes no
/// memory.
fn first_left(state: &State, from: usize, end: usize) -> Option<usize>
    ensures { MatchOption result (AllTaken state.now from end) (IsFirstLeft state.now from end) }
{
    for place in from..end {
        if matches!(state.present(place), Some(true)) {
            return Some(place);
        }
    }
    None
}
