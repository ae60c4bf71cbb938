//! One attempt after another to read a group from a place on.
ghost use Rattle.bpaf_grammar.specs.Grammar.{outcome_of};
ghost use Rattle.std.specs.Prelude.{◌≡◌, ◌≤◌, true, None, Some, Ok, Err, length, MatchOption};
ghost use Rattle.std.specs.Prelude.{MatchResult};
ghost use Rattle.bpaf_line.specs.Situation.{IsStretchFrom, open_count, with_scope, HasNoneOpen};
ghost use Rattle.bpaf_line.specs.{Situation.IsNextOpen, Messages.is_memory};
ghost use Rattle.bpaf_laws.specs.{Laws.IsNotMemory, Adjacent.Tries};
ghost use Rattle.bpaf.specs.Remembering.{EndsAttempt, TakesOnePlace};

use bpaf_core::Parser;
use bpaf_line::{Error, State};

/// The first place from one on that is present and in scope. Taken places at the scope's start
/// aren't looked at.
pub(super) fn first_present(state: &State, from: usize) -> Option<usize>
    ensures { MatchOption result (HasNoneOpen state.now from) (IsNextOpen state.now from) }
{
    let (place, _) = state.next_open(from)?;
    Some(place)
}

/// How many items are present among the places from one on up to another; the scope stays.
pub(super) fn count_present(state: &mut State, start: usize, end: usize) -> usize
    requires ordered { start ≤ end }
    requires inside { end ≤ length state.old.context.line }
    ensures count { result ≡ open_count (with_scope state.old start end) }
    ensures same { state.new ≡ state.old }
{
    let scope = state.scope();
    if scope.start == start && scope.end == end {
        return state.len();
    }
    state.set_scope(start..end);
    let count = state.len();
    state.set_scope(scope);
    count
}

/// `known`, unless the evaluation wanted memory; then that error.
fn spared<T: Drop>(answer: Result<T, Error>, known: bool) -> Result<bool, Error>
    ensures { MatchResult result (λ known'. (known' ≡ known) × IsNotMemory answer)
        (λ error. is_memory error.0 ≡ true) }
{
    match answer {
        Ok(value) => {
            drop(value);
            Ok(known)
        }
        Err(error) => {
            if error.is_memory() {
                return Err(error);
            }
            drop(error);
            Ok(known)
        }
    }
}

/// Whether the parser takes an item of the places from one on up to another; nothing changes. Want
/// of memory is refused.
pub(super) fn takes_item<T: Drop, P: Parser<T>>(
    parser: &P,
    state: &mut State,
    place: usize,
    end: usize,
) -> Result<bool, Error>
    requires can { P.can_eval parser.now }
    requires ordered { place ≤ end }
    requires inside { end ≤ length state.old.context.line }
    ensures takes { MatchResult result
        (λ takes. TakesOnePlace T (outcome_of (P.grammar parser.now)) state.old place end takes)
        (λ error. is_memory error.0 ≡ true) }
    ensures same { state.new ≡ state.old }
{
    let mark = state.mark();
    state.set_scope(place..end);
    let present = state.len();
    let answer = parser.eval(state);
    let left = count_present(state, place, end);
    state.undo(mark);
    spared(answer, left < present)
}

/// How an attempt with a value ends.
#[derive(Drop)]
enum AttemptEnd<T> {
    /// Nothing is left present in its scope: its value is that of the group.
    Whole(T),
    /// This is the first place that it left present.
    Left(usize),
}

/// One attempt over the places from one on up to another. Where it leaves one of them present
/// nothing changes; with a value the scope is as before.
fn attempt<T: Drop, P: Parser<T>>(
    parser: &P,
    state: &mut State,
    place: usize,
    end: usize,
) -> Result<AttemptEnd<T>, Error>
    requires can { P.can_eval parser.now }
    requires ordered { place ≤ end }
    requires inside { end ≤ length state.old.context.line }
    ensures { EndsAttempt T (outcome_of (P.grammar parser.now)) state.old place end result
        state.new }
{
    let mark = state.mark();
    let scope = state.scope();
    state.set_scope(place..end);
    let value = parser.eval(state)?;
    state.set_scope(place..end);
    match first_present(state, place) {
        None => {
            state.set_scope(scope);
            Ok(AttemptEnd::Whole(value))
        }
        Some(left) => {
            drop(value);
            state.undo(mark);
            Ok(AttemptEnd::Left(left))
        }
    }
}

/// Where the unbroken stretch of present places from one on ends.
///
/// Where that is the first present place, and all behind it in the scope are present, they are only
/// counted, which the state has done already.
fn stretch_end(state: &State, place: usize) -> usize
    ensures stretch { IsStretchFrom state.now place result }
    ensures inside { place ≤ length state.now.context.line
        → result ≤ length state.now.context.line }
{
    let scope = state.scope();
    if let Some(first) = first_present(state, scope.start) {
        if first == place && state.len() == scope.end - first {
            return scope.end;
        }
    }
    state.adjacently_available_from(place).end
}

/// The attempts from a place on: over the unbroken stretch of present places, and then over the
/// stretch up to the first place that the attempt before left present.
pub(super) fn attempts<T: Drop, P: Parser<T>>(
    parser: &P,
    state: &mut State,
    place: usize,
) -> Result<T, Error>
    requires can { P.can_eval parser.now }
    requires inside { place ≤ length state.old.context.line }
    ensures { Tries T (outcome_of (P.grammar parser.now)) state.old place result state.new }
{
    let mut end = stretch_end(state, place);
    loop {
        match attempt(parser, state, place, end) {
            Ok(AttemptEnd::Whole(value)) => return Ok(value),
            Ok(AttemptEnd::Left(left)) => end = left,
            Err(error) => return Err(error),
        }
    }
}
