//! A group is looked for at each present place of the scope, from left to right.
ghost use Rattle.std.specs.Prelude.{◌≡◌, ◌+◌, ◌≤◌, None, Some, Ok, Err, length, IfSome};
ghost use Rattle.bpaf_grammar.specs.Grammar.{outcome_of};
ghost use Rattle.std.specs.Prelude.{MatchOption};
ghost use Rattle.bpaf_doc.specs.Shape.{part_of};
ghost use Rattle.bpaf_laws.specs.Adjacent.{GroupOutcome, HasNoStart, IsGroupStart, place_count};
ghost use Rattle.bpaf.specs.Remembering.{TriesAt, IsRemembered, failure_of};

use super::attempts::{attempts, first_present, takes_item};
use super::failures::Remembered;
use bpaf_core::Parser;
use bpaf_doc::Item;
use bpaf_line::{Error, State};
use std::ops::Range;

/// How many places the first item of a group has.
fn place_count(first: &Item) -> usize
    ensures { result ≡ place_count (part_of first.now) }
{
    match first {
        Item::Argument { .. } => 2,
        Item::Any { .. } => 1,
        Item::Positional { .. } => 1,
        Item::Command { .. } => 1,
        Item::Flag { .. } => 1,
    }
}

/// So many places of the scope from the first present one on, at one of it or behind that; None
/// where they pass its end.
fn next_start(state: &State, from: usize, width: usize) -> Option<Range<usize>>
    requires { state.now.start ≤ from }
    ensures start { MatchOption result (HasNoStart state.now width from)
        (λ r. IsGroupStart state.now width from r.start × (r.end ≡ r.start + width)) }
    ensures inside { IfSome result (λ r. r.end ≤ length state.now.context.line) }
{
    let place = first_present(state, from)?;
    if state.scope().end - place < width {
        return None;
    }
    Some(place..place + width)
}

/// What comes of a place with which those of a first item begin: None, where the parser takes no
/// item there or its attempts fail, which may be remembered; nothing changes then. Want of memory
/// is refused, and nothing changes.
fn try_at<T: Drop, P: Parser<T>>(
    parser: &P,
    state: &mut State,
    place: usize,
    end: usize,
    best: &mut Remembered,
) -> Result<Option<T>, Error>
    requires can { P.can_eval parser.now }
    requires ordered { place ≤ end }
    requires inside { end ≤ length state.old.context.line }
    requires sound { IsRemembered state.old best.old }
    ensures tried { TriesAt T (outcome_of (P.grammar parser.now)) state.old place end
        (failure_of state.old best.old) result (failure_of state.old best.new) state.new }
    ensures sound { IsRemembered state.old best.new }
{
    if !takes_item(parser, state, place, end)? {
        return Ok(None);
    }
    let mark = state.mark();
    let scope = state.scope();
    match attempts(parser, state, place) {
        Ok(value) => Ok(Some(value)),
        Err(error) => {
            let kept = best.keep(state, &mark, scope.start, scope.end, error);
            state.undo(mark);
            kept?;
            Ok(None)
        }
    }
}

/// Tries the present places of the scope, one after the other, until one gives a value.
pub(super) fn search<T: Drop, P: Parser<T>>(
    parser: &P,
    first: &Item,
    state: &mut State,
) -> Result<T, Error>
    requires { P.can_eval parser.now }
    ensures { GroupOutcome T (outcome_of (P.grammar parser.now)) (part_of first.now)
        state.old result state.new }
{
    let width = place_count(first);
    let mut from = state.scope().start;
    let mut best = Remembered::nothing(state);
    while let Some(places) = next_start(state, from, width) {
        from = places.start + 1;
        match try_at(parser, state, places.start, places.end, &mut best) {
            Ok(None) => {}
            Ok(Some(value)) => {
                drop(best);
                return Ok(value);
            }
            Err(error) => {
                drop(best);
                return Err(error);
            }
        }
    }
    Err(best.end(state, first))
}
