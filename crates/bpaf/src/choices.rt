//! A choice of any number of parsers of one type.
ghost use Rattle.bpaf_grammar.specs.Grammar.{choice, choices_of, describes_of, only, outcome_of};
ghost use Rattle.std.specs.Prelude.{◌≡◌, IfOk, All};
ghost use Rattle.bpaf_doc.specs.Shape.{shape_of};
ghost use Rattle.bpaf_laws.specs.Choice.{Nested};

use bpaf_core::{Parser, Start, or_meta, or_parser};
use bpaf_doc::{Meta, Text};
use bpaf_line::{Error, Message, State};
use std::alloc::{AllocError, Global};

/// One of any number of parsers of one type; bpaf answers them boxed.
#[derive(Drop)]
pub struct ParseChoice<P> {
    /// The parsers, the first one before the others where the table leaves it open.
    pub parsers: Vec<P>,
}

/// What one of several parsers of one type reads (bpaf's `choice`): `a`, `b` and `c` are
/// `a.or_else(b).or_else(c)`.
///
/// Without parsers it refuses every line. A choice of one parser answers as that parser does, also
/// where it refuses.
///
/// ```text
/// let colors = vec![in alloc; long(alloc, "red")?.req_flag(0), long(alloc, "blue")?.req_flag(1)]?;
/// let color = choice(colors);
/// ```
pub fn choice<P>(parsers: Vec<P>) -> ParseChoice<P>
    ensures { result.parsers ≡ parsers }
{
    ParseChoice { parsers }
}

/// The answer of a parser and of the others after it, each of which may take its place.
fn choose_from<T: Drop, P: Parser<T>>(first: &P, rest: &[P], state: &mut State) -> Result<T, Error>
    requires first { P.can_eval first.now }
    requires rest { All P.can_eval rest.now }
    ensures { outcome_of (Nested choice P.grammar (P.grammar first.now) rest.now)
        state.old result state.new }
{
    let start = Start::of(state);
    let mut answer = first.eval(state);
    for parser in rest {
        answer = or_parser(state, start, answer, parser);
    }
    answer
}

/// The answer of one of these parsers; without parsers a refusal.
fn choose<T: Drop, P: Parser<T>>(parsers: &[P], state: &mut State) -> Result<T, Error>
    requires { All P.can_eval parsers.now }
    ensures { outcome_of (choices_of P.grammar parsers.now) state.old result state.new }
{
    match parsers {
        [] => {
            state.set_current(None);
            let message = Text::new(state.alloc(), "Invalid choice usage")?;
            Err(Error(Message::ParseFail(message)))
        }
        [first, rest @ ..] => choose_from(first, rest, state),
    }
}

/// What a parser and the others after it show, as one choice.
fn meta_from<T, P: Parser<T>>(first: &P, rest: &[P], alloc: Global) -> Result<Meta, AllocError>
    requires first { P.can_eval first.now }
    requires rest { All P.can_eval rest.now }
    ensures { IfOk result (λ meta.
        describes_of (Nested choice P.grammar (P.grammar first.now) rest.now) (shape_of meta)) }
{
    let mut shown = first.meta(alloc)?;
    for parser in rest {
        shown = or_meta(alloc, shown, parser.meta(alloc)?)?;
    }
    Ok(shown)
}

/// The parsers are evaluated as nested choices of two, the first ones innermost
/// ([`this_or_that`](bpaf_core::this_or_that)). Want of memory in one of them is refused at once,
/// with the state as before. Without parsers it is refused with ParseFail, or for want of memory
/// for the message, and no place is current then.
impl<T: Drop, P: Parser<T> + Drop> Parser<T> for ParseChoice<P> {
    ghost can_eval = { λ p. All P.can_eval p.parsers.items };

    ghost grammar = { λ p. only (choices_of P.grammar p.parsers.items) };

    fn eval(&self, state: &mut State) -> Result<T, Error> {
        choose(self.parsers.as_slice(), state)
    }

    fn meta(&self, alloc: Global) -> Result<Meta, AllocError> {
        match self.parsers.as_slice() {
            [] => Ok(Meta::Skip),
            [only] => only.meta(alloc),
            [first, rest @ ..] => meta_from(first, rest, alloc),
        }
    }
}
