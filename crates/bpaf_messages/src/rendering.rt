//! The texts of messages.
ghost use Rattle.bpaf_messages.specs.Rendering.{message_text, side_text, parse_failed_text};
ghost use Rattle.bpaf_messages.specs.Rendering.{guard_failed_text, no_argument_text};
ghost use Rattle.bpaf_messages.specs.Rendering.{only_once_text, IsRefusal, Renders, shown_item};
ghost use Rattle.std.specs.Prelude.{◌≡◌, ◌++◌, true, IfOk, Some, None, codes, map, option_copied};
ghost use Rattle.bpaf_doc.specs.Print.{printed};
ghost use Rattle.bpaf_messages.specs.Rendering.{word_at, quoted_word, key_behind};

use crate::ambiguity::ambiguity;
use crate::missing::{expected_items, missing};
use crate::phrases::Phrase::{Metavar, Plain, Term, Told, Wrong};
use crate::phrases::of_phrases;
use crate::shown::{key_behind, quoted_word, shown_item, word_at};
use bpaf_doc::{Doc, Text};
use bpaf_line::{Message, ParseFailure, State};
use std::alloc::{AllocError, Global};

/// Which environment variable is not set.
fn no_env(state: &State, name: &Text) -> Result<Doc, AllocError>
    ensures { IfOk result (λ doc.
        printed true doc ≡ message_text (Message.NoEnv name.now) state.now) }
{
    let phrases = [
        Plain("environment variable "),
        Term(name.as_str()),
        Plain(" is not set"),
    ];
    of_phrases(state.alloc(), &phrases)
}

/// On which side of `--` a word should stand.
fn other_side<'a>(alloc: Global, metavar: &'a Text, side: &'a str) -> Result<Doc, AllocError>
    ensures { IfOk result (λ doc. printed true doc ≡ side_text metavar.now side.now) }
{
    let phrases = [
        Plain("expected "),
        Metavar(metavar.as_str()),
        Plain(" to be on the "),
        Plain(side),
        Plain(" side of "),
        Term("--"),
    ];
    of_phrases(alloc, &phrases)
}

/// Which text could not be read, and why.
fn parse_failed<'a>(alloc: Global, word: Option<&'a str>, why: &'a str) -> Result<Doc, AllocError>
    ensures { IfOk result (λ doc.
        printed true doc ≡ parse_failed_text (option_copied word.entry) why.now) }
{
    match word {
        None => of_phrases(alloc, &[Plain("couldn't parse: "), Told(why)]),
        Some(word) => {
            of_phrases(
                alloc,
                &[
                    Plain("couldn't parse "),
                    Wrong(word),
                    Plain(": "),
                    Told(why),
                ],
            )
        }
    }
}

/// Which value a check refused, and why.
fn guard_failed<'a>(alloc: Global, word: Option<&'a Text>, why: &'a str) -> Result<Doc, AllocError>
    ensures { IfOk result (λ doc.
        printed true doc ≡ guard_failed_text (option_copied word.entry) why.now) }
{
    match word {
        None => of_phrases(alloc, &[Plain("check failed: "), Told(why)]),
        Some(word) => {
            let word = Wrong(word.as_str());
            of_phrases(alloc, &[word, Plain(": "), Told(why)])
        }
    }
}

/// Which key wants a value.
fn no_argument<'a>(alloc: Global, key: &'a str, metavar: &'a Text) -> Result<Doc, AllocError>
    ensures { IfOk result (λ doc.
        printed true doc ≡ no_argument_text key.now metavar.now None) }
{
    of_phrases(
        alloc,
        &[
            Term(key),
            Plain(" requires an argument "),
            Metavar(metavar.as_str()),
        ],
    )
}

/// The same, and how a key behind it becomes its value: joined to the key.
fn no_argument_but<'a>(
    alloc: Global,
    key: &'a str,
    metavar: &'a str,
    next: &'a str,
    joined: &'a str,
) -> Result<Doc, AllocError>
    requires { joined.now ≡ key.now ++ codes "=" ++ next.now }
    ensures { IfOk result (λ doc.
        printed true doc ≡ no_argument_text key.now metavar.now (Some next.now)) }
{
    let phrases = [
        Term(key),
        Plain(" requires an argument "),
        Metavar(metavar),
        Plain(", got a flag "),
        Wrong(next),
        Plain(", try "),
        Term(joined),
        Plain(" to use it as an argument"),
    ];
    of_phrases(alloc, &phrases)
}

/// Which item is not expected.
fn unconsumed(state: &State, place: usize) -> Result<Doc, AllocError>
    ensures { IfOk result (λ doc.
        printed true doc ≡ message_text (Message.Unconsumed place) state.now) }
{
    let item = shown_item(state, place)?;
    of_phrases(
        state.alloc(),
        &[
            Wrong(item.as_str()),
            Plain(" is not expected in this context"),
        ],
    )
}

/// Which two items exclude each other.
fn conflict(state: &State, winner: usize, loser: usize) -> Result<Doc, AllocError>
    ensures { IfOk result (λ doc.
        printed true doc ≡ message_text (Message.Conflict winner loser) state.now) }
{
    let winner = shown_item(state, winner)?;
    let loser = shown_item(state, loser)?;
    let phrases = [
        Term(loser.as_str()),
        Plain(" cannot be used at the same time as "),
        Term(winner.as_str()),
    ];
    of_phrases(state.alloc(), &phrases)
}

/// Which key stands there once more.
fn only_once(state: &State, place: usize) -> Result<Doc, AllocError>
    ensures { IfOk result (λ doc. printed true doc ≡ only_once_text state.now place) }
{
    let item = shown_item(state, place)?;
    let phrases = [
        Plain("argument "),
        Term(item.as_str()),
        Plain(" cannot be used multiple times in this context"),
    ];
    of_phrases(state.alloc(), &phrases)
}

/// Which text could not be read, with its word in the line.
fn unread(state: &State, place: Option<usize>, why: &Text) -> Result<Doc, AllocError>
    ensures { IfOk result (λ doc.
        printed true doc ≡ message_text (Message.ParseFailed place why.now) state.now) }
{
    match place {
        Some(place) => {
            let word = quoted_word(state, place)?;
            parse_failed(state.alloc(), word.as_deref(), why.as_str())
        }
        None => parse_failed(state.alloc(), None, why.as_str()),
    }
}

/// Which value a check refused, with its word in the line.
fn unguarded(state: &State, place: Option<usize>, why: &Text) -> Result<Doc, AllocError>
    ensures { IfOk result (λ doc.
        printed true doc ≡ message_text (Message.GuardFailed place why.now) state.now) }
{
    match place {
        Some(place) => guard_failed(state.alloc(), word_at(state, place), why.as_str()),
        None => guard_failed(state.alloc(), None, why.as_str()),
    }
}

/// Which key of the line wants a value.
fn without_argument(state: &State, place: usize, metavar: &Text) -> Result<Doc, AllocError>
    ensures { IfOk result (λ doc.
        printed true doc ≡ message_text (Message.NoArgument place metavar.now) state.now) }
{
    let key = shown_item(state, place)?;
    match key_behind(state, place) {
        Some(next) => {
            let joined = format!(in state.alloc(); "{key}={next}")?;
            let (key, metavar, next) = (key.as_str(), metavar.as_str(), next.as_str());
            no_argument_but(state.alloc(), key, metavar, next, joined.as_str())
        }
        None => no_argument(state.alloc(), key.as_str(), metavar),
    }
}

/// The text of a message; want of memory and the answer of an inner run have none. Refused only for
/// want of memory.
fn message_doc(message: &Message, state: &State) -> Result<Doc, AllocError>
    ensures { IfOk result (λ doc. printed true doc ≡ message_text message.now state.now) }
{
    let alloc = state.alloc();
    match message {
        Message::Memory | Message::ParseFailure(_) => Ok(Doc::new(alloc)),
        Message::NoEnv(name) => no_env(state, name),
        Message::ParseSome(text) | Message::ParseFail(text) | Message::PureFailed(text) => {
            of_phrases(alloc, &[Told(text.as_str())])
        }
        Message::Missing(items) => missing(state, items.as_slice()),
        Message::StrictPos(_, metavar) => other_side(alloc, metavar, "right"),
        Message::NonStrictPos(_, metavar) => other_side(alloc, metavar, "left"),
        Message::ParseFailed(place, why) => unread(state, *place, why),
        Message::GuardFailed(place, why) => unguarded(state, *place, why),
        Message::NoArgument(place, metavar) => without_argument(state, *place, metavar),
        Message::Unconsumed(place) => unconsumed(state, *place),
        Message::Ambiguity(word, number) => ambiguity(state, word, *number),
        Message::Conflict(winner, loser) => conflict(state, *winner, *loser),
        Message::Expected(items, got) => expected_items(state, items, *got),
        Message::OnlyOnce(_, place) => only_once(state, *place),
    }
}

/// A refusal of its text; Memory, where the text wants memory.
fn refusal(message: &Message, state: &State) -> ParseFailure
    ensures { IsRefusal (message_text message.now state.now) result }
{
    match message_doc(message, state) {
        Ok(doc) => ParseFailure::Stderr(doc),
        Err(_refused) => ParseFailure::Memory,
    }
}

/// The text of a message, where the state is the one that the refusing parser left (bpaf's
/// `Message::render`, which takes what the parser shows too).
///
/// Want of memory stays that, and the answer of an inner run is passed on. Every other message is
/// a Stderr of its text, or Memory where the text wants memory. What a program says is folded, as
/// [`Doc::text`] does it; words, names and metavars stand as they are.
///
/// ```text
/// render(Message::Unconsumed(0), &state)    // of the line `-x`
/// ```
///
/// is a Stderr of `` `-x` is not expected in this context ``.
pub fn render(message: Message, state: &State) -> ParseFailure
    ensures { Renders message state.now result }
{
    match message.into_answer() {
        Ok(failure) => failure,
        Err(message) => match &message {
            Message::Memory => ParseFailure::Memory,
            message => refusal(message, state),
        },
    }
}
