//! The texts of messages on states of given words.
use crate::calls::place_of;
use bpaf_doc::{Item, Meta, ShortLong, Text};
use bpaf_line::{Message, MissingItem, MissingItems, ParseFailure, State};
use bpaf_messages::render;
use bpaf_words::Args;
use std::alloc::{AllocError, Global};
use std::test::Fail;
use test_support::{cut, reads, rows_of};

/// Words, what is told of them with its places, and the text of that; a text that a program gives
/// is `no`. Of each missing item its short name is told (`>` is a command), where it was looked
/// for, and the scope.
const ROWS: &str = "
 | no_env K | environment variable `K` is not set
a | strict | expected `FILE` to be on the right side of `--`
-- a | non_strict | expected `FILE` to be on the left side of `--`
-n=x | unread 1 | couldn't parse `x`: no
-n= | unread 1 | couldn't parse `-n=\"\"`: no
--num '' | unread 1 | couldn't parse `--num \"\"`: no
x '' | unread 1 | couldn't parse `\"\"`: no
'' | unread 0 | couldn't parse `\"\"`: no
-n | unread 0 | couldn't parse: no
x | unread | couldn't parse: no
x | unguarded 0 | `x`: no
-v | unguarded 0 | check failed: no
-v | unguarded 1 | check failed: no
-n | no_argument 0 | `-n` requires an argument `NUM`
-n --bar | no_argument 0 | `-n` requires an argument `NUM`, got a flag `--bar`, \
    try `-n=--bar` to use it as an argument
--verbose=yes | unconsumed 1 | `yes` is not expected in this context
--verbose=yes | unconsumed 0 | `--verbose` is not expected in this context
 | unconsumed 0 | `` is not expected in this context
-a 12 -b 3 | conflict 0 2 | `-b` cannot be used at the same time as `-a`
-n 3 -n | only_once 0 2 | argument `-n` cannot be used multiple times in this context
 | ambiguity -abc 1 | app supports `-a` as both an option and an option-argument, \
    try to split `-abc` into individual options (-a -b ..) or use `-a=bc` syntax to disambiguate
 | ambiguity -va 2 | app supports `-a` as both an option and an option-argument, \
    try to split `-va` into individual options (-v -a ..) or use `-a=` syntax to disambiguate
 | ambiguity -ñ 7 | app supports `-` as both an option and an option-argument, \
    try to split `-ñ` into individual options (-ñ - ..) or use `-=` syntax to disambiguate
 | missing | parser requires an extra flag, argument or parameter, \
    but its name is hidden by the author
buil | missing > 0 0 1 | expected `COMMAND ...`, got `buil`. Pass `--help` for usage information
x y z | missing a 0 0 1, b 0 0 2, > 1 0 2, > 0 0 2 | expected `-b=NUM` or `COMMAND ...`, got `y`. \
    Pass `--help` for usage information
x | missing a 1 0 2, b 1 0 2, c 1 0 2 | expected `-a=NUM`, `-b=NUM`, or more, \
    pass `--help` for usage information
 | expected | expected no arguments, pass `--help` for usage information
";

/// An argument of this short name, or a command.
fn item(alloc: Global, name: char) -> Result<Item, AllocError> {
    if name == '>' {
        return Ok(Item::Command {
            name: Text::new(alloc, "build")?,
            short: None,
            help: None,
            meta: Box::new(alloc, Meta::Skip)?,
        });
    }
    Ok(Item::Argument {
        name: ShortLong::Short(name),
        shorts: vec![in alloc; name]?,
        metavar: Text::new(alloc, "NUM")?,
        env: None,
        help: None,
    })
}

/// An item that was missed: its name, where it was looked for, and the scope.
fn missed(alloc: Global, told: &str) -> Result<MissingItem, AllocError> {
    let (name, told) = cut(told, " ");
    let (position, scope) = cut(told, " ");
    let (start, end) = cut(scope, " ");
    Ok(MissingItem {
        item: item(alloc, name.chars().next().unwrap_or('>'))?,
        position: place_of(position).unwrap_or(0),
        scope: place_of(start).unwrap_or(0)..place_of(end).unwrap_or(0),
    })
}

/// Missing items, with commas between them.
fn missing(alloc: Global, told: &str) -> Result<MissingItems, AllocError> {
    let mut all = MissingItems::none(alloc);
    if !told.is_empty() {
        for item in told.split(", ") {
            all = all.join(MissingItems::one(alloc, missed(alloc, item)?)?)?;
        }
    }
    Ok(all)
}

/// The text in the message that a row tells.
fn text_in(told: &str) -> &str {
    let (kind, given) = cut(told, " ");
    match kind {
        "no_env" => given,
        "strict" | "non_strict" => "FILE",
        "unread" | "unguarded" => "no",
        "no_argument" => "NUM",
        "ambiguity" => cut(given, " ").0,
        _ => told,
    }
}

/// The message of a row with a text.
fn with_text(kind: &str, place: Option<usize>, letter: usize, text: Text) -> Message {
    match kind {
        "no_env" => Message::NoEnv(text),
        "strict" => Message::StrictPos(0, text),
        "non_strict" => Message::NonStrictPos(1, text),
        "unread" => Message::ParseFailed(place, text),
        "unguarded" => Message::GuardFailed(place, text),
        "no_argument" => Message::NoArgument(place.unwrap_or(0), text),
        "ambiguity" => Message::Ambiguity(text, letter),
        _ => Message::ParseFail(text),
    }
}

/// The message that a row tells.
fn message(alloc: Global, told: &str) -> Result<Message, AllocError> {
    let (kind, given) = cut(told, " ");
    let (first, second) = cut(given, " ");
    let place = place_of(first);
    let other = place_of(second).unwrap_or(0);
    Ok(match kind {
        "unconsumed" => Message::Unconsumed(place.unwrap_or(0)),
        "conflict" => Message::Conflict(place.unwrap_or(0), other),
        "only_once" => Message::OnlyOnce(place.unwrap_or(0), other),
        "missing" => Message::Missing(missing(alloc, given)?),
        "expected" => Message::Expected(Vec::new(alloc), None),
        _ => with_text(kind, place, other, Text::new(alloc, text_in(told))?),
    })
}

/// The text of a refusal; none of another failure.
fn text(alloc: Global, failure: ParseFailure) -> Result<String, AllocError> {
    match failure.unwrap_stderr()? {
        Some(text) => Ok(text),
        None => Ok(String::new(alloc)),
    }
}

/// The text of what is told of words.
fn rendered(alloc: Global, words: &[&str], told: &str) -> Result<String, AllocError> {
    let message = message(alloc, told)?;
    match State::construct(alloc, Args::from(words), &[], &[]) {
        Ok(state) => {
            let told = render(message, &state);
            drop(state);
            text(alloc, told)
        }
        Err(refused) => {
            drop(refused);
            drop(message);
            Ok(String::new(alloc))
        }
    }
}

#[test]
fn messages_have_their_texts(rt: HostRuntime) -> Result<(), Fail> {
    for row in rows_of(rt.alloc(), ROWS)? {
        let (told, wanted) = cut(row.wanted, " | ");
        reads(rendered(rt.alloc(), row.words.as_slice(), told), wanted)?;
    }
    let of_the_author = "You must\naccept\n\nit\nfirst";
    reads(
        rendered(rt.alloc(), &[], of_the_author),
        "You must accept\nit first",
    )
}
