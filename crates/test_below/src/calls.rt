//! Calls of a state as words, and what they answer as a short text.
//!
//! A test makes no state of its own: it walks a table of lines with the calls that are made on
//! them, and what these are to answer. So one function alone owns a state. A row is a line of its
//! table: its words; the short names of flags, and behind `/` those of arguments, that are known;
//! the calls on the state of these words; and what they answer, each answer ended by a semicolon.
//! A line that begins with `#` tells what the row below it is.
ghost use Rattle.std.specs.Prelude.{◌≡◌, ◌≤◌, true, length};

use bpaf_doc::{Metavar, Text};
use bpaf_line::{Error, Message, State};
use bpaf_messages::{earlier_key, leftover};
use bpaf_words::{Arg, Args};
use std::alloc::{AllocError, Global};
use std::fmt::Debug;
use std::test::Fail;
use test_support::{cut, reads, rows_of};

/// Compares what the calls of each row answer with what is wanted; the name of the run is `app`.
/// The calls are made on each beginning of the words too, and return.
pub(crate) fn walk(alloc: Global, table: &str) -> Result<(), Fail> {
    walk_by(alloc, false, table)
}

/// The same where negative numbers are words.
pub(crate) fn walk_numbers(alloc: Global, table: &str) -> Result<(), Fail> {
    walk_by(alloc, true, table)
}

/// The same where negative numbers are words or aren't.
fn walk_by(alloc: Global, numbers: bool, table: &str) -> Result<(), Fail> {
    for row in rows_of(alloc, table)? {
        let (known, rest) = cut(row.wanted, " | ");
        let (calls, wanted) = cut(rest, " | ");
        for count in 0..row.words.len() {
            let args = Args::from(&row.words.as_slice()[..count]).set_name("app");
            drop(played(alloc, args, numbers, known, calls)?);
        }
        let args = Args::from(row.words.as_slice()).set_name("app");
        reads(played(alloc, args, numbers, known, calls), wanted)?;
    }
    Ok(())
}

/// The answers of calls on the state of these words, or why they have none.
pub(crate) fn played(
    alloc: Global,
    args: Args<'_>,
    numbers: bool,
    known: &str,
    calls: &str,
) -> Result<String, AllocError> {
    let (flags, arguments) = cut(known, "/");
    let flags: Vec<char> = flags.chars().collect(alloc)?;
    let arguments: Vec<char> = arguments.chars().collect(alloc)?;
    let line = if numbers {
        State::construct_numbers(alloc, args, flags.as_slice(), arguments.as_slice())
    } else {
        State::construct(alloc, args, flags.as_slice(), arguments.as_slice())
    };
    answer(alloc, line, calls)
}

/// The answers of calls on a state, or why there is none.
fn answer(alloc: Global, line: Result<State, Message>, calls: &str) -> Result<String, AllocError> {
    let mut answers = String::new(alloc);
    match line {
        Ok(mut state) => {
            let played = play(alloc, &mut state, calls, &mut answers);
            drop(state);
            played?;
        }
        Err(message) => {
            let told = refuse(&message, &mut answers);
            drop(message);
            told?;
        }
    }
    Ok(answers)
}

/// Makes calls, one after another.
fn play(
    alloc: Global,
    state: &mut State,
    calls: &str,
    answers: &mut String,
) -> Result<(), AllocError> {
    for call in calls.split(", ") {
        let (name, given) = cut(call, " ");
        take(alloc, state, name, given, answers)?;
    }
    Ok(())
}

/// Makes a call of this name.
fn take(
    alloc: Global,
    state: &mut State,
    name: &str,
    given: &str,
    answers: &mut String,
) -> Result<(), AllocError> {
    match name {
        "take_flag" => {
            let (shorts, longs) = names(alloc, given)?;
            tell(state.take_flag(&shorts, &longs), answers)
        }
        "take_arg" => take_arg(alloc, state, given, false, answers),
        "take_adjacent" => take_arg(alloc, state, given, true, answers),
        "take_word" => tell_taken(state.take_positional_word(Metavar("FILE")), answers),
        "take_cmd" => tell(state.take_cmd(given), answers),
        "push_path" => state.push_path(given),
        _ => go(state, name, given, answers),
    }
}

/// Takes an argument of these names.
fn take_arg(
    alloc: Global,
    state: &mut State,
    given: &str,
    adjacent: bool,
    answers: &mut String,
) -> Result<(), AllocError> {
    let (shorts, longs) = names(alloc, given)?;
    let taken = state.take_arg(&shorts, &longs, adjacent, Metavar("NUM"));
    tell_taken(taken, answers)
}

/// The short names and the long ones, as they stand in words.
fn names(alloc: Global, given: &str) -> Result<(Vec<char>, Vec<Text>), AllocError> {
    let mut shorts = Vec::new(alloc);
    let mut longs = Vec::new(alloc);
    for name in given.split(' ') {
        match name.strip_prefix("--") {
            Some(long) => longs.push(Text::new(alloc, long)?)?,
            None => shorts.push(name.chars().last().unwrap_or('-'))?,
        }
    }
    Ok((shorts, longs))
}

/// The place that is given.
pub(crate) fn place_of(given: &str) -> Option<usize> {
    given.parse::<usize>().ok()
}

/// Makes a call on a place.
fn go(state: &mut State, name: &str, given: &str, answers: &mut String) -> Result<(), AllocError> {
    match (name, place_of(given)) {
        ("set_current", place) => Ok(state.set_current(place)),
        ("remove", Some(place)) => Ok(state.remove(place)),
        ("present", Some(place)) => tell(state.present(place), answers),
        ("earlier_key", Some(place)) => tell(earlier_key(state, place), answers),
        ("set_scope", None) => tell(set_scope(state, given), answers),
        ("adjacently_available_from", Some(place)) => {
            tell(state.adjacently_available_from(place), answers)
        }
        ("adjacent_scope", Some(place)) => {
            let mut other = state.copy()?;
            other.remove(place);
            let found = state.adjacent_scope(&other);
            drop(other);
            tell(found, answers)
        }
        _ => look(state, name, given, answers),
    }
}

/// Makes a call that changes nothing.
fn look(state: &State, name: &str, given: &str, answers: &mut String) -> Result<(), AllocError> {
    match name {
        "len" => tell(state.len(), answers),
        "is_empty" => tell(state.is_empty(), answers),
        "scope" => tell(state.scope(), answers),
        "current" => tell(state.current(), answers),
        "depth" => tell(state.depth(), answers),
        "path" => tell(state.path(), answers),
        "env" => tell(state.env(given), answers),
        "leftover" => {
            let left = leftover(state);
            let told = tell_leftover(&left, answers);
            drop(left);
            told
        }
        "items" => list(state, answers),
        "spelled" => spell(state, answers),
        _ => answers.push_str("no such call;"),
    }
}

/// An answer as Rust's Debug prints it.
fn tell<T: Debug + Drop>(answer: T, answers: &mut String) -> Result<(), AllocError> {
    write!(answers, "{answer:?};")
}

/// What is told of what is left, by the places that it names.
fn tell_leftover(message: &Option<Message>, answers: &mut String) -> Result<(), AllocError> {
    match message {
        None => answers.push_str("None;"),
        Some(Message::Unconsumed(place)) => write!(answers, "Some(Unconsumed({place}));"),
        Some(Message::OnlyOnce(earlier, place)) => {
            write!(answers, "Some(OnlyOnce({earlier}, {place}));")
        }
        Some(Message::Conflict(taken, place)) => {
            write!(answers, "Some(Conflict({taken}, {place}));")
        }
        Some(_) => answers.push_str("another message;"),
    }
}

/// What was taken, or why nothing was.
fn tell_taken<T: Debug + Drop>(
    taken: Result<T, Error>,
    answers: &mut String,
) -> Result<(), AllocError> {
    match taken {
        Ok(taken) => tell(taken, answers),
        Err(error) => {
            let told = refuse(&error.0, answers);
            drop(error);
            told
        }
    }
}

/// A refusal in short.
fn refuse(message: &Message, answers: &mut String) -> Result<(), AllocError> {
    match message {
        Message::NoArgument(key, metavar) => write!(answers, "no argument {key} {metavar};"),
        Message::Ambiguity(word, number) => write!(answers, "ambiguity {word} {number};"),
        Message::Missing(_) => answers.push_str("missing;"),
        Message::Memory => Err(AllocError),
        _ => answers.push_str("another refusal;"),
    }
}

/// Makes the places from one to another the scope, where the line has them.
fn set_scope(state: &mut State, given: &str) -> bool {
    let (start, end) = cut(given, " ");
    let (Some(start), Some(end)) = (place_of(start), place_of(end)) else {
        return false;
    };
    let fits = start <= end && has_end(state, end);
    if fits {
        state.set_scope(start..end);
    }
    fits
}

/// Whether the line is at least so long.
fn has_end(state: &State, end: usize) -> bool
    ensures { result ≡ true → end ≤ length state.now.context.line }
{
    if end == 0 {
        return true;
    }
    match state.present(end - 1) {
        Some(_) => true,
        None => false,
    }
}

/// The present items in scope, each with its place.
fn list(state: &State, answers: &mut String) -> Result<(), AllocError> {
    for (place, item) in state.items_iter() {
        write!(answers, "{place} {item},")?;
    }
    answers.push_str(";")
}

/// The item at each place of the scope in full, where it is present.
fn spell(state: &State, answers: &mut String) -> Result<(), AllocError> {
    for place in state.scope() {
        spell_item(state.get(place), answers)?;
    }
    Ok(())
}

/// An item: its kind, how it prints, and of a key whether it is attached, and its word.
fn spell_item(item: Option<&Arg>, answers: &mut String) -> Result<(), AllocError> {
    match item {
        None => answers.push_str("none;"),
        Some(item) => match item {
            Arg::Short(_, attached, word) => write!(answers, "Short {item} {attached} {word};"),
            Arg::Long(_, attached, word) => write!(answers, "Long {item} {attached} {word};"),
            Arg::ArgWord(_) => write!(answers, "ArgWord {item};"),
            Arg::Word(_) => write!(answers, "Word {item};"),
            Arg::PosWord(_) => write!(answers, "PosWord {item};"),
        },
    }
}
