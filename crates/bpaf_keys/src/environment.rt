//! Keys and their names in the environment.
ghost use Rattle.std.specs.Prelude.{◌≡◌, IfOk, false, option_copied, option_map, true};
ghost use Rattle.bpaf_doc.specs.Shape.{part_of};
ghost use Rattle.bpaf_laws.specs.Leaves.{TextOutcome, TakesAtKey, IsPresent};
ghost use Rattle.bpaf_laws.specs.Reading.{first_set, IsAbsence};

use bpaf_doc::{Item, Text};
use bpaf_line::{Error, Message, State};
use bpaf_text::{NamedArg, ParseArgument, ParseFlag};
use std::alloc::AllocError;

/// The value of the first of the names that the state's environment has. It takes no memory.
pub fn first_set<'a>(state: &'a State, names: &[Text]) -> Option<&'a str>
    ensures { option_copied result ≡ first_set state.now.context.env names.now }
{
    for name in names {
        if let Some(value) = state.env(name.as_str()) {
            return Some(value);
        }
    }
    None
}

/// The refusal of a key that is neither on the line nor in the environment: its item is missing,
/// or, where it shows none, its first name in the environment isn't set (bpaf's `NoEnv`).
///
/// Refused only for want of memory.
pub fn absence(state: &State, item: Option<Item>, envs: &[Text]) -> Result<Error, AllocError>
    ensures { IfOk result (λ error.
        IsAbsence state.now (option_map part_of item) envs.now error.0) }
{
    if item.is_some() {
        return state.missing(item);
    }
    match envs.first() {
        Some(name) => Ok(Error(Message::NoEnv(name.copy()?))),
        None => state.missing(item),
    }
}

/// Whether a key without a value is present: the first one in scope with one of the names, which is
/// taken; or, where there is none, one of its names in the environment that is set. It takes no
/// memory.
///
/// It is the test for the keys that ask for help and for the version; [`is_flag_present`] is that
/// for flags.
pub fn is_present(named: &NamedArg, state: &mut State) -> bool
    ensures { IsPresent named.now state.old result state.new }
{
    let found = state.take_flag(named.shorts(), named.longs());
    found || first_set(state, named.envs()).is_some()
}

/// Whether the key of a flag is, by the same test.
pub fn is_flag_present<T>(flag: &ParseFlag<T>, state: &mut State) -> bool
    ensures { IsPresent flag.now.named state.old result state.new }
{
    let found = state.take_flag(flag.named.shorts(), flag.named.longs());
    found || first_set(state, flag.named.envs()).is_some()
}

/// The text behind the first key of an argument, both of which are taken; None, and nothing
/// changes, where there is no key. Refused as [`State::take_text`] is.
fn take_first_key<T>(argument: &ParseArgument<T>, state: &mut State) -> Result<Option<Text>, Error>
    ensures { TakesAtKey false argument.now state.old result state.new }
{
    let named = &argument.named;
    state.take_text(
        named.shorts(),
        named.longs(),
        argument.adjacent,
        argument.metavar,
    )
}

/// The text behind the last key of an argument, all of whose keys are taken, each with the text
/// behind it; None, and nothing changes, where there is no key.
///
/// Refused as [`State::take_text`] is; the keys before the refused one then stay taken.
fn take_all_keys<T>(argument: &ParseArgument<T>, state: &mut State) -> Result<Option<Text>, Error>
    ensures { TakesAtKey true argument.now state.old result state.new }
{
    let mut last = None;
    while let Some(text) = take_first_key(argument, state)? {
        last = Some(text);
    }
    Ok(last)
}

/// The text behind the key of an argument that counts: the last one of all, or the first one alone.
///
/// None, and nothing changes, where there is no key; refused as these are.
fn take_key<T>(argument: &ParseArgument<T>, state: &mut State) -> Result<Option<Text>, Error>
    ensures { TakesAtKey argument.now.last argument.now state.old result state.new }
{
    if argument.last {
        take_all_keys(argument, state)
    } else {
        take_first_key(argument, state)
    }
}

/// The text of an argument: that behind its key, or behind the last of all its keys where that
/// counts; or, where there is no key, that of the first name in the environment that is set (bpaf's
/// `take_argument`, which knows no last key).
pub fn take_argument<T>(argument: &ParseArgument<T>, state: &mut State) -> Result<Text, Error>
    ensures { TextOutcome argument.now state.old result state.new }
{
    let named = &argument.named;
    if let Some(text) = take_key(argument, state)? {
        return Ok(text);
    }
    let Some(value) = first_set(state, named.envs()) else {
        let item = named.argument_item(state.alloc(), argument.metavar)?;
        return Err(absence(state, item, named.envs())?);
    };
    let text = Text::new(state.alloc(), value)?;
    state.set_current(None);
    Ok(text)
}
