//! What messages show of the items of a line.
ghost use Rattle.std.specs.Prelude.{◌≡◌, IfOk, option_copied, option_map, string_bytes};
ghost use Rattle.bpaf_messages.specs.Rendering.{shown_item, key_of, word_at, key_behind};
ghost use Rattle.bpaf_messages.specs.Rendering.{before_value, key_before, quoted_word};

use bpaf_doc::Text;
use bpaf_line::State;
use bpaf_words::{Arg, is_attached};
use std::alloc::{AllocError, Global};

/// The text of a key; a word has none.
fn key_of(item: &Arg) -> Option<&Text>
    ensures { option_copied result ≡ key_of item.now }
{
    match item {
        Arg::Short(_, _, text) | Arg::Long(_, _, text) => Some(text),
        Arg::ArgWord(_) | Arg::Word(_) | Arg::PosWord(_) => None,
    }
}

/// A key as it stands before its value; of a word nothing. Refused only for want of memory.
fn before_value(alloc: Global, item: &Arg) -> Result<String, AllocError>
    ensures { IfOk result (λ text. string_bytes text ≡ before_value item.now) }
{
    if key_of(item).is_none() {
        return Ok(String::new(alloc));
    }
    let sign = if is_attached(item) { '=' } else { ' ' };
    format!(in alloc; "{item}{sign}")
}

/// How the item at a place is printed; nothing past the line. Refused only for want of memory.
pub(crate) fn shown_item(state: &State, place: usize) -> Result<String, AllocError>
    ensures { IfOk result (λ text. string_bytes text ≡ shown_item state.now place) }
{
    match state.line_item(place) {
        Some(item) => format!(in state.alloc(); "{item}"),
        None => Ok(String::new(state.alloc())),
    }
}

/// The text of the word at a place of the line; a key has none.
pub(crate) fn word_at(state: &State, place: usize) -> Option<&Text>
    ensures { option_copied result ≡ word_at state.now place }
{
    match state.line_item(place)? {
        Arg::ArgWord(text) | Arg::Word(text) | Arg::PosWord(text) => Some(text),
        Arg::Short(..) | Arg::Long(..) => None,
    }
}

/// The text of the key at the next place, where it is present and in scope.
pub(crate) fn key_behind(state: &State, place: usize) -> Option<&Text>
    ensures { option_copied result ≡ key_behind state.now place }
{
    let end = state.scope().end;
    if place >= end {
        return None;
    }
    key_of(state.get(place + 1)?)
}

/// The key before a place, as it stands before its value.
fn key_before(state: &State, place: usize) -> Result<String, AllocError>
    ensures { IfOk result (λ text. string_bytes text ≡ key_before state.now place) }
{
    if place > 0
        && let Some(item) = state.line_item(place - 1)
    {
        return before_value(state.alloc(), item);
    }
    Ok(String::new(state.alloc()))
}

/// The word at a place, an empty one as two quotes behind the key before it; refused only for want
/// of memory.
pub(crate) fn quoted_word(state: &State, place: usize) -> Result<Option<String>, AllocError>
    ensures { IfOk result (λ word. option_map string_bytes word ≡ quoted_word state.now place) }
{
    let Some(word) = word_at(state, place) else {
        return Ok(None);
    };
    if !word.as_str().is_empty() {
        return Ok(Some(String::from_str(state.alloc(), word.as_str())?));
    }
    let mut quoted = key_before(state, place)?;
    quoted.push_str("\"\"")?;
    Ok(Some(quoted))
}
