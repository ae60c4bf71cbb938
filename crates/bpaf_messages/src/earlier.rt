//! The last earlier key of the same name.
ghost use Rattle.std.specs.Prelude.{◌≡◌, MatchOption, Some};
ghost use Rattle.bpaf_line.specs.Situation.{line_item};
ghost use Rattle.bpaf_messages.specs.Leftover.{have_one_name, repeats, IsEarlierKey};
ghost use Rattle.bpaf_messages.specs.Leftover.{HasNoEarlierKey};

use bpaf_line::State;
use bpaf_words::{Arg, is_key};

/// Whether two items are keys of one kind and name.
fn have_one_name(item: &Arg, other: &Arg) -> bool
    ensures { result ≡ have_one_name item.now other.now }
{
    match (item, other) {
        (Arg::Short(c, _, _), Arg::Short(d, _, _)) => *c == *d,
        (Arg::Long(name, _, _), Arg::Long(same, _, _)) => name.as_str() == same.as_str(),
        _ => false,
    }
}

/// Where the item at a place of the line is a key, the last place before it whose item is a key of
/// the same kind and name, taken or not, attached or not; else None. It takes no memory.
pub fn earlier_key(state: &State, place: usize) -> Option<usize>
    ensures { MatchOption result
        (HasNoEarlierKey state.now place) (IsEarlierKey state.now place) }
{
    let item = state.line_item(place)?;
    if !is_key(item) {
        return None;
    }
    let mut later = place;
    while later > 0 {
        later -= 1;
        if has_name_of(state, later, item) {
            return Some(later);
        }
    }
    None
}

/// Whether the item at a place of the line is a key of the same kind and name as an item.
fn has_name_of(state: &State, place: usize, item: &Arg) -> bool
    ensures { result ≡ repeats (Some item.now) (line_item state.now place) }
{
    match state.line_item(place) {
        Some(other) => have_one_name(item, other),
        None => false,
    }
}
