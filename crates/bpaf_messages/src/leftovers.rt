//! The message for items that no parser took.
ghost use Rattle.std.specs.Prelude.{◌≡◌, MatchOption};
ghost use Rattle.bpaf_messages.specs.Leftover.{IsLeftover};
ghost use Rattle.bpaf_line.specs.Situation.{IsNextOpen, open_count};

use crate::earlier::earlier_key;
use bpaf_line::{Message, State};

/// The message of the first present item in scope; None where none is left. It takes no memory.
///
/// It is Conflict, where the item has a conflict note; else OnlyOnce, where it is a key and
/// [`earlier_key`] finds one; else Unconsumed (bpaf's `Message::render`, in `error.rs`).
pub fn leftover(state: &State) -> Option<Message>
    ensures { MatchOption result (open_count state.now ≡ 0) (IsLeftover state.now) }
{
    match state.next_open(0) {
        Some((place, _)) => Some(message_of(state, place)),
        None => None,
    }
}

/// That of the item at a place, which is the first one.
fn message_of(state: &State, place: usize) -> Message
    requires { IsNextOpen state.now 0 place }
    ensures { IsLeftover state.now result }
{
    if let Some(winner) = state.conflict_at(place) {
        return Message::Conflict(winner, place);
    }
    match earlier_key(state, place) {
        Some(earlier) => Message::OnlyOnce(earlier, place),
        None => Message::Unconsumed(place),
    }
}
