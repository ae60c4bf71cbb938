//! Items that are looked for by their text, whatever they are.
ghost use Rattle.std.specs.Prelude.{◌≡◌, true, IfOk, OnErr};
ghost use Rattle.bpaf_doc.specs.Shape.{part_of, Any};
ghost use Rattle.bpaf_line.specs.Situation.{is_open};
ghost use Rattle.bpaf_laws.specs.Leaves.{TakesMatch, take_item, Looks};
ghost use Rattle.bpaf.specs.Remembering.{FindsMatch};

use bpaf_doc::{Doc, Item};
use bpaf_line::State;
use bpaf_words::{is_attached, item_text};
use std::alloc::{AllocError, Global};

/// A look at a text: a value, where it matches.
pub(crate) trait Look<T>: Sized {
    /// Whether a look may be taken: its closures may be called on every value.
    ghost can_look: { Self → Type 0 };

    /// What it may answer.
    ghost looks: { Self → Looks T };

    /// A value, where the text matches; refused only for want of memory.
    fn look(&self, alloc: Global, text: &str) -> Result<Option<T>, AllocError>
        requires { can_look self.now }
        ensures { IfOk result (looks self.now text.now) };
}

/// The first item that matches: its place, whether it is an attached key, and the value.
///
/// Under `anywhere` each present item in scope is looked at, in order, else the first one alone.
fn first_match<T: Drop, L: Look<T>>(
    look: &L,
    anywhere: bool,
    state: &State,
) -> Result<Option<(usize, bool, T)>, AllocError>
    requires { L.can_look look.now }
    ensures { IfOk result (FindsMatch (L.looks look.now) anywhere state.now) }
{
    for (place, item) in state.items_iter() {
        if let Some(value) = look.look(state.alloc(), item_text(item).as_str())? {
            return Ok(Some((place, is_attached(item), value)));
        }
        if !anywhere {
            return Ok(None);
        }
    }
    Ok(None)
}

/// Takes a place, and behind an attached key the next one, if it is present and in scope.
fn take_item(state: &mut State, place: usize, attached: bool)
    requires { is_open state.old place ≡ true }
    ensures { state.new ≡ take_item state.old place attached }
{
    // A place of the scope lies before its end, so the next one has a number.
    let _end = state.scope().end;
    state.remove(place);
    if attached {
        state.remove(place + 1);
    }
}

/// Takes the first item that matches, and behind an attached key the next place; its value.
///
/// None, and nothing changes, where no item matches; so it is where it is refused for want of
/// memory.
pub(crate) fn take_match<T: Drop, L: Look<T>>(
    look: &L,
    anywhere: bool,
    state: &mut State,
) -> Result<Option<T>, AllocError>
    requires { L.can_look look.now }
    ensures ok { IfOk result (λ found.
        TakesMatch (L.looks look.now) anywhere state.old found state.new) }
    ensures err { OnErr result (state.new ≡ state.old) }
{
    let Some((place, attached, value)) = first_match(look, anywhere, state)? else {
        return Ok(None);
    };
    take_item(state, place, attached);
    Ok(Some(value))
}

/// The item that is looked for; refused only for want of memory.
pub(crate) fn any_item(
    metavar: &Doc,
    help: &Option<Doc>,
    anywhere: bool,
) -> Result<Item, AllocError>
    ensures { IfOk result (λ item. part_of item ≡ Any metavar.now help.now anywhere) }
{
    Ok(Item::Any {
        metavar: metavar.copy()?,
        help: Doc::copy_of(help)?,
        anywhere,
    })
}
