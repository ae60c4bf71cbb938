//! The message for words that have no line.
ghost use Rattle.bpaf_words.specs.Arguments.{given_name};
ghost use Rattle.bpaf_messages.specs.Leftover.{TellsNoLine};

use crate::rendering::render;
use bpaf_line::{Message, ParseFailure, State};
use bpaf_words::{Args, Line};
use std::alloc::Global;

/// The message for words that have no line: there is no state, so that of a line without items
/// stands for it, of the same set name. Or want of memory for that.
pub fn tell_fault(alloc: Global, args: Args<'_>, message: Message) -> ParseFailure
    ensures { TellsNoLine (given_name args.entry) message result }
{
    let line = Line {
        items: Vec::new(alloc),
        marker: None,
    };
    match State::of_line(alloc, args, line) {
        Ok(state) => render(message, &state),
        Err(_refused) => {
            drop(message);
            ParseFailure::Memory
        }
    }
}
