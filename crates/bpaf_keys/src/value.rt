//! The value of a taken text.
ghost use Rattle.bpaf_laws.specs.Reading.{ReadsValue, TellsReading};

use bpaf_doc::Text;
use bpaf_line::{Error, Message, State};
use bpaf_text::{FromText, TextFault};

/// What the reading of a taken text is for a parser: the value; or ParseFailed, which names the
/// current place, where the text means none; or want of memory.
pub fn value_or_refusal<T>(state: &State, read: Result<T, TextFault>) -> Result<T, Error>
    ensures { TellsReading read state.now.current result }
{
    match read {
        Ok(value) => Ok(value),
        Err(TextFault::Memory) => Err(Error(Message::Memory)),
        Err(TextFault::Fault(fault)) => Err(Error(Message::ParseFailed(
            state.current(),
            Text::from(fault),
        ))),
    }
}

/// The value that a taken text means.
///
/// Refused with ParseFailed, which names the current place, where the text means none; or for want
/// of memory.
#[tactic(auto, using(bpaf_laws::proofs::Keeping::reading_told))]
pub fn read_text<T: FromText>(state: &State, text: &str) -> Result<T, Error>
    ensures { ReadsValue T.means text.now state.now.current result }
{
    value_or_refusal(state, T::from_text(state.alloc(), text))
}
