//! What an evaluation refuses with, and which refusals are caught.
ghost use Rattle.std.specs.Prelude.{◌≡◌, MatchResult, false, if◌then◌else◌};
ghost use Rattle.bpaf_line.specs.Messages.{Combines, CombinesSpared, is_answer, is_memory};
ghost use Rattle.bpaf_line.specs.declared.error.Message.TheVariants.{Memory};
ghost use Rattle.bpaf_line.specs.Failure.{is_shown};
ghost use Rattle.bpaf_line.specs.{Messages.can_catch, Messages.is_wrong_input, Taking.message_of};

use crate::failure::ParseFailure;
use crate::missing::MissingItems;
use bpaf_doc::{Item, Text};
use bpaf_words::LineFault;
use std::alloc::{AllocError, AllocFailed};

/// Why a parser gives no value, or words have no line (bpaf's `Message`).
///
/// A place is that of an item in the line. bpaf keeps some of the texts as `&'static str`, here
/// each is a [`Text`].
pub enum Message {
    /// Memory was wanted and refused. bpaf has no such case.
    Memory,
    /// The name of an environment variable that is not set, where nothing else could give the
    /// value.
    NoEnv(Text),
    /// What a parser says that wants one value at least and found none.
    ParseSome(Text),
    /// What a parser says that always fails.
    ParseFail(Text),
    /// What a closure said that was to make a value of nothing.
    PureFailed(Text),
    /// Items that parsers looked for in vain.
    Missing(MissingItems),
    /// The whole answer of an inner run, such as the help of a command.
    ParseFailure(ParseFailure),
    /// The place of a word that stands on the left side of `--` and should stand on the right, and
    /// its metavar.
    StrictPos(usize, Text),
    /// The place of a word that stands on the right side of `--` and should stand on the left, and
    /// its metavar.
    NonStrictPos(usize, Text),
    /// A text that could not be read: the place of its word, where it came from the line, and the
    /// fault.
    ParseFailed(Option<usize>, Text),
    /// A value that a check refused: the place of its word, where it came from the line, and what
    /// the check says.
    GuardFailed(Option<usize>, Text),
    /// The place of a key without a value, and the metavar of the value.
    NoArgument(usize, Text),
    /// The place of an item that no parser took.
    Unconsumed(usize),
    /// A word with a character that is both a known flag and a known argument, and the number of
    /// that character, the dash being 0.
    Ambiguity(Text, usize),
    /// The places of two items that exclude each other: that of the one which was taken, and that
    /// of the one which is left.
    Conflict(usize, usize),
    /// The items of which one should stand there, and the place of what stands there instead, if
    /// anything does.
    Expected(Vec<Item>, Option<usize>),
    /// The places of two keys of one name that may stand once only: that of the earlier one, and
    /// that of the one which is left.
    OnlyOnce(usize, usize),
}

/// One call, so that a function that drops a refusal isn't checked for each kind of it.
impl Drop for Message {
    fn drop(self) {
        match self {
            Message::Memory
            | Message::Unconsumed(_)
            | Message::Conflict(_, _)
            | Message::OnlyOnce(_, _) => {}
            Message::NoEnv(_text)
            | Message::ParseSome(_text)
            | Message::ParseFail(_text)
            | Message::PureFailed(_text) => {}
            Message::Missing(_items) => {}
            Message::ParseFailure(_failure) => {}
            Message::StrictPos(_, _text)
            | Message::NonStrictPos(_, _text)
            | Message::NoArgument(_, _text) => {}
            Message::ParseFailed(_, _text) | Message::GuardFailed(_, _text) => {}
            Message::Ambiguity(_text, _) => {}
            Message::Expected(_items, _) => {}
        }
    }
}

/// A refusal of a parser (bpaf's `Error`).
#[derive(Drop)]
pub struct Error(pub Message);

impl Message {
    /// Whether it is want of memory, also that of an inner run. It takes none.
    pub fn is_memory(&self) -> bool
        ensures { result ≡ is_memory self.now }
    {
        matches!(
            self,
            Message::Memory | Message::ParseFailure(ParseFailure::Memory)
        )
    }

    /// Whether it is the answer of an inner run that shows what was asked for. It takes no memory.
    pub fn is_shown(&self) -> bool
        ensures { result ≡ is_shown self.now }
    {
        matches!(self, Message::ParseFailure(ParseFailure::Stdout(..)))
    }

    /// Whether a parser that may do without a value goes on past it: something wasn't there, or a
    /// closure had no value to give. It takes no memory.
    pub fn can_catch(&self) -> bool
        ensures { result ≡ can_catch self.now }
    {
        matches!(
            self,
            Message::NoEnv(_)
                | Message::ParseSome(_)
                | Message::ParseFail(_)
                | Message::PureFailed(_)
                | Message::Missing(_)
                | Message::NonStrictPos(..)
        )
    }

    /// Whether the words of the line are at fault, which even a repeat that catches every fault of
    /// a value doesn't go past. It takes no memory.
    pub fn wrong_input(&self) -> bool
        ensures { result ≡ is_wrong_input self.now }
    {
        matches!(
            self,
            Message::StrictPos(..)
                | Message::NonStrictPos(..)
                | Message::NoArgument(..)
                | Message::Unconsumed(_)
                | Message::Ambiguity(..)
        )
    }

    /// The answer of an inner run; or the message itself, where it is none. It takes no memory.
    pub fn into_answer(self) -> Result<ParseFailure, Message>
        ensures { MatchResult result (λ failure. self ≡ Message.ParseFailure failure)
            (λ message. (message ≡ self) × (is_answer self ≡ false)) }
    {
        match self {
            Message::ParseFailure(failure) => Ok(failure),
            other => Err(other),
        }
    }

    /// The one refusal of two parsers of which either would have served.
    ///
    /// It is Memory where one of the two is want of memory; else the ParseFailure, the first before
    /// the second; else of two Missing all that is missing; else the first where it can't be
    /// caught, else the second. Joining two Missing may want memory, and then it is Memory too.
    pub fn combine_with(self, other: Message) -> Message
        ensures { Combines self other result }
    {
        if self.is_memory() || other.is_memory() {
            drop(self);
            drop(other);
            return Message::Memory;
        }
        self.combine_spared(other)
    }

    /// The one refusal of two that aren't want of memory.
    fn combine_spared(self, other: Message) -> Message
        ensures { CombinesSpared self other result }
    {
        match self {
            Message::ParseFailure(failure) => {
                drop(other);
                Message::ParseFailure(failure)
            }
            Message::Missing(items) => Message::combine_missing(items, other),
            first => match other {
                Message::ParseFailure(failure) => {
                    drop(first);
                    Message::ParseFailure(failure)
                }
                second => { if first.can_catch() { second } else { first } }
            },
        }
    }

    /// The same where the first is of items that were missing.
    fn combine_missing(items: MissingItems, other: Message) -> Message
        ensures { CombinesSpared (Message.Missing items) other result }
    {
        match other {
            Message::ParseFailure(failure) => {
                drop(items);
                Message::ParseFailure(failure)
            }
            Message::Missing(others) => match items.join(others) {
                Ok(all) => Message::Missing(all),
                Err(_refused) => Message::Memory,
            },
            second => {
                drop(items);
                second
            }
        }
    }
}

impl Error {
    /// Whether it is want of memory, as [`Message::is_memory`].
    pub fn is_memory(&self) -> bool
        ensures { result ≡ is_memory self.now.0 }
    {
        self.0.is_memory()
    }

    /// Whether a parser that may do without a value goes on past it, as [`Message::can_catch`].
    pub fn can_catch(&self) -> bool
        ensures { result ≡ can_catch self.now.0 }
    {
        self.0.can_catch()
    }

    /// Whether the words of the line are at fault, as [`Message::wrong_input`].
    pub fn wrong_input(&self) -> bool
        ensures { result ≡ is_wrong_input self.now.0 }
    {
        self.0.wrong_input()
    }

    /// The one refusal of two, as [`Message::combine_with`].
    pub fn combine_with(self, other: Error) -> Error
        ensures { Combines self.0 other.0 result.0 }
    {
        Error(self.0.combine_with(other.0))
    }
}

impl From<AllocError> for Error {
    ghost from_gives = { λ _ error. error.0 ≡ Memory };

    fn from(_error: AllocError) -> Error {
        Error(Message::Memory)
    }
}

impl From<AllocError> for Message {
    ghost from_gives = { λ _ message. message ≡ Memory };

    fn from(_error: AllocError) -> Message {
        Message::Memory
    }
}

/// So that a parser of a caller's own may write `vec.push(x)?` and `Box::new(alloc, x)?`; what was
/// to be kept is dropped.
impl<T: Drop> From<AllocFailed<T>> for Error {
    ghost from_gives = { λ _ error. error.0 ≡ Memory };

    fn from(refused: AllocFailed<T>) -> Error {
        drop(refused);
        Error(Message::Memory)
    }
}

impl From<LineFault> for Message {
    ghost from_gives = { λ fault message. message ≡ message_of fault };

    fn from(fault: LineFault) -> Message {
        match fault {
            LineFault::Ambiguous(word, number) => Message::Ambiguity(word, number),
            LineFault::Memory => Message::Memory,
        }
    }
}
