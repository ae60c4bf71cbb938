//! How a run ends that gives no value.
ghost use Rattle.std.specs.Prelude.{◌≡◌, IfOk, option_map, string_bytes};
ghost use Rattle.bpaf_line.specs.Failure.{end_message, stdout_text, stderr_text, exit_code};
ghost use Rattle.bpaf_line.specs.Messages.{is_memory};
ghost use Rattle.bpaf_line.specs.declared.failure.ParseFailure.TheVariants.{Memory};

use crate::error::Message;
use bpaf_doc::Doc;
use std::alloc::AllocError;

/// Why a run gives no value (bpaf's `ParseFailure`).
#[derive(Debug, Drop)]
pub enum ParseFailure {
    /// A text that was asked for, such as the help, and whether all of it is shown.
    Stdout(Doc, bool),
    /// A message.
    Stderr(Doc),
    /// Memory was wanted and refused. bpaf has no such case.
    Memory,
}

impl ParseFailure {
    /// Whether it is want of memory, as [`Message::is_memory`]. It takes none.
    pub fn is_memory(&self) -> bool
        ensures { result ≡ is_memory (end_message self.now) }
    {
        matches!(self, ParseFailure::Memory)
    }

    /// The end of an inner run, as a refusal of its command: want of memory stays that. It takes no
    /// memory.
    pub fn into_message(self) -> Message
        ensures { result ≡ end_message self }
    {
        match self {
            ParseFailure::Memory => Message::Memory,
            failure => Message::ParseFailure(failure),
        }
    }

    /// An equal one (bpaf's `Clone`); refused only for want of memory.
    pub fn copy(&self) -> Result<ParseFailure, AllocError>
        ensures { IfOk result (λ new. new ≡ self.now) }
    {
        match self {
            ParseFailure::Stdout(doc, full) => Ok(ParseFailure::Stdout(doc.copy()?, *full)),
            ParseFailure::Stderr(doc) => Ok(ParseFailure::Stderr(doc.copy()?)),
            ParseFailure::Memory => Ok(ParseFailure::Memory),
        }
    }

    /// The text of a Stdout, with its detail where all of it is shown; None for the others.
    ///
    /// Refused only for want of memory. bpaf's call panics on the others.
    pub fn unwrap_stdout(self) -> Result<Option<String>, AllocError>
        ensures { IfOk result (λ text. option_map string_bytes text ≡ stdout_text self) }
    {
        match self {
            ParseFailure::Stdout(doc, full) => Ok(Some(doc.monochrome(full)?)),
            ParseFailure::Stderr(_) | ParseFailure::Memory => Ok(None),
        }
    }

    /// The whole text of a Stderr; None for the others.
    ///
    /// Refused only for want of memory. bpaf's call panics on the others.
    pub fn unwrap_stderr(self) -> Result<Option<String>, AllocError>
        ensures { IfOk result (λ text. option_map string_bytes text ≡ stderr_text self) }
    {
        match self {
            ParseFailure::Stderr(doc) => Ok(Some(doc.monochrome(true)?)),
            ParseFailure::Stdout(..) | ParseFailure::Memory => Ok(None),
        }
    }

    /// The status with which a program ends: 0 after a Stdout, else 1. It takes no memory.
    /// bpaf's call takes the failure by value.
    pub fn exit_code(&self) -> i32
        ensures { result ≡ exit_code self.now }
    {
        match self {
            ParseFailure::Stdout(..) => 0,
            ParseFailure::Stderr(_) | ParseFailure::Memory => 1,
        }
    }
}

impl From<AllocError> for ParseFailure {
    ghost from_gives = { λ _ failure. failure ≡ Memory };

    fn from(_error: AllocError) -> ParseFailure {
        ParseFailure::Memory
    }
}
