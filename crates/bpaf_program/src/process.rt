//! The words that the process was given.
ghost use Rattle.std.specs.{declared.io.ErrorKind.TheVariants.OutOfMemory, Result.IfErr};
ghost use Rattle.std.specs.{Prelude.◌≡◌, Prelude.IfOk, Prelude.drop, Vec.Iter.into_iter_items};
ghost use Rattle.bpaf_line.specs.declared.failure.ParseFailure.TheVariants.{Memory, Stderr};
ghost use Rattle.bpaf_program.specs.Ending.{IsUnread};

use bpaf::{Doc, ParseFailure};
use std::alloc::{AllocError, Global};
use std::{env, io};

/// The words that the process is called with, without its own name; refused for want of memory, and
/// where one is no text in UTF-8.
///
/// No contract of the standard library says which words a process is called with, so this contract
/// covers refusals alone.
pub fn words(rt: &HostRuntime) -> Result<Vec<String>, ParseFailure>
    ensures { IfErr result IsUnread }
{
    match env::args(rt) {
        Ok(all) => Ok(behind_the_first(rt.alloc(), all)?),
        Err(error) => Err(unread(rt.alloc(), error.kind())),
    }
}

/// All words but the first, which is the name of the program, in order; refused only for want of
/// memory.
fn behind_the_first(alloc: Global, mut all: env::Args) -> Result<Vec<String>, AllocError>
    ensures { IfOk result (λ words. words.items ≡ drop 1 (into_iter_items all)) }
{
    all.next();
    all.collect(alloc)
}

/// The refusal where the words can't be had: want of memory where the error is one, else a message,
/// or want of memory for it.
fn unread(alloc: Global, kind: io::ErrorKind) -> ParseFailure
    ensures told { IsUnread result }
    ensures memory { kind ≡ OutOfMemory → result ≡ Memory }
{
    if kind == io::ErrorKind::OutOfMemory {
        return ParseFailure::Memory;
    }
    match Doc::from_text(alloc, "a word is no text in UTF-8") {
        Ok(doc) => ParseFailure::Stderr(doc),
        Err(_) => ParseFailure::Memory,
    }
}
