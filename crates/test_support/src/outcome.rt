//! What a program writes on a line of words.
use crate::narrow::Narrow;
use std::alloc::{AllocError, Global};
use std::io::Write;

/// A program over two writers, as its tests run it.
pub trait Tried {
    /// Runs it on words, and gives its status.
    fn run<W: Write, E: Write>(
        &self,
        alloc: Global,
        words: &[String],
        out: &mut W,
        err: &mut E,
    ) -> u8;
}

/// What a run wrote on its two writers, and its status.
#[derive(Drop)]
pub struct Written {
    /// What stands on the writer of the answer.
    pub out: Vec<u8>,
    /// What stands on the writer of messages.
    pub err: Vec<u8>,
    /// The status, from 0 to 255.
    pub status: u8,
    /// Whether a write followed one that failed.
    pub late: bool,
}

impl Written {
    /// Whether this text was written, nothing on the writer of messages, and the status is 0.
    pub fn is_text(&self, text: &str) -> bool {
        self.status == 0 && self.err.is_empty() && self.out.as_slice() == text.as_bytes()
    }

    /// Whether this message was told in a line of its own, nothing was written on the other writer,
    /// and the status is 1.
    pub fn is_message(&self, message: &str) -> bool {
        let told = self.err.as_slice();
        let line = told.strip_prefix(b"Error: ");
        let line = line.and_then(|rest| rest.strip_suffix(b"\n"));
        self.status == 1 && self.out.is_empty() && line == Some(message.as_bytes())
    }
}

/// Words that are written with a space between each two; none for the empty text.
fn owned(alloc: Global, words: &str) -> Result<Vec<String>, AllocError> {
    let mut all = Vec::new(alloc);
    if !words.is_empty() {
        for word in words.split(' ') {
            all.push(String::from_str(alloc, word)?)?;
        }
    }
    Ok(all)
}

/// What a program writes on words, where the call of this number fails on either writer, or none
/// where it is 0.
fn once<P: Tried>(alloc: Global, program: &P, words: &[String], failing: u64) -> Written {
    let mut out = Narrow::new(alloc, usize::MAX, failing);
    let mut err = Narrow::new(alloc, usize::MAX, failing);
    let status = program.run(alloc, words, &mut out, &mut err);
    Written {
        late: out.late || err.late,
        out: out.taken,
        err: err.taken,
        status,
    }
}

/// What a program writes on words, which are parted by single spaces. It is run on each beginning
/// of them too, and returns.
pub fn ran<P: Tried>(alloc: Global, program: &P, words: &str) -> Result<Written, AllocError> {
    let words = owned(alloc, words)?;
    for count in 0..words.len() {
        drop(once(alloc, program, &words.as_slice()[..count], 0));
    }
    Ok(once(alloc, program, words.as_slice(), 0))
}

/// The same of these words alone, where the call of this number fails on either writer.
pub fn ran_failing<P: Tried>(
    alloc: Global,
    program: &P,
    words: &str,
    failing: u64,
) -> Result<Written, AllocError> {
    let words = owned(alloc, words)?;
    Ok(once(alloc, program, words.as_slice(), failing))
}
