//! What a description makes.
use crate::tokens::{Description, Fault, Tokens};
use crate::value::Value;
use bpaf_core::Parser;
use std::alloc::Global;

/// A parser that tokens describe.
pub trait Described: Parser<Value> + Drop {
    /// Reads it off the tokens.
    fn read(tokens: &mut Tokens<'_>) -> Result<Self, Fault>;

    /// It may always be evaluated.
    ghost ready: { (p : Self) → Self.can_eval p };
}

/// The parser of a description; refused where its tokens describe none, and for want of memory.
///
/// ```text
/// let mut description = Description::new(alloc);
/// description.push_line(Place { line: 1, column: 1 }, "many (argument n,num)")?;
/// let parser = read_parser::<SixLevels>(alloc, &description)?;
/// ```
pub fn read_parser<P: Described>(alloc: Global, description: &Description) -> Result<P, Fault> {
    let mut tokens = Tokens::new(alloc, description.tokens());
    let parser = P::read(&mut tokens)?;
    tokens.end()?;
    Ok(parser)
}
