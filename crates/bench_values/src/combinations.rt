//! What stands before parsers in a description, and the parsers behind it.
use crate::described::Described;
use crate::keys::read_names;
use crate::kind::{Kind, Modifier};
use crate::names::{
    is_adjacent_command, is_combination, is_command, modifier, numbered_modifier, several_kind,
};
use crate::tokens::{Fault, Tokens};

/// What stands before parsers, and before how many; where nothing does, one parser follows. Refused
/// where a name or a number has to stand behind the token and doesn't, and for want of memory.
pub fn read_combination(tokens: &mut Tokens<'_>) -> Result<(Kind, u64), Fault> {
    let token = tokens.peek();
    if !is_combination(token) {
        return Ok((Kind::Over(Modifier::Same), 1));
    }
    tokens.skip();
    if let Some(modifier) = modifier(token) {
        return Ok((Kind::Over(modifier), 1));
    }
    if let Some(several) = several_kind(token) {
        return Ok(several);
    }
    if is_command(token) {
        let adjacent = is_adjacent_command(token);
        return Ok((Kind::Command(read_names(tokens)?, adjacent), 1));
    }
    let number = tokens.number()?;
    match numbered_modifier(token, number) {
        Some(modifier) => Ok((Kind::Over(modifier), 1)),
        None => Ok((Kind::Over(Modifier::Same), number)),
    }
}

/// So many parsers, one after the other; refused where one of them is.
pub fn read_several<P: Described>(count: u64, tokens: &mut Tokens<'_>) -> Result<Vec<P>, Fault> {
    let mut parsers = Vec::new(tokens.alloc());
    for _ in 0..count {
        parsers.push(P::read(tokens)?)?;
    }
    Ok(parsers)
}
