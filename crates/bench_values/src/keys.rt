//! The keys and the names of commands that stand in a description.
use crate::tokens::{Fault, Problem, Tokens};
use bpaf_core::CommandNames;
use bpaf_doc::Doc;
use bpaf_text::{NamedArg, env, long, short};
use std::alloc::{AllocError, Global};

/// The character of a text that has only one.
fn only_char(text: &str) -> Option<char> {
    let mut chars = text.chars();
    let first = chars.next()?;
    match chars.next() {
        Some(_) => None,
        None => Some(first),
    }
}

/// A key of one name: behind `$` one of the environment, behind `--` a long one.
fn first_name(alloc: Global, name: &str) -> Result<NamedArg, AllocError> {
    if let Some(variable) = name.strip_prefix('$') {
        return env(alloc, variable);
    }
    if let Some(name) = name.strip_prefix("--") {
        return long(alloc, name);
    }
    match only_char(name) {
        Some(letter) => short(alloc, letter),
        None => long(alloc, name),
    }
}

/// A key with one name more.
fn one_more(key: NamedArg, name: &str) -> Result<NamedArg, AllocError> {
    if let Some(variable) = name.strip_prefix('$') {
        return key.env(variable);
    }
    if let Some(name) = name.strip_prefix("--") {
        return key.long(name);
    }
    match only_char(name) {
        Some(letter) => key.short(letter),
        None => key.long(name),
    }
}

/// A key of names with commas between them: `n,num,--m,$NUM` has a short one, two long ones and one
/// of the environment. Nothing where a name is empty; `--` is the empty long one.
fn key_of(alloc: Global, names: &str) -> Result<Option<NamedArg>, AllocError> {
    let mut key: Option<NamedArg> = None;
    for name in names.split(',') {
        if name.is_empty() || name == "$" {
            return Ok(None);
        }
        key = Some(match key {
            Some(key) => one_more(key, name)?,
            None => first_name(alloc, name)?,
        });
    }
    Ok(key)
}

/// The next token, a key, and its help where a text in quotes stands behind it. Refused where a
/// name of the key is empty, and for want of memory.
pub fn read_key(tokens: &mut Tokens<'_>) -> Result<NamedArg, Fault> {
    let Some(key) = key_of(tokens.alloc(), tokens.peek())? else {
        return Err(tokens.fault(Problem::NoName));
    };
    tokens.skip();
    match tokens.quoted()? {
        Some(help) => Ok(key.help(Doc::from_text(tokens.alloc(), help)?)),
        None => Ok(key),
    }
}

/// Names with one name more: a character is a short one.
fn one_name_more(names: CommandNames, name: &str) -> Result<CommandNames, AllocError> {
    match only_char(name) {
        Some(letter) => names.short(letter),
        None => names.long(name),
    }
}

/// The names of a command, with commas between them; the first is a long one. Nothing where a name
/// is empty.
fn names_of(alloc: Global, text: &str) -> Result<Option<CommandNames>, AllocError> {
    let mut names: Option<CommandNames> = None;
    for name in text.split(',') {
        if name.is_empty() {
            return Ok(None);
        }
        names = Some(match names {
            Some(names) => one_name_more(names, name)?,
            None => CommandNames::new(alloc, name)?,
        });
    }
    Ok(names)
}

/// The next token, the names of a command; refused likewise.
pub fn read_names(tokens: &mut Tokens<'_>) -> Result<CommandNames, Fault> {
    match names_of(tokens.alloc(), tokens.peek())? {
        Some(names) => {
            tokens.skip();
            Ok(names)
        }
        None => Err(tokens.fault(Problem::NoName)),
    }
}
