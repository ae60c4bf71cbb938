//! Trees that lines of text describe, from the bottom up.
use bpaf_doc::{Doc, Item, Meta, ShortLong, Text};
use std::alloc::{AllocError, Global};

/// A word, and what stands behind the space after it.
fn cut(text: &str) -> (&str, &str) {
    match text.split_once(' ') {
        None => (text, ""),
        Some(parts) => parts,
    }
}

/// A document of one text, none where it is empty.
pub(crate) fn told(alloc: Global, text: &str) -> Result<Option<Doc>, AllocError> {
    if text.is_empty() {
        Ok(None)
    } else {
        Ok(Some(Doc::from_text(alloc, text)?))
    }
}

/// The names of a key, a short one and a long one; `_` stands for one that isn't there.
fn names(alloc: Global, short: &str, long: &str) -> Result<ShortLong, AllocError> {
    let first = short.chars().next().unwrap_or('_');
    if long == "_" {
        Ok(ShortLong::Short(first))
    } else if first == '_' {
        Ok(ShortLong::Long(Text::new(alloc, long)?))
    } else {
        Ok(ShortLong::Both(first, Text::new(alloc, long)?))
    }
}

/// A flag: its names and its help.
fn flag(alloc: Global, text: &str) -> Result<Item, AllocError> {
    let (short, text) = cut(text);
    let (long, help) = cut(text);
    Ok(Item::Flag {
        name: names(alloc, short, long)?,
        shorts: short.chars().collect(alloc)?,
        env: None,
        help: told(alloc, help)?,
    })
}

/// An argument: its names, its metavar and its help.
fn argument(alloc: Global, text: &str) -> Result<Item, AllocError> {
    let (short, text) = cut(text);
    let (long, text) = cut(text);
    let (metavar, help) = cut(text);
    Ok(Item::Argument {
        name: names(alloc, short, long)?,
        shorts: short.chars().collect(alloc)?,
        metavar: Text::new(alloc, metavar)?,
        env: Some(Text::new(alloc, "SIZE")?),
        help: told(alloc, help)?,
    })
}

/// A word: its metavar and its help.
fn word(alloc: Global, text: &str) -> Result<Item, AllocError> {
    let (metavar, help) = cut(text);
    Ok(Item::Positional {
        metavar: Text::new(alloc, metavar)?,
        help: told(alloc, help)?,
    })
}

/// A word of any shape, its text and its help, where a key may stand or not.
fn any(alloc: Global, text: &str, anywhere: bool) -> Result<Item, AllocError> {
    let (metavar, help) = cut(text);
    Ok(Item::Any {
        metavar: Doc::from_text(alloc, metavar)?,
        help: told(alloc, help)?,
        anywhere,
    })
}

/// A command: its name, its short name and its help.
fn command(alloc: Global, text: &str, inner: Box<Meta>) -> Result<Item, AllocError> {
    let (name, text) = cut(text);
    let (short, help) = cut(text);
    Ok(Item::Command {
        name: Text::new(alloc, name)?,
        short: short.chars().next(),
        help: told(alloc, help)?,
        meta: inner,
    })
}

/// An item.
fn item(alloc: Global, kind: &str, text: &str) -> Result<Meta, AllocError> {
    match kind {
        "flag" => Ok(Meta::Item(flag(alloc, text)?)),
        "argument" => Ok(Meta::Item(argument(alloc, text)?)),
        "word" => Ok(Meta::Item(word(alloc, text)?)),
        "any" => Ok(Meta::Item(any(alloc, text, true)?)),
        "here" => Ok(Meta::Item(any(alloc, text, false)?)),
        _ => Ok(Meta::Skip),
    }
}

/// A tree with something around it.
fn wrapped(alloc: Global, kind: &str, text: &str, inner: Meta) -> Result<Meta, AllocError> {
    let inner = Box::new(alloc, inner)?;
    match kind {
        "optional" => Ok(Meta::Optional(inner)),
        "strict" => Ok(Meta::Strict(inner)),
        "section" => Ok(Meta::Subsection(inner, Doc::from_text(alloc, text)?)),
        "suffix" => Ok(Meta::Suffix(inner, Doc::from_text(alloc, text)?)),
        "custom" => Ok(Meta::CustomUsage(inner, Doc::from_text(alloc, text)?)),
        _ => Ok(Meta::Item(command(alloc, text, inner)?)),
    }
}

/// The last two trees in order, which are taken off.
fn last_two(trees: &mut Vec<Meta>) -> Result<Vec<Meta>, AllocError> {
    let alloc = *trees.allocator();
    let second = trees.pop().unwrap_or(Meta::Skip);
    let first = trees.pop().unwrap_or(Meta::Skip);
    Ok(vec![in alloc; first, second]?)
}

/// The last three trees in order, which are taken off.
fn last_three(trees: &mut Vec<Meta>) -> Result<Vec<Meta>, AllocError> {
    let last = trees.pop().unwrap_or(Meta::Skip);
    let mut all = last_two(trees)?;
    all.push(last)?;
    Ok(all)
}

/// Puts what one line of a description makes behind the trees so far.
fn grow(trees: &mut Vec<Meta>, line: &str) -> Result<(), AllocError> {
    let alloc = *trees.allocator();
    let (kind, text) = cut(line);
    let tree = match kind {
        "and" => Meta::And(last_two(trees)?),
        "all" => Meta::And(last_three(trees)?),
        "or" => Meta::Or(last_two(trees)?),
        "flag" | "argument" | "word" | "any" | "here" | "skip" => item(alloc, kind, text)?,
        _ => {
            let inner = trees.pop().unwrap_or(Meta::Skip);
            wrapped(alloc, kind, text, inner)?
        }
    };
    trees.push(tree)?;
    Ok(())
}

/// The tree that the lines of a description make: an item a line, and behind up to three trees what
/// stands round them.
pub(crate) fn tree(alloc: Global, lines: &str) -> Result<Meta, AllocError> {
    let mut trees = Vec::new(alloc);
    for line in lines.split('\n') {
        grow(&mut trees, line)?;
    }
    Ok(trees.pop().unwrap_or(Meta::Skip))
}
