//! From a description's tokens to the leaf that they describe.
use crate::leaf::Leaf;
use crate::names::{as_value, bare_leaf, keyed_leaf, numbered_leaf, texted_leaf};
use bench_values::{
    AsValue, Described, Fault, Keyed, Problem, Tokens, is_combination, is_numbered, is_texted,
    kind_of_key, read_key,
};
use bpaf::Doc;
use bpaf::params::ParsePositional;

/// A leaf of a key, of which the token was read.
fn read_keyed(keyed: Keyed, tokens: &mut Tokens<'_>) -> Result<Leaf, Fault> {
    let key = read_key(tokens)?;
    let number = match keyed {
        Keyed::RequiredFlag => tokens.number()?,
        _ => 0,
    };
    Ok(keyed_leaf(keyed, key, number))
}

/// A word, and its help where a text in quotes stands behind it.
fn read_word<T>(
    word: AsValue<T, ParsePositional<T>>,
    tokens: &mut Tokens<'_>,
) -> Result<AsValue<T, ParsePositional<T>>, Fault> {
    match tokens.quoted()? {
        Some(help) => Ok(as_value(word.inner.help(Doc::from_text(tokens.alloc(), help)?))),
        None => Ok(word),
    }
}

/// A leaf of one token, which was read; a word may have a help behind it.
fn read_bare(leaf: Leaf, tokens: &mut Tokens<'_>) -> Result<Leaf, Fault> {
    match leaf {
        Leaf::NumberWord(word) => Ok(Leaf::NumberWord(read_word(word, tokens)?)),
        Leaf::Word(word) => Ok(Leaf::Word(read_word(word, tokens)?)),
        leaf => Ok(leaf),
    }
}

/// A leaf of a token and a text, of which the token was read.
fn read_texted(token: &str, tokens: &mut Tokens<'_>) -> Result<Leaf, Fault> {
    let text = tokens.text()?;
    Ok(texted_leaf(tokens.alloc(), token, text)?)
}

/// A leaf of a token and a number, of which the token was read.
fn read_numbered(token: &str, tokens: &mut Tokens<'_>) -> Result<Leaf, Fault> {
    let number = tokens.number()?;
    Ok(numbered_leaf(token, number))
}

/// What is wrong with a token that is no leaf.
fn no_leaf(token: &str) -> Problem {
    if is_combination(token) {
        Problem::Deep
    } else {
        Problem::Unknown
    }
}

/// A leaf of more than one token, without parentheses.
fn read_longer(token: &str, tokens: &mut Tokens<'_>) -> Result<Leaf, Fault> {
    let keyed = kind_of_key(token);
    let texted = is_texted(token);
    if keyed.is_none() && !texted && !is_numbered(token) {
        return Err(tokens.fault(no_leaf(token)));
    }
    tokens.skip();
    match keyed {
        Some(keyed) => read_keyed(keyed, tokens),
        None if texted => read_texted(token, tokens),
        None => read_numbered(token, tokens),
    }
}

/// A leaf, without parentheses.
fn read_leaf(tokens: &mut Tokens<'_>) -> Result<Leaf, Fault> {
    let token = tokens.peek();
    match bare_leaf(token) {
        Some(leaf) => {
            tokens.skip();
            read_bare(leaf, tokens)
        }
        None => read_longer(token, tokens),
    }
}

impl Described for Leaf {
    fn read(tokens: &mut Tokens<'_>) -> Result<Leaf, Fault> {
        let opened = tokens.open();
        let leaf = read_leaf(tokens)?;
        tokens.close(opened)?;
        Ok(leaf)
    }

    ghost ready = { λ p. tt };
}
