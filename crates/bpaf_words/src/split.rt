//! The items of one word.
ghost use Rattle.std.specs.Prelude.{◌≡◌, ◌≢◌, ◌↔◌, [], ◌∷◌, ◌++◌, false, IsTrue, EachIndex, IfOk};
ghost use Rattle.std.specs.Prelude.{OnOk, slice_index, codes, encode_utf8, encode_utf8_all, List};
ghost use Rattle.bpaf_words.specs.Line.{IsNumber, argument_of, known_at};
ghost use Rattle.bpaf_words.specs.Splitting.{Splits, SplitsAlone, SplitsDashed, SplitsJoined};
ghost use Rattle.std.specs.{Prelude.ℕ, Prelude.MatchOption, Bool.MatchBool, Char.IsAsciiDigit};
ghost use Rattle.bpaf_words.specs.Splitting.{SpellsAs};
ghost use Rattle.bpaf_words.specs.declared.split.SplitFault.TheVariants.{Memory};

use bpaf_base::{Arg, Text};
use std::alloc::{AllocError, Global};

/// Why a word gives no items.
#[derive(Drop)]
pub enum SplitFault {
    /// The character of this number, the dash being 0, is a known flag and a known argument.
    Ambiguous(usize),
    /// Memory was wanted and refused.
    Memory,
}

impl From<AllocError> for SplitFault {
    ghost from_gives = { λ _ fault. fault ≡ Memory };

    fn from(_error: AllocError) -> SplitFault {
        SplitFault::Memory
    }
}

/// The items of a word that isn't `--`, at the end of the items before it.
///
/// `flags` and `arguments` are the known short names. With `numbers` a word of `-` and one or more
/// ASCII digits, and nothing else, is a Word.
///
/// ```text
/// -12    without the setting letters that are joined; with it a Word
/// -1=2   Short('1', attached) and its value, with and without it
/// ```
pub fn split_word(
    alloc: Global,
    word: &str,
    flags: &[char],
    arguments: &[char],
    numbers: bool,
    items: &mut Vec<Arg>,
) -> Result<(), SplitFault>
    requires { word.now ≢ codes "--" }
    ensures { Splits (known_at numbers (record { flags = flags.now; arguments = arguments.now }))
        word.now items.old.items result items.new.items }
{
    match split_alone(alloc, word, numbers, items)? {
        None => Ok(()),
        Some(letters) => split_joined(alloc, word, letters, flags, arguments, items),
    }
}

/// The items of a word that isn't `--`, at the end of the items before it, where they don't depend
/// on the known short names; else the letters of the word, which are joined, and no items.
///
/// Refused only for want of memory.
///
/// ```text
/// -v --num=3 word    their items
/// -12                with `numbers` its item, else its letters
/// -vn3               its letters
/// ```
pub(crate) fn split_alone<'a>(
    alloc: Global,
    word: &'a str,
    numbers: bool,
    items: &mut Vec<Arg>,
) -> Result<Option<&'a str>, AllocError>
    requires { word.now ≢ codes "--" }
    ensures { IfOk result (λ joined.
        SplitsAlone numbers word.now items.old.items joined items.new.items) }
{
    match after_dash(word) {
        Some(rest) => split_behind_dash(alloc, word, rest, numbers, items),
        None => {
            push_word(alloc, word, items)?;
            Ok(None)
        }
    }
}

/// The same of a word that begins with a dash. It stays a call, so that the loop over words is
/// short for all others.
#[inline(never)]
fn split_behind_dash<'a>(
    alloc: Global,
    word: &'a str,
    rest: &'a str,
    numbers: bool,
    items: &mut Vec<Arg>,
) -> Result<Option<&'a str>, AllocError>
    requires dashed { word.now ≡ codes "-" ++ rest.now }
    requires other { word.now ≢ codes "--" }
    ensures { IfOk result (λ joined.
        SplitsAlone numbers word.now items.old.items joined items.new.items) }
{
    if numbers && is_number(rest) {
        push_word(alloc, word, items)?;
        return Ok(None);
    }
    split_dashed(alloc, word, rest, items)
}

/// The part behind the dash of a word, where it begins with one. Of any other word its first
/// byte alone is looked at.
fn after_dash(word: &str) -> Option<&str>
    ensures { MatchOption result ((rest : List ℕ) → word.now ≢ codes "-" ++ rest)
        (λ rest. word.now ≡ codes "-" ++ rest.now) }
{
    match word.as_bytes().first() {
        Some(b'-') => word.strip_prefix('-'),
        _ => None,
    }
}

/// Whether the part behind the dash of a word is one or more ASCII digits, and nothing else.
fn is_number(rest: &str) -> bool
    ensures { MatchBool result (IsNumber (codes "-" ++ rest.now))
        (¬ (IsNumber (codes "-" ++ rest.now))) }
{
    !rest.is_empty() && are_digits(rest.as_bytes())
}

/// Whether all bytes are ASCII digits.
fn are_digits(bytes: &[u8]) -> bool
    ensures { IsTrue result ↔ EachIndex bytes.now (λ k. IsAsciiDigit (slice_index bytes.now k)) }
{
    bytes.iter().all(|b| b.is_ascii_digit())
}

/// The items of a word that begins with a dash and is neither `--` nor a number that is a word; the
/// letters behind the dash where they are joined, and then no items.
fn split_dashed<'a>(
    alloc: Global,
    word: &'a str,
    rest: &'a str,
    items: &mut Vec<Arg>,
) -> Result<Option<&'a str>, AllocError>
    requires dashed { word.now ≡ codes "-" ++ rest.now }
    requires other { word.now ≢ codes "--" }
    ensures { IfOk result (λ joined.
        SplitsDashed word.now items.old.items joined items.new.items) }
{
    if let Some(name) = after_dash(rest) {
        split_long(alloc, word, name, items)?;
        return Ok(None);
    }
    let mut letters = rest.chars();
    let Some(c) = letters.next() else {
        push_word(alloc, word, items)?;
        return Ok(None);
    };
    let tail = letters.as_str();
    if tail.is_empty() {
        push_flag(alloc, c, word, items)?;
        return Ok(None);
    }
    let Some((name, value)) = tail.split_once('=') else {
        return Ok(Some(rest));
    };
    let value = if name.is_empty() { value } else { tail };
    let key = Arg::Short(c, true, Text::new(alloc, word)?);
    push_attached(alloc, key, value, items)?;
    Ok(None)
}

/// A Word behind the items; refused only for want of memory.
fn push_word(alloc: Global, word: &str, items: &mut Vec<Arg>) -> Result<(), AllocError>
    ensures { OnOk result (items.new.items ≡ items.old.items ++ Arg.Word word.now ∷ []) }
{
    items.push(Arg::Word(Text::new(alloc, word)?))?;
    Ok(())
}

/// A key and the value in its own word behind the items; refused only for want of memory, which
/// drops the key.
fn push_attached(
    alloc: Global,
    key: Arg,
    value: &str,
    items: &mut Vec<Arg>,
) -> Result<(), AllocError>
    ensures { OnOk result (items.new.items ≡ items.old.items ++ key ∷ Arg.ArgWord value.now ∷ []) }
{
    items.push(key)?;
    items.push(Arg::ArgWord(Text::new(alloc, value)?))?;
    Ok(())
}

/// The items of `--name` or `--name=value`.
fn split_long(alloc: Global, word: &str, name: &str, items: &mut Vec<Arg>) -> Result<(), AllocError>
    requires word { word.now ≡ codes "--" ++ name.now }
    requires name { name.now ≢ [] }
    ensures { OnOk result (SpellsAs word.now items.old.items items.new.items) }
{
    match name.split_once('=') {
        None => {
            items.push(Arg::Long(Text::new(alloc, name)?, false, Text::new(alloc, word)?))?;
            Ok(())
        }
        Some((front, value)) => {
            let key = Arg::Long(Text::new(alloc, front)?, true, Text::new(alloc, word)?);
            push_attached(alloc, key, value, items)
        }
    }
}

/// The items of joined letters, the part of a word after its dash.
fn split_joined(
    alloc: Global,
    word: &str,
    letters: &str,
    flags: &[char],
    arguments: &[char],
    items: &mut Vec<Arg>,
) -> Result<(), SplitFault>
    ensures { SplitsJoined (record { flags = flags.now; arguments = arguments.now })
        word.now letters.now items.old.items result items.new.items }
{
    let before = items.len();
    let mut count = 0usize;
    let mut rest = letters.chars();
    while let Some(c) = rest.next() {
        let is_flag = flags.contains(&c);
        let is_argument = arguments.contains(&c);
        match (is_flag, is_argument) {
            (true, false) => {
                let text = if count == 0 { word } else { "" };
                push_flag(alloc, c, text, items)?;
            }
            (false, true) => return Ok(push_argument(alloc, c, word, rest.as_str(), items)?),
            (false, false) => {
                items.truncate(before);
                return Ok(push_word(alloc, word, items)?);
            }
            (true, true) => return Err(SplitFault::Ambiguous(count + 1)),
        }
        count += 1;
    }
    Ok(())
}

/// A short key without a value behind the items; refused only for want of memory.
fn push_flag(alloc: Global, c: char, text: &str, items: &mut Vec<Arg>) -> Result<(), AllocError>
    ensures { OnOk result (items.new.items ≡ items.old.items ++ Arg.Short c false text.now ∷ []) }
{
    items.push(Arg::Short(c, false, Text::new(alloc, text)?))?;
    Ok(())
}

/// An argument of joined letters behind the items, and the letters after it as its value; refused
/// only for want of memory.
fn push_argument(
    alloc: Global,
    c: char,
    word: &str,
    value: &str,
    items: &mut Vec<Arg>,
) -> Result<(), AllocError>
    ensures { OnOk result (items.new.items ≡ items.old.items ++ argument_of word.now c value.now) }
{
    let attached = !value.is_empty();
    items.push(Arg::Short(c, attached, Text::new(alloc, word)?))?;
    if attached {
        push_word(alloc, value, items)?;
    }
    Ok(())
}
